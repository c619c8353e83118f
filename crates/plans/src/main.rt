// Reads the plans that its arguments name and writes each back: a line with the name, document 01's number of the
// answer (0 where it is read) and the place; then the writer's number, its count, and the octets in front of the
// room.
#![tactic(auto)]

ghost use Rattle.std.specs.Prelude.{◌≡◌, length};
ghost use Rattle.desk.specs.Desks.{Fit};

use anyhow::Context;
use desk::Desk;
use meaning::Refusal;
use reader::RefusedAt;
use std::io::Read;
use std::rt::Files;
use std::{env, fs, io};

// The longest input, and the room for the writer.
const LONGEST: u64 = 8_192;

const ROOM: usize = 1_700;

// Two numbers, each behind a blank.
fn put(rt: &impl Print, a: u64, b: u64) -> io::Result<()> {
    print!(rt; " {a} {b}")
}

fn put_read(rt: &impl Print, a: Result<(), RefusedAt>) -> io::Result<()> {
    match a {
        Ok(_) => put(rt, 0, 0),
        Err(RefusedAt { why, place }) => put(rt, answers::number(why), place as u64),
    }
}

// The writer's answer; its count.
fn put_written(rt: &impl Print, a: Result<usize, Refusal>) -> io::Result<usize> {
    let count = a.unwrap_or(0);
    put(rt, answers::number_of_answer(&a), count as u64)?;
    Ok(count)
}

// The octets of the room from its front, in hex: n of them and four more.
fn put_room(rt: &impl Print, room: &[u8], n: usize) -> io::Result<()> {
    print!(rt; " ")?;
    for octet in room.iter().take(n.saturating_add(4)) {
        print!(rt; "{octet:02x}")?;
    }
    println!(rt; "")
}

// Writes a desk into a room, and prints the answer and the room's front.
fn put_desk(rt: &impl Print, d: Desk, room: &mut [u8]) -> io::Result<usize>
    requires { Fit d }
{
    let w = writer::write(d, room);
    let count = put_written(rt, w.answer)?;
    put_room(rt, room, count)?;
    Ok(count)
}

// A room of which every octet is 170.
fn fresh() -> [u8; ROOM]
    ensures { 1_700 ≡ length result }
{
    [170; ROOM]
}

// A desk written into a room of n octets.
fn put_short(rt: &impl Print, d: Desk, n: usize) -> io::Result<()>
    requires { Fit d }
{
    let mut room = fresh();
    if n <= ROOM {
        print!(rt; " ")?;
        put_desk(rt, d, &mut room[..n])?;
    }
    Ok(())
}

// Reads an input, and writes its plan into the whole room and into one octet less than it takes.
fn show(rt: &impl Print, input: &[u8]) -> io::Result<()> {
    let r = reader::read(input);
    put_read(rt, r.answer)?;
    let mut room = fresh();
    let count = put_desk(rt, r.desk, &mut room)?;
    if 0 < count {
        put_short(rt, r.desk, count - 1)?;
    }
    Ok(())
}

// The file of an argument.
fn show_file<R: Print + Files + Alloc>(rt: &R, path: &str) -> anyhow::Result<()> {
    print!(rt; "{path}")?;
    let mut octets = Vec::new(rt.alloc());
    let file = fs::open(rt, path).context(path)?;
    file.take(LONGEST).read_to_end(&mut octets).context(path)?;
    show(rt, &octets)?;
    Ok(())
}

// A file that cannot be read is told on standard error, and the next one is taken.
fn main(rt: HostRuntime) -> anyhow::Result<()> {
    for path in env::args(&rt)?.skip(1) {
        if let Err(why) = show_file(&rt, path.as_str()) {
            eprintln!(rt; "{why:#}")?;
        }
    }
    Ok(())
}
