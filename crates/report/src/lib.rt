// The text that `findings` prints (document 01, "Findings program"), made in a caller's room.
#![tactic(auto)]

ghost use Rattle.std.specs.Prelude.{true, ◌≡◌, List, ℕ, ◌≤◌, length, take};
ghost use Rattle.laws.specs.Lists.{joined};
ghost use Rattle.meaning.specs.Bytes.{read, refused_at};
ghost use Rattle.meaning.specs.Findings.{stair_line, printed, findings};
ghost use Rattle.table.specs.Lookup.{paired};
ghost use Rattle.desk.specs.Desks.{held, Fit, streams_in};
ghost use Rattle.room.specs.Writing.{Wrote};
ghost use Rattle.report.specs.Lines.{first_in, line_in};

use desk::Desk;
use lines::{put_blocked, put_refusal, put_stair, put_stream};
use meaning::{Refusal, Stair};
use table::Stairs;

// The lines of the stairs, each into the rest of the room.
fn put_stairs(out: &mut [u8], stairs: &Stairs<'_>) -> usize
    requires { length (joined stair_line (paired stairs.now.far.now stairs.now.tot.now)) ≤ length out.old }
    ensures { Wrote (joined stair_line (paired stairs.now.far.now stairs.now.tot.now)) result out.old out.new }
{
    let mut at: usize = 0;
    for (far, total) in stairs.far.iter().zip(stairs.tot) {
        let x = Stair {
            far: *far,
            total: *total,
        };
        at += put_stair(&mut out[at..], x);
    }
    at
}

// The lines of the streams held, by rising id, each into the rest of the room.
fn put_streams(out: &mut [u8], d: &Desk) -> usize
    requires { Fit d.now × (d.now.opened ≡ true)
        × (length (joined (line_in d.now) (streams_in d.now)) ≤ length out.old) }
    ensures { Wrote (joined (line_in d.now) (streams_in d.now)) result out.old out.new }
{
    let streams = &d.streams[..d.nstreams];
    let mut at: usize = 0;
    for j in streams {
        let reply = questions::response(*d, u64::from(j.id));
        at += put_stream(&mut out[at..], j.id, reply.answer, j.deadline);
    }
    at
}

// Line 1 of an open desk, which answers its runs.
fn put_first(out: &mut [u8], d: &Desk) -> usize
    requires { Fit d.now × (d.now.opened ≡ true) × (64 ≤ length out.old) }
    ensures { Wrote (first_in d.now) result out.old out.new }
{
    let found = questions::runs(*d);
    let count = found.answer.map_or(0, |runs| runs.n);
    let stairs = desk::stairs_of(d);
    put_blocked(out, stairs.all_blocked(), d.cycle, count)
}

// The findings of an open desk: the first line, the stairs and the streams.
pub fn put_findings(out: &mut [u8], d: Desk) -> usize
    requires { Fit d × (d.opened ≡ true) × (32_768 ≤ length out.old) }
    ensures { Wrote (printed (read (held d))) result out.old out.new }
{
    let mut at = put_first(out, &d);
    at += put_stairs(&mut out[at..], &desk::stairs_of(&d));
    at + put_streams(&mut out[at..], &d)
}

// The one line of a refused plan.
pub fn put_refused(out: &mut [u8], why: Refusal, place: usize) -> usize
    requires { 64 ≤ length out.old }
    ensures { Wrote (printed (refused_at why place)) result out.old out.new }
{
    put_refusal(out, answers::number(why), place)
}

// Room for the longest text, which has 28,543 octets.
pub fn room() -> [u8; 32768]
    ensures { 32_768 ≡ length result }
{
    [0; 32768]
}

// The findings of an input.
pub fn report(input: &[u8], out: &mut [u8]) -> usize
    requires { 32_768 ≤ length out.old }
    ensures { Wrote (findings input.now) result out.old out.new }
{
    let reply = reader::read(input);
    match reply.answer {
        Ok(()) => put_findings(out, reply.desk),
        Err(refused) => put_refused(out, refused.why, refused.place),
    }
}

// The findings of a whole input, from its first 4,096 octets.
pub fn answer(taken: &[u8], out: &mut [u8]) -> usize
    requires { 32_768 ≤ length out.old }
    ensures { ((input : List ℕ) → taken.now ≡ take 4_096 input
        → Wrote (findings input) result out.old out.new) × (result ≤ length out.new) }
{
    report(taken, out)
}
