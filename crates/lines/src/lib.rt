// The lines that `findings` prints (document 01, "Findings program"), each at the front of a room.
#![tactic(auto)]

ghost use Rattle.std.specs.Prelude.{◌≡◌, ◌++◌, ◌+◌, ◌≤◌, length};
ghost use Rattle.meaning.specs.Findings.{decimal, told, newline, blocked_line, stair_line, refused_line};
ghost use Rattle.room.specs.Writing.{Wrote};
ghost use Rattle.lines.specs.Texts.{figure_words, figure_line};

mod texts;

use meaning::{Refusal, Stair};
use room::put;
use texts::put_told;

// A word and a number, and the number that it is held against: blocked cells of the cycle, a bound of the deadline.
fn put_of(out: &mut [u8], word: &[u8], n: u64, whole: u32) -> usize
    requires { length word.now + length (decimal n) + 4 + length (decimal whole) ≤ length out.old }
    ensures { Wrote (word.now ++ decimal n ++ told " of " whole) result out.old out.new
        × (result ≡ length word.now + length (decimal n) + 4 + length (decimal whole)) }
{
    let at = put_told(out, word, n);
    at + put_told(&mut out[at..], b" of ", u64::from(whole))
}

// A line's last word and number, and its end.
fn put_last(out: &mut [u8], word: &[u8], n: u64) -> usize
    requires { length word.now + length (decimal n) + 1 ≤ length out.old }
    ensures { Wrote (word.now ++ decimal n ++ newline) result out.old out.new
        × (result ≡ length word.now + length (decimal n) + 1) }
{
    let at = put_told(out, word, n);
    at + put(&mut out[at..], b"\n")
}

// Line 1: blocked cells, cycle, runs.
pub fn put_blocked(out: &mut [u8], all: u32, cycle: u32, runs: usize) -> usize
    requires { 17 + length (decimal all) + length (decimal cycle) + length (decimal runs) ≤ length out.old }
    ensures { Wrote (blocked_line all cycle runs) result out.old out.new }
{
    let at = put_of(out, b"blocked ", u64::from(all), cycle);
    at + put_last(&mut out[at..], b" in ", runs as u64)
}

// A stair's line: distance, total.
pub fn put_stair(out: &mut [u8], x: Stair) -> usize
    requires { 8 + length (decimal x.far) + length (decimal x.total) ≤ length out.old }
    ensures { Wrote (stair_line x) result out.old out.new }
{
    let at = put_told(out, b"stair ", u64::from(x.far));
    at + put_last(&mut out[at..], b" ", u64::from(x.total))
}

// The words of a stream's verdict: a bound, a bound over the deadline, or none.
fn put_verdict(out: &mut [u8], bound: Result<u64, Refusal>, deadline: u32) -> usize
    requires { length (figure_words deadline bound) ≤ length out.old }
    ensures { Wrote (figure_words deadline bound) result out.old out.new }
{
    match bound {
        Ok(bound) => put_of(out, b" bound ", bound, deadline),
        Err(why) => match why {
            Refusal::Late { bound } => put_of(out, b" late ", u64::from(bound), deadline),
            _ => put(out, b" endless"),
        },
    }
}

// A stream's line: id, verdict, bound, deadline.
pub fn put_stream(out: &mut [u8], id: u32, bound: Result<u64, Refusal>, deadline: u32) -> usize
    requires { 8 + length (decimal id) + length (figure_words deadline bound) ≤ length out.old }
    ensures { Wrote (figure_line id deadline bound) result out.old out.new }
{
    let mut at = put_told(out, b"stream ", u64::from(id));
    at += put_verdict(&mut out[at..], bound, deadline);
    at + put(&mut out[at..], b"\n")
}

// A refused plan's line: number, place.
pub fn put_refusal(out: &mut [u8], number: u64, place: usize) -> usize
    requires { 13 + length (decimal number) + length (decimal place) ≤ length out.old }
    ensures { Wrote (refused_line number place) result out.old out.new }
{
    let at = put_told(out, b"refused ", number);
    at + put_last(&mut out[at..], b" at ", place as u64)
}
