// Prints the findings of the plan on standard input (document 01, "Findings program"). The text is made in `report`;
// here octets are read and written.
#![tactic(auto)]

ghost use Rattle.std.specs.Prelude.{◌≡◌, ℕ, ◌+◌, ◌<◌, ◌≤◌, length, take, drop, IfOk, IfSome, OnErr};
ghost use Rattle.std.specs.Io.KnownBytes.{Consumes, IsAtEnd, ReadConsumes};
ghost use Rattle.meaning.specs.Findings.{findings};
ghost use Rattle.room.specs.Writing.{Wrote};

use anyhow::Context;
use std::io;
use std::io::Read;

// One read into the buffer, from a place on; no octets at the end of the input. What stands before the place is kept.
fn more<R: Read>(input: &mut R, buf: &mut [u8], from: usize) -> io::Result<usize>
    requires { from ≤ length buf.old }
    ensures in_bounds { IfOk result (λ n. from + n ≤ length buf.old) }
    ensures kept { take from buf.new ≡ take from buf.old }
    ensures octets { ReadConsumes (R.remaining input.old) (R.remaining input.new) result (drop from buf.new) }
{
    input.read(&mut buf[from..])
}

// Reads until the buffer is full, the input ends or a read fails: a pipe gives its octets in parts. Where a read fails,
// what came before stands in the buffer.
fn fill<R: Read>(input: &mut R, buf: &mut [u8]) -> io::Result<usize>
    ensures in_bounds { IfOk result (λ n. n ≤ length buf.new) }
    ensures octets { IfOk result (λ n. Consumes (R.remaining input.old) (R.remaining input.new) (take n buf.new)) }
    ensures end { IfOk result (λ n. n < length buf.new → IsAtEnd (R.remaining input.new)) }
    ensures failed { OnErr result ((n : ℕ) × (n ≤ length buf.new)
        × Consumes (R.remaining input.old) (R.remaining input.new) (take n buf.new)) }
{
    let mut n: usize = 0;
    // Stays: no plainer, because a read says how far it came, and the library's read_to_end needs the heap.
    while n < buf.len() {
        let k = more(input, buf, n)?;
        if k == 0 {
            break;
        }
        n += k;
    }
    Ok(n)
}

// The findings of an input, in front of a room for their text: of the whole input, from its first 4,096 octets. The
// room stays as it is where a read fails.
fn answer<R: Read>(input: &mut R, text: &mut [u8]) -> io::Result<usize>
    requires { 32_768 ≤ length text.old }
    ensures in_bounds { IfOk result (λ k. k ≤ length text.new) }
    ensures text { IfOk result (λ k. IfSome (R.remaining input.old)
        (λ octets. Wrote (findings octets) k text.old text.new)) }
    ensures failed { OnErr result (text.new ≡ text.old) }
{
    let mut taken = [0u8; 4_096];
    let n = fill(input, &mut taken)?;
    Ok(report::answer(&taken[..n], text))
}

fn main(rt: HostRuntime) -> anyhow::Result<()> {
    let mut text = report::room();
    let k = answer(&mut rt.stdin(), &mut text).context("findings: standard input")?;
    rt.write_all(&text[..k])
        .context("findings: standard output")
}
