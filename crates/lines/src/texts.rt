// Words and numbers as text, each at the front of a room.
ghost use Rattle.std.specs.Prelude.{◌≡◌, ◌++◌, ◌+◌, ◌≤◌, length};
ghost use Rattle.meaning.specs.Findings.{decimal};
ghost use Rattle.room.specs.Writing.{Wrote};

use room::put;

// How many digits a number has: 0 has one too.
fn places(n: u64) -> usize
    ensures { result ≡ length (decimal n) }
{
    n.max(1).ilog10() as usize + 1
}

// The digits of a number at the front of the room: the last one first, from behind.
// Stays: no plainer, because write! answers by its type that a room may be too short, which a requires rules out here.
pub fn put_decimal(out: &mut [u8], n: u64) -> usize
    requires { length (decimal n) ≤ length out.old }
    ensures { Wrote (decimal n) result out.old out.new }
{
    let k = places(n);
    let mut rest = n;
    for i in (0..k).rev() {
        out[i] = b'0' + (rest % 10) as u8;
        rest /= 10;
    }
    k
}

// A word and a number behind it.
#[tactic(auto, using(room::proofs::Rooms::wrote_next))]
pub fn put_told(out: &mut [u8], word: &[u8], n: u64) -> usize
    requires { length word.now + length (decimal n) ≤ length out.old }
    ensures { Wrote (word.now ++ decimal n) result out.old out.new
        × (result ≡ length word.now + length (decimal n)) }
{
    let at = put(out, word);
    at + put_decimal(&mut out[at..], n)
}
