// Writing a whole plan (document 01, "Writing: 4, 11."): the room is tested first, then each field fills the front of
// what those before it leave.
#![tactic(auto)]

ghost use Rattle.std.specs.Prelude.{◌≡◌, ◌+◌, ◌*◌, ◌≤◌};
ghost use Rattle.meaning.specs.Desks.{asked};
ghost use Rattle.meaning.specs.Bytes.{write_plan, written, room_after};
ghost use Rattle.desk.specs.Desks.{held, Fit};
ghost use Rattle.writer.specs.Writing.{write_reply, Puts};

use desk::{Desk, Reply};
use meaning::{Port, Refusal, Slot, Stream};
use room::{AsField, put_all};

// How many octets a plan of so many slots and streams takes.
fn octets_for(slots: usize, streams: usize) -> usize
    requires { (slots ≤ 32) × (streams ≤ 64) }
    ensures { result ≡ 16 + 11 * slots + 20 * streams }
{
    Port::OCTETS + Slot::OCTETS * slots + Stream::OCTETS * streams
}

// The plan of a desk at the front of the room, and how many octets it took.
// Stays: its own test for an open port, no plainer through `questions`, which a writer has no other use for.
fn put_plan(d: Desk, out: &mut [u8]) -> Result<usize, Refusal>
    requires { Fit d }
    ensures { Puts (write_plan out.old (held d)) result out.old out.new }
{
    if !d.opened {
        return Err(Refusal::OutOfTurn);
    }
    let all = octets_for(d.nslots, d.nstreams);
    if out.len() < all {
        return Err(Refusal::NoRoom);
    }
    // The rows alone are copied to be lent, behind the refusals: a desk that is lent is copied whole.
    let slot_row = d.slots;
    let slots = &slot_row[..d.nslots];
    let stream_row = d.streams;
    let streams = &stream_row[..d.nstreams];
    let port = Port {
        rate: d.rate,
        cycle: d.cycle,
        guard: d.guard,
        header: d.header,
    };
    let mut at = port.put(out);
    at += put_all(&mut out[at..], slots);
    at += put_all(&mut out[at..], streams);
    Ok(at)
}

// The plan of a desk, written at the front of the caller's room.
pub fn write(d: Desk, out: &mut [u8]) -> Reply<usize>
    requires { Fit d }
    ensures { (result ≡ write_reply (asked (held d) (written (write_plan out.old (held d)))))
        × (out.new ≡ room_after out.old (write_plan out.old (held d)))
        × Fit result.desk }
{
    let answer = put_plan(d, out);
    Reply { answer, desk: d }
}
