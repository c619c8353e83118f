// Fields written into a caller's room (document 01, "each field into the rest of the caller's room").
#![tactic(auto)]

ghost use Rattle.std.specs.Prelude.{◌≡◌, ℕ, ◌++◌, map, ◌*◌, ◌≤◌, length};
ghost use Rattle.laws.specs.Lists.{joined};
ghost use Rattle.meaning.specs.Bytes.{octets_of, Field, port_field, slot_field, stream_field};
ghost use Rattle.meaning.specs.Bytes.{field_length, field_octets};
ghost use Rattle.room.specs.Writing.{Wrote, PortFits, StreamFits, AllFit};
ghost use Rattle.room.specs.Lengths.{port_length, slot_length, stream_length};

use meaning::{Port, Slot, Stream};

// What stands in a plan as a field: which one, how many octets it takes, and when its numbers fit them.
pub trait AsField: Copy {
    const OCTETS: usize;

    ghost OCTETS: { ℕ };

    ghost as_field: { Self → Field };

    ghost Fits: { Self → Type 0 };

    // The field at the front of the room: each number fills the front of what is left.
    fn put(self, out: &mut [u8]) -> usize
        requires { (OCTETS ≤ length out.old) × Fits self }
        ensures { Wrote (field_octets (as_field self)) result out.old out.new };

    ghost long: { (x : Self) → field_length (as_field x) ≡ OCTETS };
}

// Octets at the front of the room.
pub fn put(out: &mut [u8], octets: &[u8]) -> usize
    requires { length octets.now ≤ length out.old }
    ensures { Wrote octets.now result out.old out.new }
{
    out[..octets.len()].copy_from_slice(octets);
    octets.len()
}

// The tag and the length of a field at the front of the room.
fn put_tag(out: &mut [u8], tag: u8, octets: u16) -> usize
    requires { 3 ≤ length out.old }
    ensures { Wrote (octets_of 1 tag ++ octets_of 2 octets) result out.old out.new }
{
    let at = put(out, &tag.to_be_bytes());
    at + put(&mut out[at..], &octets.to_be_bytes())
}

// The short numbers of a stream at the front of the room.
fn put_short(out: &mut [u8], id: u16, priority: u8, octets: u16) -> usize
    requires { 5 ≤ length out.old }
    ensures { Wrote (octets_of 2 id ++ octets_of 1 priority ++ octets_of 2 octets) result out.old out.new }
{
    let mut at = put(out, &id.to_be_bytes());
    at += put(&mut out[at..], &priority.to_be_bytes());
    at + put(&mut out[at..], &octets.to_be_bytes())
}

// Three times at the front of the room, four octets each.
fn put_times(out: &mut [u8], a: u32, b: u32, c: u32) -> usize
    requires { 12 ≤ length out.old }
    ensures { Wrote (octets_of 4 a ++ octets_of 4 b ++ octets_of 4 c) result out.old out.new }
{
    let mut at = put(out, &a.to_be_bytes());
    at += put(&mut out[at..], &b.to_be_bytes());
    at + put(&mut out[at..], &c.to_be_bytes())
}

impl AsField for Port {
    const OCTETS: usize = 16;

    ghost OCTETS = { 16 };

    ghost as_field = { port_field };

    ghost Fits = { PortFits };

    ghost long = { port_length };

    #[tactic(auto, unfolding(meaning::specs::Bytes::octets_of))]
    fn put(self, out: &mut [u8]) -> usize {
        let mut at = put_tag(out, 1, 13);
        at += put(&mut out[at..], &(self.rate as u8).to_be_bytes());
        at + put_times(&mut out[at..], self.cycle, self.guard, self.header)
    }
}

impl AsField for Slot {
    const OCTETS: usize = 11;

    ghost OCTETS = { 11 };

    ghost as_field = { slot_field };

    ghost Fits = { λ _. Unit {0} };

    ghost long = { slot_length };

    #[tactic(auto, unfolding(meaning::specs::Bytes::octets_of))]
    fn put(self, out: &mut [u8]) -> usize {
        let mut at = put_tag(out, 2, 8);
        at += put(&mut out[at..], &self.start.to_be_bytes());
        at + put(&mut out[at..], &self.end.to_be_bytes())
    }
}

impl AsField for Stream {
    const OCTETS: usize = 20;

    ghost OCTETS = { 20 };

    ghost as_field = { stream_field };

    ghost Fits = { StreamFits };

    ghost long = { stream_length };

    #[tactic(auto, unfolding(meaning::specs::Bytes::octets_of))]
    fn put(self, out: &mut [u8]) -> usize {
        let mut at = put_tag(out, 3, 17);
        at += put_short(
            &mut out[at..],
            self.id as u16,
            self.priority as u8,
            self.octets as u16,
        );
        at + put_times(&mut out[at..], self.period, self.jitter, self.deadline)
    }
}

// The fields of some slots, or some streams, each into the rest of the room.
pub fn put_all<T: AsField>(out: &mut [u8], items: &[T]) -> usize
    requires room { T.OCTETS * length items.now ≤ length out.old }
    requires fit { AllFit T.Fits items.now }
    ensures { Wrote (joined field_octets (map T.as_field items.now)) result out.old out.new }
{
    let mut at: usize = 0;
    for x in items {
        at += x.put(&mut out[at..]);
    }
    at
}
