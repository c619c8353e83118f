// One field of a plan's bytes, read at a place (document 01, "The reader walks the plan one field at a time").
#![tactic(auto)]

ghost use Rattle.std.specs.Prelude.{◌≡◌, ◌+◌, ◌≤◌, length, drop, OnOk};
ghost use Rattle.meaning.specs.Bytes.{number_at, front};
ghost use Rattle.fields.specs.Reading.{field_at, value_at};

use meaning::{Port, Refusal, Slot, Stream};

// A field of the plan.
#[derive(Clone, Copy)]
pub enum Field {
    Port(Port),
    Slot(Slot),
    Stream(Stream),
}

// The number in N octets at a place, the highest first.
fn number<const N: usize>(plan: &[u8], at: usize) -> u32
    requires { (N ≤ 4) × (at + N ≤ length plan.now) }
    ensures { result ≡ number_at at N plan.now }
{
    let mut n: u32 = 0;
    for octet in &plan[at..at + N] {
        n = n * 256 + u32::from(*octet);
    }
    n
}

// Whether the field at a place has this length, and its value is whole.
fn value_at(plan: &[u8], at: usize, octets: u32) -> Result<(), Refusal>
    requires { at + 3 ≤ length plan.now }
    ensures is { result ≡ value_at octets (drop at plan.now) }
    ensures whole { OnOk result (at + 3 + octets ≤ length plan.now) }
{
    if number::<2>(plan, at + 1) != octets {
        return Err(Refusal::WrongLength);
    }
    if plan.len() - at < 3 + octets as usize {
        return Err(Refusal::CutShort);
    }
    Ok(())
}

// The PORT field at a place.
fn port_at(plan: &[u8], at: usize) -> Result<Field, Refusal>
    requires { (at + 3 ≤ length plan.now) × (number_at at 1 plan.now ≡ 1) }
    ensures { result ≡ field_at (front (drop at plan.now)) }
{
    value_at(plan, at, 13)?;
    let value = at + 3;
    Ok(Field::Port(Port {
        rate: number::<1>(plan, value),
        cycle: number::<4>(plan, value + 1),
        guard: number::<4>(plan, value + 5),
        header: number::<4>(plan, value + 9),
    }))
}

// The SLOT field at a place.
fn slot_at(plan: &[u8], at: usize) -> Result<Field, Refusal>
    requires { (at + 3 ≤ length plan.now) × (number_at at 1 plan.now ≡ 2) }
    ensures { result ≡ field_at (front (drop at plan.now)) }
{
    value_at(plan, at, 8)?;
    let value = at + 3;
    Ok(Field::Slot(Slot {
        start: number::<4>(plan, value),
        end: number::<4>(plan, value + 4),
    }))
}

// The STREAM field at a place.
fn stream_at(plan: &[u8], at: usize) -> Result<Field, Refusal>
    requires { (at + 3 ≤ length plan.now) × (number_at at 1 plan.now ≡ 3) }
    ensures { result ≡ field_at (front (drop at plan.now)) }
{
    value_at(plan, at, 17)?;
    let value = at + 3;
    Ok(Field::Stream(Stream {
        id: number::<2>(plan, value),
        priority: number::<1>(plan, value + 2),
        octets: number::<2>(plan, value + 3),
        period: number::<4>(plan, value + 5),
        jitter: number::<4>(plan, value + 9),
        deadline: number::<4>(plan, value + 13),
    }))
}

// The field at a place, by its tag: fewer than three octets are cut short, an unlisted tag is unknown.
// Stays: a form that document 01 names (docs/DECISIONS.md): a match on the tag, others refused by name.
pub fn field_at(plan: &[u8], at: usize) -> Result<Field, Refusal>
    requires { at ≤ length plan.now }
    ensures { result ≡ field_at (front (drop at plan.now)) }
{
    if plan.len() - at < 3 {
        return Err(Refusal::CutShort);
    }
    match number::<1>(plan, at) {
        1 => port_at(plan, at),
        2 => slot_at(plan, at),
        3 => stream_at(plan, at),
        _ => Err(Refusal::UnknownTag),
    }
}

// A reader of a plan: the lent octets, and the place it has come to.
#[derive(Clone, Copy)]
pub struct Reader<'a> {
    pub plan: &'a [u8],
    pub at: usize,
}

impl<'a> Reader<'a> {
    // A reader at the plan's first octet.
    pub fn new(plan: &'a [u8]) -> Reader<'a>
        ensures { (result.plan ≡ plan.entry) × (result.at ≡ 0) }
    {
        Reader { plan, at: 0 }
    }

    // The reader at another place of its plan.
    pub fn moved(self, at: usize) -> Reader<'a>
        ensures { (result.plan ≡ self.entry.plan) × (result.at ≡ at) }
    {
        Reader { at, ..self }
    }

    // The field at the reader's place: the reader is taken apart.
    pub fn next(self) -> Result<Field, Refusal>
        requires { self.at ≤ length self.plan.now }
        ensures { result ≡ field_at (front (drop self.entry.at self.entry.plan.now)) }
    {
        let Reader { plan, at } = self;
        field_at(plan, at)
    }
}

// One step of a walk through the plan: the field at a place, by a reader that is moved there.
pub fn step(plan: &[u8], at: usize) -> Result<Field, Refusal>
    requires { at ≤ length plan.now }
    ensures { result ≡ field_at (front (drop at plan.now)) }
{
    Reader::new(plan).moved(at).next()
}
