// Reading a whole plan (document 01, "The reader walks the plan one field at a time and makes the edit each field
// names").
#![tactic(auto)]

ghost use Rattle.std.specs.Prelude.{◌≡◌, true, ◌≤◌, ◌<◌, length, drop, IfOk, IfErr, OnOk};
ghost use Rattle.meaning.specs.Desks.{bare};
ghost use Rattle.meaning.specs.Bytes.{edit, going, step, read, read_plan};
ghost use Rattle.entries.specs.Entries.{held_in, FitEntries, Edits};
ghost use Rattle.desk.specs.Desks.{Fit};
ghost use Rattle.fields.specs.Reading.{as_told};
ghost use Rattle.reader.specs.Reading.{octets_at, at_place, Walks, read_answer, read_reply};

use desk::Desk;
use entries::Entries;
use fields::Field;
use meaning::Refusal;
use ranges::{PortNumbers, StreamNumbers};

// Why a plan is refused, and the place of the field's first octet.
#[derive(Clone, Copy)]
pub struct RefusedAt {
    pub why: Refusal,
    pub place: usize,
}

// What reading a plan answers, and its desk: the bare one on a refusal.
#[derive(Clone, Copy)]
pub struct ReadReply {
    pub answer: Result<(), RefusedAt>,
    pub desk: Desk,
}

// The octets of a field, its tag and length included.
#[tactic(auto, unfolding(crate::specs::Reading::octets_at))]
fn octets_at(f: Field) -> usize
    ensures { result ≡ octets_at f }
{
    match f {
        Field::Port(_) => 16,
        Field::Slot(_) => 11,
        Field::Stream(_) => 20,
    }
}

// The edit that a field names.
#[tactic(auto, unfolding(meaning::specs::Bytes::edit))]
fn edit(e: &mut Entries, f: Field) -> Result<(), Refusal>
    requires { FitEntries e.old }
    ensures { Edits e.old (edit (as_told f) (held_in e.old)) result e.new }
{
    match f {
        Field::Port(p) => e.hold_port(PortNumbers::from(p)),
        Field::Slot(s) => e.hold_slot(s.start.into(), s.end.into()),
        Field::Stream(j) => e.hold_stream(StreamNumbers::from(j)),
    }
}

// The field at the place read and its edit made: the place behind it.
fn edit_at(plan: &[u8], at: usize, e: &mut Entries) -> Result<usize, Refusal>
    requires { (at < length plan.now) × FitEntries e.old }
    ensures { Walks (held_in e.old) (step (going at (drop at plan.now) (held_in e.old))) (at_place at result) e.new
        × IfOk result (λ on. on ≤ length plan.now) }
{
    let f = fields::step(plan, at)?;
    edit(e, f)?;
    Ok(at + octets_at(f))
}

// One step of the walk, from any place and entries: a refused field leaves the entries as they were.
pub fn walk_on(plan: &[u8], at: usize, e: &mut Entries) -> Result<usize, RefusedAt>
    requires { (at < length plan.now) × FitEntries e.old }
    ensures { Walks (held_in e.old) (step (going at (drop at plan.now) (held_in e.old))) result e.new
        × IfOk result (λ on. on ≤ length plan.now) × IfErr result (λ x. x.place ≤ length plan.now) }
{
    match edit_at(plan, at, e) {
        Ok(on) => Ok(on),
        Err(why) => Err(RefusedAt { why, place: at }),
    }
}

// The edits of a whole plan, made on what holds nothing yet. Without a field the plan is refused.
fn walk(plan: &[u8], e: &mut Entries) -> Result<(), RefusedAt>
    requires { FitEntries e.old × (held_in e.old ≡ bare) }
    ensures { (result ≡ read_answer (read_plan plan.now))
        × OnOk result ((e.new.opened ≡ true) × (read_plan plan.now ≡ read (held_in e.new)))
        × FitEntries e.new }
{
    let mut at: usize = 0;
    while at < plan.len() {
        at = walk_on(plan, at, e)?;
    }
    if !e.opened {
        return Err(RefusedAt {
            why: Refusal::OutOfTurn,
            place: 0,
        });
    }
    Ok(())
}

// The desk of a plan, its stairs built once, for the slots then held; or the refusal, the place of the field that is
// refused, and the bare desk.
pub fn read(plan: &[u8]) -> ReadReply
    ensures { (result ≡ read_reply (read_plan plan.now)) × Fit result.desk }
{
    let mut e = Entries::none();
    match walk(plan, &mut e) {
        Ok(_) => ReadReply {
            answer: Ok(()),
            desk: desk::with_stairs(e),
        },
        Err(refused) => ReadReply {
            answer: Err(refused),
            desk: desk::bare(),
        },
    }
}
