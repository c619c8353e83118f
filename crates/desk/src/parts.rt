// The parts of an edit: what the desk holds, its stairs kept or built, and the answer.
ghost use Rattle.std.specs.Prelude.{◌≡◌, true, Ok};
ghost use Rattle.entries.specs.Entries.{held_in, FitEntries};
ghost use Rattle.desk.specs.Desks.{desk_of, Fit, far_in, tot_in};
ghost use Rattle.desk.specs.Edits.{entries_in, with_entries, answered};

use crate::{Desk, Reply};
use entries::Entries;
use meaning::Refusal;
use table::Stairs;

// What the desk holds, without its stairs.
// Stays: field by field, since the C interface has the desk flat.
pub fn entries_of(d: &Desk) -> Entries
    ensures { result ≡ entries_in d.now }
{
    let slots = d.slots;
    let streams = d.streams;
    Entries {
        opened: d.opened,
        rate: d.rate,
        cycle: d.cycle,
        guard: d.guard,
        header: d.header,
        nslots: d.nslots,
        slots,
        nstreams: d.nstreams,
        streams,
    }
}

// The stairs that an open desk stores, lent.
pub fn stairs_of(d: &Desk) -> Stairs<'_>
    requires { Fit d.now × (d.now.opened ≡ true) }
    ensures { (result.cycle ≡ d.now.cycle) × (result.far.now ≡ far_in d.now) × (result.tot.now ≡ tot_in d.now) }
{
    Stairs {
        cycle: d.cycle,
        far: &d.far[..d.nstairs],
        tot: &d.tot[..d.nstairs],
    }
}

// The desk with these entries and the stairs that it has: for an edit that leaves the stairs as they are.
fn with_entries(d: Desk, e: Entries) -> Desk
    ensures { result ≡ with_entries d e }
{
    let slots = e.slots;
    let streams = e.streams;
    let mut made = d;
    made.opened = e.opened;
    made.rate = e.rate;
    made.cycle = e.cycle;
    made.guard = e.guard;
    made.header = e.header;
    made.nslots = e.nslots;
    made.slots = slots;
    made.nstreams = e.nstreams;
    made.streams = streams;
    made
}

// The desk of these entries, with the stairs of their gate numbers and slots.
pub fn with_stairs(e: Entries) -> Desk
    requires { FitEntries e × (e.opened ≡ true) }
    ensures { (result ≡ desk_of (held_in e)) × Fit result }
{
    let held = e.chain();
    let found = held.find_runs();
    let t = stairs::build(held.gate.cycle, found.runs());
    let slots = e.slots;
    let streams = e.streams;
    let far = t.far;
    let tot = t.tot;
    Desk {
        opened: e.opened,
        rate: e.rate,
        cycle: e.cycle,
        guard: e.guard,
        header: e.header,
        nslots: e.nslots,
        slots,
        nstreams: e.nstreams,
        streams,
        nstairs: t.n,
        far,
        tot,
    }
}

// What the desk answers to an edit of its entries that leaves the stairs as they are.
#[tactic(auto, unfolding(crate::specs::Edits::answered))]
pub fn keep_stairs(d: Desk, made: Entries, answer: Result<(), Refusal>) -> Reply<()>
    ensures { result ≡ answered d (with_entries d made) answer }
{
    match answer {
        Ok(_) => Reply {
            answer,
            desk: with_entries(d, made),
        },
        Err(_) => Reply { answer, desk: d },
    }
}

// What the desk answers to an edit of its entries behind which the stairs are built.
#[tactic(auto, unfolding(crate::specs::Edits::answered))]
pub fn build_stairs(d: Desk, made: Entries, answer: Result<(), Refusal>) -> Reply<()>
    requires { FitEntries made × (answer ≡ Ok tt → made.opened ≡ true) }
    ensures { result ≡ answered d (desk_of (held_in made)) answer }
{
    let desk = match answer {
        Ok(_) => with_stairs(made),
        Err(_) => d,
    };
    Reply { answer, desk }
}
