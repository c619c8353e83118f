// Adding and removing slots (document 01, "Adding a slot: 4, 5, 7, 6, 10", "Removing: 4, 9").
ghost use Rattle.std.specs.Prelude.{◌≡◌};
ghost use Rattle.meaning.specs.Desks.{edited};
ghost use Rattle.meaning.specs.Calls.{add_slot, remove_slot};
ghost use Rattle.ranges.specs.Numbers.{slot_of};
ghost use Rattle.desk.specs.Desks.{held, Fit, edit_reply};

use crate::parts::{build_stairs, entries_of};
use crate::{Desk, Reply};

// The desk with one slot more.
pub fn add_slot(d: Desk, start: u64, end: u64) -> Reply<()>
    requires { Fit d }
    ensures { (result ≡ edit_reply (edited (held d) (add_slot (slot_of start end) (held d)))) × Fit result.desk }
{
    let mut more = entries_of(&d);
    let answer = more.hold_slot(start, end);
    build_stairs(d, more, answer)
}

// The desk without the slot that has this start.
pub fn remove_slot(d: Desk, start: u64) -> Reply<()>
    requires { Fit d }
    ensures { (result ≡ edit_reply (edited (held d) (remove_slot start (held d)))) × Fit result.desk }
{
    let mut fewer = entries_of(&d);
    let answer = fewer.drop_slot(start);
    build_stairs(d, fewer, answer)
}
