// A slot more or less (document 01, "Adding a slot: 4, 5, 7, 6, 10", "Removing: 4, 9").
// Stays: no plainer as one with the edits of streams: each reads other fields of one flat struct, and a slot has
// checks of its own; what they share is in `rows`.
ghost use Rattle.std.specs.Prelude.{◌≡◌, true};
ghost use Rattle.meaning.specs.Ranges.{slot_ranges, in_range};
ghost use Rattle.meaning.specs.Calls.{add_slot, remove_slot};
ghost use Rattle.ranges.specs.Numbers.{slot_of};
ghost use Rattle.entries.specs.Entries.{held_in, FitEntries, Edits};

use crate::Entries;
use gate::Slots;
use meaning::{Refusal, Slot};

impl Entries {
    // The slot s, which is in range, held beside the others where it finds room.
    fn place_slot(&mut self, s: Slot) -> Result<(), Refusal>
        requires { FitEntries self.old × (self.old.opened ≡ true) × (in_range (slot_ranges self.old.cycle s) ≡ true) }
        ensures { Edits self.old (add_slot s (held_in self.old)) result self.new }
    {
        let n = self.nslots;
        if 32 <= n {
            return Err(Refusal::Full);
        }
        if rows::overlaps_any(self.held_slots(), s) {
            return Err(Refusal::Overlap);
        }
        let mut row = self.slots;
        rows::insert(&mut row, n, s);
        let more = Slots {
            gate: self.gate(),
            slots: &row[..n + 1],
        };
        if !more.some_free() {
            return Err(Refusal::NoFreeCell);
        }
        self.slots = row;
        self.nslots = n + 1;
        Ok(())
    }

    // One slot more.
    pub fn hold_slot(&mut self, start: u64, end: u64) -> Result<(), Refusal>
        requires { FitEntries self.old }
        ensures { Edits self.old (add_slot (slot_of start end) (held_in self.old)) result self.new }
    {
        self.in_turn()?;
        let s = ranges::slot(self.cycle, start, end)?;
        self.place_slot(s)
    }

    // The slot that has this start taken out.
    pub fn drop_slot(&mut self, start: u64) -> Result<(), Refusal>
        requires { FitEntries self.old }
        ensures { Edits self.old (remove_slot start (held_in self.old)) result self.new }
    {
        self.in_turn()?;
        let p = rows::place(self.held_slots(), start).ok_or(Refusal::NotHeld)?;
        rows::remove(&mut self.slots, self.nslots, p);
        self.nslots -= 1;
        Ok(())
    }
}
