// Nothing entered, and a port opened (document 01, "Opening: 4, 5").
ghost use Rattle.std.specs.Prelude.{◌≡◌};
ghost use Rattle.meaning.specs.Desks.{bare};
ghost use Rattle.meaning.specs.Calls.{open_port};
ghost use Rattle.ranges.specs.Numbers.{port_of};
ghost use Rattle.entries.specs.Entries.{held_in, entries_of, FitEntries, Edits};

use crate::Entries;
use meaning::{Refusal, Slot, Stream};
use ranges::PortNumbers;
use rows::Keyed;

impl Entries {
    // Nothing entered: no port is open, and every place is free.
    pub fn none() -> Entries
        ensures { (result ≡ entries_of bare) × FitEntries result }
    {
        Entries {
            opened: false,
            rate: 0,
            cycle: 0,
            guard: 0,
            header: 0,
            nslots: 0,
            slots: [Slot::free(); 32],
            nstreams: 0,
            streams: [Stream::free(); 64],
        }
    }

    // The port opened; no slot and no stream is held yet.
    pub fn hold_port(&mut self, p: PortNumbers) -> Result<(), Refusal>
        requires { FitEntries self.old }
        ensures { Edits self.old (open_port (port_of p) (held_in self.old)) result self.new }
    {
        if self.opened {
            return Err(Refusal::OutOfTurn);
        }
        let q = ranges::port(p)?;
        self.opened = true;
        self.rate = q.rate;
        self.cycle = q.cycle;
        self.guard = q.guard;
        self.header = q.header;
        Ok(())
    }
}
