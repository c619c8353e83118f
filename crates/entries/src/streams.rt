// A stream more or less (document 01, "Adding a stream: 4, 5, 7, 8", "Removing: 4, 9").
ghost use Rattle.std.specs.Prelude.{◌≡◌, true};
ghost use Rattle.meaning.specs.Ranges.{octet_limit, stream_ranges, in_range};
ghost use Rattle.meaning.specs.Calls.{add_stream, remove_stream};
ghost use Rattle.ranges.specs.Numbers.{stream_of};
ghost use Rattle.entries.specs.Entries.{held_in, port_in, FitEntries, Edits};

use crate::Entries;
use meaning::{Refusal, Stream};
use ranges::StreamNumbers;

impl Entries {
    // The stream j, which is in range, held beside the others where it finds room.
    fn place_stream(&mut self, j: Stream) -> Result<(), Refusal>
        requires { FitEntries self.old × (self.old.opened ≡ true)
            × (in_range (stream_ranges (octet_limit (port_in self.old)) j) ≡ true) }
        ensures { Edits self.old (add_stream j (held_in self.old)) result self.new }
    {
        let n = self.nstreams;
        if 64 <= n {
            return Err(Refusal::Full);
        }
        if rows::place(self.held_streams(), j.id.into()).is_some() {
            return Err(Refusal::IdHeld);
        }
        rows::insert(&mut self.streams, n, j);
        self.nstreams = n + 1;
        Ok(())
    }

    // One stream more.
    pub fn hold_stream(&mut self, j: StreamNumbers) -> Result<(), Refusal>
        requires { FitEntries self.old }
        ensures { Edits self.old (add_stream (stream_of j) (held_in self.old)) result self.new }
    {
        self.in_turn()?;
        let j = ranges::stream(self.octet_limit(), j)?;
        self.place_stream(j)
    }

    // The stream that has this id taken out.
    pub fn drop_stream(&mut self, id: u64) -> Result<(), Refusal>
        requires { FitEntries self.old }
        ensures { Edits self.old (remove_stream id (held_in self.old)) result self.new }
    {
        self.in_turn()?;
        let p = rows::place(self.held_streams(), id).ok_or(Refusal::NotHeld)?;
        rows::remove(&mut self.streams, self.nstreams, p);
        self.nstreams -= 1;
        Ok(())
    }
}
