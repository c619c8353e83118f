// What each edit asks of the entries: that a port is open, the gate numbers in force, and the octet limit.
ghost use Rattle.std.specs.Prelude.{◌≡◌, ◌≤◌, true, false, MatchResult};
ghost use Rattle.meaning.specs.declared.Refusal.TheVariants.{OutOfTurn};
ghost use Rattle.meaning.specs.Ranges.{octet_limit};
ghost use Rattle.entries.specs.Entries.{port_in, slots_in, streams_in, gate_in, FitEntries};

use crate::Entries;
use gate::Slots;
use meaning::{Gate, Refusal, Slot, Stream};

// The octets of a frame, at most.
const OCTET_LIMIT: u64 = 1_522;

impl Entries {
    // A port must be open.
    pub(crate) fn in_turn(&self) -> Result<(), Refusal>
        ensures { MatchResult result (λ _. self.now.opened ≡ true)
            (λ why. (self.now.opened ≡ false) × (why ≡ OutOfTurn)) }
    {
        if self.opened {
            Ok(())
        } else {
            Err(Refusal::OutOfTurn)
        }
    }

    // The slots held.
    pub fn held_slots(&self) -> &[Slot]
        requires { self.now.nslots ≤ 32 }
        ensures { result.now ≡ slots_in self.now }
    {
        &self.slots[..self.nslots]
    }

    // The streams held.
    pub fn held_streams(&self) -> &[Stream]
        requires { self.now.nstreams ≤ 64 }
        ensures { result.now ≡ streams_in self.now }
    {
        &self.streams[..self.nstreams]
    }

    // The gate numbers in force.
    #[tactic(auto, unfolding(meaning::specs::Runs::gate_of))]
    pub fn gate(&self) -> Gate
        ensures { result ≡ gate_in self.now }
    {
        Gate {
            cycle: self.cycle,
            guard: self.guard,
            header: self.header,
        }
    }

    // The gate numbers in force and the slots held, where a port is open.
    pub fn chain(&self) -> Slots<'_>
        requires { FitEntries self.now × (self.now.opened ≡ true) }
        ensures { (result.gate ≡ gate_in self.now) × (result.slots.now ≡ slots_in self.now) }
    {
        Slots {
            gate: self.gate(),
            slots: self.held_slots(),
        }
    }

    // The octets of a frame, at most, by the port.
    #[tactic(auto, unfolding(meaning::specs::Ranges::octet_limit))]
    pub(crate) fn octet_limit(&self) -> u64
        ensures { result ≡ octet_limit (port_in self.now) }
    {
        OCTET_LIMIT
    }
}
