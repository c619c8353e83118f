// Blocked runs (document 01, "Blocked runs"): from gate numbers and slots in a chain, linear in the slots.
#![tactic(auto)]

ghost use Rattle.std.specs.Prelude.{[], ◌≡◌, ◌+◌, ◌≤◌, ◌<◌, length, set, take};
ghost use Rattle.meaning.specs.Runs.{has_free, runs};
ghost use Rattle.meaning.proofs.ChainCells.{reach_of};
ghost use Rattle.gate.specs.Rows.{GateFits, SlotsFit, slots_fit_prop, run_row};
ghost use Rattle.gate.specs.Walks.{hang_ends, run_with, walked, WalkFits};

use meaning::{Gate, Run, Slot};

// A row of runs: the first n places hold them, the others are empty.
// Stays: fixed memory, no heap; and C is promised zeros in the empty places.
#[derive(Clone, Copy)]
pub struct RunRow {
    pub n: usize,
    pub row: [Run; 32],
}

impl RunRow {
    // No run yet.
    pub fn none() -> RunRow
        ensures { result ≡ run_row [] }
    {
        RunRow {
            n: 0,
            row: [Run::default(); 32],
        }
    }

    // The runs that it holds.
    pub fn runs(&self) -> &[Run]
        requires { self.now.n ≤ 32 }
        ensures { result.now ≡ take self.now.n self.now.row }
    {
        &self.row[..self.n]
    }

    // One run more, behind the others.
    fn push(&mut self, r: Run)
        requires { self.old.n < 32 }
        ensures { self.new ≡ record { n = self.old.n + 1; row = set self.old.row self.old.n r } }
    {
        self.row[self.n] = r;
        self.n += 1;
    }
}

// The run that starts with slot s, where the gap before s is over guard + header. The slots that hang together with s
// stop at e before the cycle's end; if the first slot hangs on there, one cycle on, its own follow, which stop at far.
#[tactic(auto, unfolding(crate::specs::Walks::run_with))]
fn run_with(g: Gate, first: u32, far: u32, s: Slot, e: u32) -> Run
    requires { GateFits g × (first ≤ g.cycle) × (far ≤ g.cycle) × (e ≤ g.cycle) × (s.start ≤ e)
        × (g.guard ≤ s.start + g.cycle) }
    ensures { result ≡ run_with g first far s e }
{
    let reach = g.guard + g.header;
    let start = if s.start < g.guard {
        s.start + g.cycle - g.guard
    } else {
        s.start - g.guard
    };
    let stop = if first + g.cycle <= e + reach {
        far + g.cycle
    } else {
        e
    };
    Run {
        start,
        len: stop + reach - s.start,
    }
}

// The runs that start with these slots, which stop at these ends; the slot before them ends at before, one cycle on.
// The first of all slots starts at first, and those that hang together with it stop at far.
fn runs_from(g: Gate, first: u32, far: u32, slots: &[Slot], ends: &[u32], before: u32) -> RunRow
    requires { WalkFits g first far before slots.now ends.now }
    ensures { result ≡ run_row (walked g first far before slots.now) }
{
    let reach = g.guard + g.header;
    let mut found = RunRow::none();
    let mut end = before;
    for (s, e) in slots.iter().zip(ends) {
        if end + reach < s.start + g.cycle {
            found.push(run_with(g, first, far, *s, *e));
        }
        end = s.end + g.cycle;
    }
    found
}

// The gate numbers in force, and the slots held: by rising start, none over another, none past the cycle's end.
#[derive(Clone, Copy)]
pub struct Slots<'a> {
    pub gate: Gate,
    pub slots: &'a [Slot],
    pub ghost fits: { SlotsFit gate slots.now } by { slots_fit_prop gate slots.now },
}

impl<'a> Slots<'a> {
    // Whether some cell is free: there is no slot, or some gap is over guard + header, the one around the cycle's end
    // among them. The slot before the first is the last one; the slot before any other ends at before, one cycle on.
    pub fn some_free(&self) -> bool
        ensures { result ≡ has_free self.now.gate self.now.slots.now }
    {
        let Some(last) = self.slots.last() else {
            return true;
        };
        let g = self.gate;
        let reach = g.guard + g.header;
        let mut before = last.end;
        for s in self.slots {
            if before + reach < s.start + g.cycle {
                return true;
            }
            before = s.end + g.cycle;
        }
        false
    }

    // Two slots hang together where the gap between them is at most guard + header: what they block overlaps or
    // touches. Of each slot, the end of the last one that hangs together with it before the cycle's end.
    fn hang_ends(&self) -> [u32; 32]
        ensures { take (length self.now.slots.now) result ≡ hang_ends (reach_of self.now.gate) self.now.slots.now }
    {
        let g = self.gate;
        let reach = g.guard + g.header;
        let mut ends = [0; 32];
        for i in (0..self.slots.len()).rev() {
            let s = self.slots[i];
            ends[i] = match self.slots.get(i + 1) {
                Some(t) if t.start <= s.end + reach => ends[i + 1],
                _ => s.end,
            };
        }
        ends
    }

    // The blocked runs by rising start. The one that crosses the cycle's end is whole, and stands last, also where it
    // starts with the first slot, whose guard then reaches back over the cycle's end.
    pub fn find_runs(&self) -> RunRow
        ensures { result ≡ run_row (runs self.now.gate self.now.slots.now) }
    {
        let (Some(first), Some(last)) = (self.slots.first(), self.slots.last()) else {
            return RunRow::none();
        };
        let g = self.gate;
        let reach = g.guard + g.header;
        let ends = self.hang_ends();
        let ends = &ends[..self.slots.len()];
        let far = ends[0];
        if g.guard <= first.start {
            return runs_from(g, first.start, far, self.slots, ends, last.end);
        }
        let mut found = runs_from(
            g,
            first.start,
            far,
            &self.slots[1..],
            &ends[1..],
            first.end + g.cycle,
        );
        if last.end + reach < first.start + g.cycle {
            found.push(run_with(g, first.start, far, *first, far));
        }
        found
    }
}
