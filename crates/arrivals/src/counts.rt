// Frames counted one by one: the next instant of each stream, and the wire time of those counted so far.
ghost use Rattle.std.specs.Prelude.{◌≡◌, ◌≤◌, ◌<◌};
ghost use Rattle.arrivals.specs.Rows.{gained};
ghost use Rattle.arrivals.specs.Counted.{Counted};

use crate::{Rows, frames_in, frames_wire, next_after, step};

// When the next frame of each stream can come, the wire time of the frames counted, and the least next instant: with no
// stream, the largest number. The shortest period tells which way to go on counting is the cheaper one, and nothing
// more.
// Stays: no plainer with `Counted` inside, which speaks of the rows and of an instant that no field has; and the
// largest number is the least of no instants, where an Option would be told apart at each comparison.
#[derive(Clone, Copy)]
pub struct Counts {
    pub next: [u32; 64],
    pub load: u64,
    pub least: u32,
    pub shortest: u32,
}

// A wire time, where the frame at a has come by x; else 0.
fn gain(x: u32, a: u32, cost: u32) -> u32
    ensures { (result ≡ gained x a cost) × (result ≤ cost) }
{
    if a <= x { cost } else { 0 }
}

impl Rows {
    // The frames counted at x, from the start.
    pub fn counted(&self, x: u32) -> Counts
        requires { x ≤ 100_000_000 }
        ensures { Counted self.now result x × (x < result.least) }
    {
        let mut seen = Counts {
            next: [0; 64],
            load: 0,
            least: u32::MAX,
            shortest: u32::MAX,
        };
        seen.count(self, x);
        seen
    }
}

impl Counts {
    // All frames that can come by x, whatever was counted before.
    fn count(&mut self, rows: &Rows, x: u32)
        requires { x ≤ 100_000_000 }
        ensures { Counted rows.now self.new x × (x < self.new.least) }
    {
        let mut load = 0;
        let mut least = u32::MAX;
        let mut shortest = u32::MAX;
        for (i, next) in self.next[..rows.n].iter_mut().enumerate() {
            let period = rows.per[i];
            let jitter = rows.jit[i];
            load += frames_wire(frames_in(x, period, jitter), rows.cost[i]);
            *next = next_after(x, period, jitter);
            least = least.min(*next);
            shortest = shortest.min(period);
        }
        self.load = load;
        self.least = least;
        self.shortest = shortest;
    }

    // One pass: each stream whose next frame has come by x has one more counted.
    fn pass(&mut self, rows: &Rows, x: u32)
        requires { (x ≤ 100_000_000) × Counted rows.now self.old x × (self.old.least ≤ x) }
        ensures { Counted rows.now self.new x × (self.old.least < self.new.least) }
    {
        let mut load = 0;
        let mut least = u32::MAX;
        for (i, next) in self.next[..rows.n].iter_mut().enumerate() {
            load += gain(x, *next, rows.cost[i]);
            *next = step(x, *next, rows.per[i]);
            least = least.min(*next);
        }
        self.load += u64::from(load);
        self.least = least;
    }

    // The frames counted so far brought up to x: by passes until no next instant has come, or, where x is further on
    // than a few periods, from the start.
    pub fn advance(&mut self, rows: &Rows, x: u32)
        requires { (x ≤ 100_000_000) × Counted rows.now self.old x }
        ensures { Counted rows.now self.new x × (x < self.new.least) }
    {
        if self.least <= x && self.shortest <= (x - self.least) / 4 {
            self.count(rows, x);
            return;
        }
        while self.least <= x {
            self.pass(rows, x);
        }
    }
}
