// The least number that closes, by iteration from below: the wait of a frame, and the busy window.
#![tactic(auto)]

ghost use Rattle.std.specs.Prelude.{◌≡◌, ◌≤◌};
ghost use Rattle.laws.specs.Numbers.{Least};
ghost use Rattle.laws.proofs.Leasts.{Under};
ghost use Rattle.arrivals.specs.Counted.{Counted};
ghost use Rattle.search.specs.Searches.{demand, busy, Settled, Closes};

mod demand;
mod hasten;
mod own;

use arrivals::Counts;
pub use demand::Demand;
pub use own::Own;

// The horizon, in ns.
pub const HORIZON: u64 = 100_000_000;

impl Demand<'_> {
    // One try: brings the counts up to w, and answers the sum of base, the load in w, and the interference of w and
    // off.
    pub fn attempt(&self, base: u64, off: u32, w: u32, seen: &mut Counts) -> u64
        requires { Counted self.now.rows.now seen.old w
            × (w ≤ 100_000_000) × (base ≤ 1_000_000_000_000) × (off ≤ 2_000_000) }
        ensures { Counted self.now.rows.now seen.new w
            × (result ≡ demand self.now.stairs self.now.rows.now base off w) }
    {
        seen.advance(self.rows, w);
        base + seen.load + self.stairs.interference(w + off)
    }

    // The wait of a frame: the least w, from `from` on, that covers base, the load in w, and the interference of w and
    // off. There is one up to the horizon.
    pub fn settle(&self, base: u64, off: u32, from: u32, seen: &mut Counts) -> u32
        requires { Counted self.now.rows.now seen.old from
            × (base ≤ 1_000_000_000_000) × (off ≤ 2_000_000)
            × Under (demand self.now.stairs self.now.rows.now base off) from
            × Closes (demand self.now.stairs self.now.rows.now base off) }
        ensures { Counted self.now.rows.now seen.new result × (result ≤ 100_000_000)
            × Least (demand self.now.stairs self.now.rows.now base off) result }
    {
        let mut w = from;
        loop {
            let need = self.attempt(base, off, w, seen);
            if need <= u64::from(w) {
                return w;
            }
            w = need as u32;
        }
    }

    // The busy window of own beside the streams of the rows: the least x up to the horizon that covers L, all their
    // frames in x, and the interference of x. None where there is no such x.
    pub fn window(&self, own: &Own) -> Option<u32>
        ensures { Settled (busy self.now.stairs self.now.rows.now own.now) result }
    {
        let mut w = self.hasten(own)?;
        let mut seen = self.rows.counted(w);
        loop {
            let need = self.attempt(own.load(w), 0, w, &mut seen);
            if need <= u64::from(w) {
                return Some(w);
            }
            if HORIZON < need {
                return None;
            }
            w = need as u32;
        }
    }
}
