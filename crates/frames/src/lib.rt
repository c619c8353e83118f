// The frames of a busy window: the largest response of those that are asked about.
#![tactic(auto)]

ghost use Rattle.std.specs.Prelude.{◌≡◌, ◌+◌, ◌-◌, ◌*◌, ◌≤◌};
ghost use Rattle.meaning.specs.Arrivals.{most_in};
ghost use Rattle.search.specs.Searches.{table_of, asked_of, asked_stream};
ghost use Rattle.frames.specs.Windows.{BesideIn, WorstFor};

use arrivals::step;
use search::{Demand, Own};

// What the last frame of own that can come at 0 waits for besides the load of the rows: L, and the frames before it.
fn first_base(own: &Own) -> u32
    requires { own.now.lower + (most_in (asked_stream own.now) 0 - 1) * own.now.wire ≤ 100_000_000 }
    ensures { result ≡ own.now.lower + (most_in (asked_stream own.now) 0 - 1) * own.now.wire }
{
    own.lower + (own.frames_in(0) - 1) * own.wire
}

// The largest response of so many frames of own, from the last that can come at 0 on. The counts go on from frame to
// frame, and the search for the wait of a frame starts where the one before it is sent.
pub fn worst(demand: &Demand, own: &Own, frames: u32) -> u32
    requires { BesideIn (table_of demand.now.stairs) (asked_of own.now) demand.now.rows.now.per
        demand.now.rows.now.jit demand.now.rows.now.cost demand.now.rows.now.n frames }
    ensures { WorstFor (table_of demand.now.stairs) (asked_of own.now) demand.now.rows.now.per
        demand.now.rows.now.jit demand.now.rows.now.cost demand.now.rows.now.n frames result }
{
    let mut come = 0;
    let mut later = own.next_after(0);
    let mut base = first_base(own);
    let mut w = base;
    let mut seen = demand.rows.counted(w);
    let mut best = 0;
    for _ in 0..frames {
        let sent = demand.settle(u64::from(base), own.wire, w, &mut seen) + own.wire;
        best = best.max(sent - come);
        w = sent;
        base += own.wire;
        come = later;
        later = step(later, later, own.period);
    }
    best
}
