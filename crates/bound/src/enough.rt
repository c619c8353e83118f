// How many frames of a busy window need computing.
ghost use Rattle.std.specs.Prelude.{◌≤◌, replicate};
ghost use Rattle.search.specs.Searches.{table_of, asked_of};
ghost use Rattle.bound.specs.Answers.{EnoughOf};

use arrivals::{Rows, frames_in, frames_wire};
use search::{Demand, HORIZON, Own};

// How many frames are enough, of all that the busy window has from the last that can come at 0 on. Where the window
// beside the rows of calm and without streams of lower priority closes soon, as many as come later in that, and one;
// else all. The search for it ends after an eighth as many tries as there are frames: further on it would cost more
// than it saves.
pub fn enough(calm: &Demand, own: &Own, all: u32) -> u32
    ensures { EnoughOf (table_of calm.now.stairs) calm.now.rows.now.per calm.now.rows.now.jit calm.now.rows.now.cost
        calm.now.rows.now.n (asked_of own.now) all result × (result ≤ all) }
{
    let mut w = 0;
    let mut seen = calm.rows.counted(w);
    for _ in 0..all / 8 {
        let k = frames_in(w, own.period, 0);
        if all <= k + 1 {
            return all;
        }
        let need = calm.attempt(frames_wire(k, own.wire), 0, w, &mut seen);
        if need <= u64::from(w) {
            return k + 1;
        }
        if HORIZON < need {
            return all;
        }
        w = need as u32;
    }
    all
}

// The same beside the rows of demand without their jitter.
pub fn enough_calm(demand: &Demand, own: &Own, all: u32) -> u32
    ensures { EnoughOf (table_of demand.now.stairs) demand.now.rows.now.per (replicate 64 0) demand.now.rows.now.cost
        demand.now.rows.now.n (asked_of own.now) all result × (result ≤ all) }
{
    let jit = [0; 64];
    let rows = Rows {
        n: demand.rows.n,
        per: demand.rows.per,
        jit,
        cost: demand.rows.cost,
    };
    let calm = Demand {
        rows: &rows,
        stairs: demand.stairs,
    };
    enough(&calm, own, all)
}
