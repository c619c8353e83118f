// The way to the busy window, by products in place of divisions: what is asked for at least, and how far that reaches.
ghost use Rattle.std.specs.Prelude.{◌*◌, ◌≤◌, length};
ghost use Rattle.arrivals.specs.Rows.{row_load, RowIn, Inverses};
ghost use Rattle.search.specs.Searches.{busy, Hastened};

use crate::{Demand, HORIZON, Own};
use arrivals::{Rows, frames_at_least, frames_wire, inverse};

// The inverse of each period.
fn inverses(per: &[u32]) -> [u32; 64]
    requires { (length per.now ≤ 64) × RowIn 10_000 100_000_000 per.now (length per.now) }
    ensures { Inverses result per.now (length per.now) }
{
    let mut row = [0; 64];
    for (i, period) in per.iter().enumerate() {
        row[i] = inverse(*period);
    }
    row
}

// The wire time that all streams have in x at least.
fn load_at_least(rows: &Rows, inv: &[u32; 64], x: u32) -> u64
    requires { Inverses inv.now rows.now.per rows.now.n × (x ≤ 100_000_000) }
    ensures { (result ≤ row_load rows.now.per rows.now.jit rows.now.cost rows.now.n x)
        × (result ≤ rows.now.n * 60_000_000_000) }
{
    let mut load = 0;
    for (i, jitter) in rows.jit[..rows.n].iter().enumerate() {
        load += frames_wire(frames_at_least(x, *jitter, inv[i]), rows.cost[i]);
    }
    load
}

impl Demand<'_> {
    // A number up to the horizon that no busy window of own is shorter than: from 0 on, by what is asked for at least.
    // Mostly it is the window, or just below. None where that passes the horizon, and so there is no window.
    pub fn hasten(&self, own: &Own) -> Option<u32>
        ensures { Hastened (busy self.now.stairs self.now.rows.now own.now) result }
    {
        let inv = inverses(&self.rows.per[..self.rows.n]);
        let mut w = 0;
        loop {
            let need = own.load(w)
                + load_at_least(self.rows, &inv, w)
                + self.stairs.interference(w);
            if need <= u64::from(w) {
                return Some(w);
            }
            if HORIZON < need {
                return None;
            }
            w = need as u32;
        }
    }
}
