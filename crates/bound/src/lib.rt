// The response bound (document 01, "Response bound").
#![tactic(auto)]

ghost use Rattle.std.specs.Prelude.{◌≡◌};
ghost use Rattle.laws.specs.Lists.{without};
ghost use Rattle.meaning.specs.Response.{lower_wire, bound};
ghost use Rattle.search.specs.Searches.{table_of, all_of, asked_of};
ghost use Rattle.bound.specs.Answers.{response_of, Asks, RowsAsk, BoundFor};

mod enough;

use ahead::{unpack, wire_of};
use arrivals::Rows;
use enough::enough_calm;
use frames::worst;
use meaning::Stream;
use search::{Demand, HORIZON, Own};
use table::Stairs;

// The bound of own beside streams that are unpacked: from its busy window, the frames that are enough, and the largest
// response of those. None where no window closes; a V(0) over the horizon leaves none to close.
pub fn rows_bound(rows: &Rows, stairs: &Stairs, own: &Own) -> Option<u32>
    requires { RowsAsk (table_of stairs.now) (all_of stairs.now) (asked_of own.now)
        rows.now.per rows.now.jit rows.now.cost rows.now.n }
    ensures { BoundFor (table_of stairs.now) (asked_of own.now)
        rows.now.per rows.now.jit rows.now.cost rows.now.n result }
{
    if HORIZON < stairs.interference(0) {
        return None;
    }
    let demand = Demand {
        rows,
        stairs: *stairs,
    };
    let b = demand.window(own)?;
    let all = own.frames_in(b) + 1 - own.frames_in(0);
    let few = enough_calm(&demand, own, all);
    Some(worst(&demand, own, few))
}

// The response bound of own beside streams, all but the one at place leave. None where own is endless.
pub fn response_bound(
    rate: u32,
    stairs: &Stairs,
    streams: &[Stream],
    own: Stream,
    leave: usize,
) -> Option<u32>
    requires { Asks rate (table_of stairs.now) (all_of stairs.now) streams.now own }
    ensures { result ≡ response_of (bound rate (table_of stairs.now)
        (lower_wire rate own (without leave streams.now)) (without leave streams.now) own) }
{
    let a = unpack(rate, streams, own, leave);
    let per = a.per;
    let jit = a.jit;
    let cost = a.cost;
    let rows = Rows {
        n: a.n,
        per,
        jit,
        cost,
    };
    let own = Own {
        lower: a.lower,
        wire: wire_of(rate, own.octets),
        period: own.period,
        jitter: own.jitter,
    };
    rows_bound(&rows, stairs, &own)
}
