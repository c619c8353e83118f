// The streams that count for a response (document 01, "Response bound"), as rows of numbers.
#![tactic(auto)]

ghost use Rattle.std.specs.Prelude.{◌≡◌, ◌≤◌, ◌<◌, length};
ghost use Rattle.laws.specs.Lists.{Mem, without};
ghost use Rattle.meaning.specs.declared.Stream.{Stream};
ghost use Rattle.meaning.specs.Wire.{wire_time};
ghost use Rattle.ahead.specs.Unpacked.{ahead_of, pushed};

use meaning::Stream;

// The streams of equal or higher priority: how many, and the period, the jitter and the wire time of each. Beside them
// the largest wire time of a stream of lower priority, 0 with none.
// Stays: no plainer with a Rows in it: unpack promises its rows for streams of any period, and a Rows is in range.
#[derive(Clone, Copy)]
pub struct Ahead {
    pub n: usize,
    pub per: [u32; 64],
    pub jit: [u32; 64],
    pub cost: [u32; 64],
    pub lower: u32,
}

impl Ahead {
    // One stream more of equal or higher priority.
    fn push(&mut self, period: u32, jitter: u32, cost: u32)
        requires { self.old.n < 64 }
        ensures { self.new ≡ pushed self.old period jitter cost }
    {
        self.per[self.n] = period;
        self.jit[self.n] = jitter;
        self.cost[self.n] = cost;
        self.n += 1;
    }
}

// The wire time of a frame, 0 at a number that is no rate code.
// Stays: its clause may not change, and `wire_time` is 0 there.
pub fn wire_of(rate: u32, octets: u32) -> u32
    requires { octets ≤ 2_000 }
    ensures { (result ≡ wire_time rate octets) × (result ≤ 2_000_000) }
{
    wire::wire_time(u64::from(rate), octets).unwrap_or(0) as u32
}

// The streams beside own, all but the one at place leave, as rows of numbers: those of equal or higher priority, and of
// the others the largest wire time. A place leave past them leaves none out.
// Stays: its clause may not change, where `without` of a place past the end leaves none out.
pub fn unpack(rate: u32, streams: &[Stream], own: Stream, leave: usize) -> Ahead
    requires { (length streams.now ≤ 64) × ((j : Stream) → Mem j streams.now → j.octets ≤ 2_000) }
    ensures { result ≡ ahead_of rate own (without leave streams.now) }
{
    let mut a = Ahead {
        n: 0,
        per: [0; 64],
        jit: [0; 64],
        cost: [0; 64],
        lower: 0,
    };
    for (i, s) in streams.iter().enumerate() {
        if i == leave {
            continue;
        }
        let cost = wire_of(rate, s.octets);
        if own.priority <= s.priority {
            a.push(s.period, s.jitter, cost);
        } else {
            a.lower = a.lower.max(cost);
        }
    }
    a
}
