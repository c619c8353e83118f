// The call of `speed` under its name for the program in bench/: the static library.
#![tactic(auto)]

ghost use Rattle.std.specs.Prelude.{◌≡◌};
ghost use Rattle.meaning.specs.Response.{bound};
ghost use Rattle.search.specs.Asked.{asked};
ghost use Rattle.frames.specs.Windows.{Beside};
ghost use Rattle.bound.specs.Answers.{response_of};
ghost use Rattle.speed.specs.Told.{NumbersAsk, number_of, table_v};

// The bound of a stream beside streams that are unpacked; 1,000,000,000 for an endless one.
// Stays: the C interface needs the parameters as they are.
#[unsafe(no_mangle)]
pub extern "C" fn speed_bound<'a>(
    per: &'a [u32; 64],
    jit: &'a [u32; 64],
    cost: &'a [u32; 64],
    n: usize,
    far: &'a [u32; 993],
    tot: &'a [u32; 993],
    m: usize,
    cycle: u32,
    lower: u32,
    wire: u32,
    period: u32,
    jitter: u32,
) -> u32
    requires { NumbersAsk cycle far.now tot.now m (asked lower wire period jitter)
        per.now jit.now cost.now n }
    ensures { (s : Beside (asked lower wire period jitter)
        per.now jit.now cost.now n)
        → result ≡ number_of (response_of (bound s.rate (table_v cycle far.now tot.now m) lower
        s.rest s.own)) }
{
    speed::speed_bound(
        per, jit, cost, n, far, tot, m, cycle, lower, wire, period, jitter,
    )
}
