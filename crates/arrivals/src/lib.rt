// Arrivals: all that the code takes from the formulas of document 01. How many frames can come, and when the next one.
#![tactic(auto)]

ghost use Rattle.std.specs.Prelude.{◌≡◌, ℕ, ◌*◌, ◌≤◌, ◌<◌};
ghost use Rattle.meaning.specs.Arrivals.{most_in};
ghost use Rattle.meaning.proofs.Later.{next_of};
ghost use Rattle.arrivals.specs.Rows.{row_stream, stepped};

mod counts;
mod rows;

pub use counts::Counts;
pub use rows::Rows;

// The most frames in a closed stretch of x ns.
pub fn frames_in(x: u32, period: u32, jitter: u32) -> u32
    requires { (x ≤ 100_000_000) × (10_000 ≤ period) × (jitter ≤ 100_000_000) }
    ensures { (result ≡ most_in (row_stream period jitter) x) × (1 ≤ result) × (result ≤ 20_001) }
{
    (x + jitter) / period + 1
}

// The wire time of so many frames.
pub fn frames_wire(frames: u32, wire: u32) -> u64
    requires { (frames ≤ 30_000) × (wire ≤ 2_000_000) }
    ensures { (result ≡ frames * wire) × (result ≤ 60_000_000_000) }
{
    u64::from(frames) * u64::from(wire)
}

// 2^45 by the period, rounded down.
pub fn inverse(period: u32) -> u32
    requires { 10_000 ≤ period }
    ensures { result * period ≤ 35_184_372_088_832 }
{
    (35_184_372_088_832 / u64::from(period)) as u32
}

// Frames in a closed stretch of x ns, by a product with the inverse of the period in place of a division: never more
// than there are, and seldom one fewer.
pub fn frames_at_least(x: u32, jitter: u32, inv: u32) -> u32
    requires { (x ≤ 100_000_000) × (jitter ≤ 100_000_000) }
    ensures { ((period : ℕ) → 0 < period → inv * period ≤ 35_184_372_088_832
        → result ≤ most_in (row_stream period jitter) x) × (result ≤ 30_000) }
{
    (u64::from(x + jitter) * u64::from(inv) / 35_184_372_088_832) as u32 + 1
}

// When one frame more than in x ns can come.
pub fn next_after(x: u32, period: u32, jitter: u32) -> u32
    requires { (x ≤ 100_000_000) × (10_000 ≤ period) × (period ≤ 100_000_000) × (jitter ≤ 100_000_000) }
    ensures { (result ≡ next_of (row_stream period jitter) x) × (result ≤ 200_000_000) }
{
    frames_in(x, period, jitter) * period - jitter
}

// The next instant after the one at a, where that has come by x; else a.
pub fn step(x: u32, a: u32, period: u32) -> u32
    requires { (x ≤ 200_000_000) × (period ≤ 100_000_000) }
    ensures { result ≡ stepped x a period }
{
    if a <= x { a + period } else { a }
}
