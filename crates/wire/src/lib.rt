// Wire time (document 01, "Wire time"): how long a frame occupies the wire, rounded up once, at the end.
#![tactic(auto)]

ghost use Rattle.std.specs.Prelude.{◌≡◌};
ghost use Rattle.meaning.specs.Wire.{ten_octets, wire_time};
ghost use Rattle.wire.specs.Timing.{timed};

// The refusal, by name, of a number that is no rate code.
#[derive(Clone, Copy, Debug, PartialEq, Eq)]
pub struct UnknownRate;

// The octets that a frame occupies besides its own: preamble and start delimiter.
const EXTRA: u64 = 8;

// The time of ten octets in ns, by the rate code.
// Stays: a form that document 01 names (docs/DECISIONS.md): a match on the rate code, others refused by name.
#[tactic(auto, unfolding(crate::specs::Timing::timed, meaning::specs::Wire::ten_octets))]
pub fn ten_octets(rate: u64) -> Result<u64, UnknownRate>
    ensures { result ≡ timed rate (ten_octets rate) }
{
    match rate {
        1 => Ok(8000),
        2 => Ok(800),
        3 => Ok(80),
        4 => Ok(32),
        5 => Ok(8),
        _ => Err(UnknownRate),
    }
}

// The wire time in ns of a frame of this many octets.
pub fn wire_time(rate: u64, octets: u32) -> Result<u64, UnknownRate>
    ensures { result ≡ timed rate (wire_time rate octets) }
{
    let ten = ten_octets(rate)?;
    Ok(((u64::from(octets) + EXTRA) * ten).div_ceil(10))
}
