// The ranges of document 01: the numbers of a call are tested, and those in range are stored in 32 bits.
#![tactic(auto)]

ghost use Rattle.std.specs.Prelude.{◌≡◌, true, ℕ, ◌<◌};
ghost use Rattle.meaning.specs.Ranges.{port_ranges, slot_ranges, stream_ranges, in_range};
ghost use Rattle.ranges.specs.Numbers.{port_of, slot_of, stream_of, tested};

use meaning::{Port, Refusal, Slot, Stream};

// The numbers of a port, as a caller has them.
// Stays: no plainer as a generic `Port`, since every definition of document 01 would name the type of its numbers.
#[derive(Clone, Copy)]
pub struct PortNumbers {
    pub rate: u64,
    pub cycle: u64,
    pub guard: u64,
    pub header: u64,
}

// The numbers of a stream, as a caller has them.
#[derive(Clone, Copy)]
pub struct StreamNumbers {
    pub id: u64,
    pub priority: u64,
    pub octets: u64,
    pub period: u64,
    pub jitter: u64,
    pub deadline: u64,
}

impl From<Port> for PortNumbers {
    fn from(p: Port) -> PortNumbers
        ensures { port_of result ≡ p }
    {
        PortNumbers {
            rate: p.rate.into(),
            cycle: p.cycle.into(),
            guard: p.guard.into(),
            header: p.header.into(),
        }
    }
}

impl From<Stream> for StreamNumbers {
    fn from(j: Stream) -> StreamNumbers
        ensures { stream_of result ≡ j }
    {
        StreamNumbers {
            id: j.id.into(),
            priority: j.priority.into(),
            octets: j.octets.into(),
            period: j.period.into(),
            jitter: j.jitter.into(),
            deadline: j.deadline.into(),
        }
    }
}

// Whether the numbers of a port are in range.
#[tactic(auto, unfolding(meaning::specs::Ranges::port_ranges, laws::specs::Lists::every))]
pub fn port_in_range(p: PortNumbers) -> bool
    ensures { result ≡ in_range (port_ranges (port_of p)) }
{
    (1..=5).contains(&p.rate)
        && (1_000..=100_000_000).contains(&p.cycle)
        && (1..=10_000_000).contains(&p.guard)
        && (0..=10_000_000).contains(&p.header)
}

// Whether the numbers of a slot are in range.
#[tactic(auto, unfolding(meaning::specs::Ranges::slot_ranges, laws::specs::Lists::every))]
pub fn slot_in_range(cycle: u32, start: u64, end: u64) -> bool
    ensures { result ≡ in_range (slot_ranges cycle (slot_of start end)) }
{
    start < end && end <= u64::from(cycle)
}

// Whether the numbers of a stream are in range, its octets up to a limit.
#[tactic(auto, unfolding(meaning::specs::Ranges::stream_ranges, laws::specs::Lists::every))]
pub fn stream_in_range(limit: u64, j: StreamNumbers) -> bool
    ensures { result ≡ in_range (stream_ranges limit (stream_of j)) }
{
    (0..=65_535).contains(&j.id)
        && (0..=7).contains(&j.priority)
        && (64..=limit).contains(&j.octets)
        && (10_000..=100_000_000).contains(&j.period)
        && (0..=100_000_000).contains(&j.jitter)
        && (1..=100_000_000).contains(&j.deadline)
}

// The numbers of a port, which are in range, in 32 bits.
#[tactic(auto, unfolding(meaning::specs::Ranges::port_ranges, laws::specs::Lists::every))]
pub fn narrow_port(p: PortNumbers) -> Port
    requires { in_range (port_ranges (port_of p)) ≡ true }
    ensures { result ≡ port_of p }
{
    Port {
        rate: p.rate as u32,
        cycle: p.cycle as u32,
        guard: p.guard as u32,
        header: p.header as u32,
    }
}

// The numbers of a slot in 32 bits.
pub fn narrow_slot(start: u64, end: u64) -> Slot
    requires { (start < 4_294_967_296) × (end < 4_294_967_296) }
    ensures { result ≡ slot_of start end }
{
    Slot {
        start: start as u32,
        end: end as u32,
    }
}

// The numbers of a stream, which are in range, in 32 bits.
#[tactic(auto, unfolding(meaning::specs::Ranges::stream_ranges, laws::specs::Lists::every))]
pub fn narrow_stream(j: StreamNumbers) -> Stream
    requires { (limit : ℕ) × (limit < 4_294_967_296) × (in_range (stream_ranges limit (stream_of j)) ≡ true) }
    ensures { result ≡ stream_of j }
{
    Stream {
        id: j.id as u32,
        priority: j.priority as u32,
        octets: j.octets as u32,
        period: j.period as u32,
        jitter: j.jitter as u32,
        deadline: j.deadline as u32,
    }
}

// The port that has these numbers, where they are in range.
// Stays: no plainer as TryFrom, since a slot's range asks for the cycle too, and a stream's for the octet limit.
pub fn port(p: PortNumbers) -> Result<Port, Refusal>
    ensures { result ≡ tested (port_ranges (port_of p)) (port_of p) }
{
    if !port_in_range(p) {
        return Err(Refusal::OutOfRange);
    }
    Ok(narrow_port(p))
}

// The slot that has these numbers, where they are in range.
pub fn slot(cycle: u32, start: u64, end: u64) -> Result<Slot, Refusal>
    ensures { result ≡ tested (slot_ranges cycle (slot_of start end)) (slot_of start end) }
{
    if !slot_in_range(cycle, start, end) {
        return Err(Refusal::OutOfRange);
    }
    Ok(narrow_slot(start, end))
}

// The stream that has these numbers, where they are in range, its octets up to a limit.
pub fn stream(limit: u64, j: StreamNumbers) -> Result<Stream, Refusal>
    requires { limit < 4_294_967_296 }
    ensures { result ≡ tested (stream_ranges limit (stream_of j)) (stream_of j) }
{
    if !stream_in_range(limit, j) {
        return Err(Refusal::OutOfRange);
    }
    Ok(narrow_stream(j))
}
