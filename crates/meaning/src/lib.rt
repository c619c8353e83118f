// Document 01: its records and its refusals. What they mean stands in specs/, what is proved of it in proofs/.
#![tactic(auto)]

// The numbers of an output port.
#[derive(Clone, Copy)]
pub struct Port {
    pub rate: u32,
    pub cycle: u32,
    pub guard: u32,
    pub header: u32,
}

// The gate numbers in force, in ns.
#[derive(Clone, Copy)]
pub struct Gate {
    pub cycle: u32,
    pub guard: u32,
    pub header: u32,
}

// A scheduled slot, from its start up to, not including, its end.
#[repr(C)]
#[derive(Clone, Copy, Default)]
pub struct Slot {
    pub start: u32,
    pub end: u32,
}

// An unscheduled stream.
#[repr(C)]
#[derive(Clone, Copy, Default)]
pub struct Stream {
    pub id: u32,
    pub priority: u32,
    pub octets: u32,
    pub period: u32,
    pub jitter: u32,
    pub deadline: u32,
}

// A blocked run: the cell it starts at, and its length.
#[repr(C)]
#[derive(Clone, Copy, Default)]
pub struct Run {
    pub start: u32,
    pub len: u32,
}

// A stair, or any pair of a distance and a total length.
#[derive(Clone, Copy)]
pub struct Stair {
    pub far: u32,
    pub total: u32,
}

// The fourteen refusals, in the order of their numbers. Late carries the bound.
#[derive(Clone, Copy)]
pub enum Refusal {
    CutShort,
    UnknownTag,
    WrongLength,
    OutOfTurn,
    OutOfRange,
    Overlap,
    Full,
    IdHeld,
    NotHeld,
    NoFreeCell,
    NoRoom,
    Endless,
    Late { bound: u32 },
    OverHorizon,
}
