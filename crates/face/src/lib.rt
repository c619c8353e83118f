// The desk for programs in Rust and C: every call of document 01 with plain numbers in and out, and the desk by value.
#![tactic(auto)]

mod asking;
mod edits;
mod numbers;
mod plans;

pub use asking::{desk_interference, desk_response, desk_runs, desk_stairs};
use desk::Desk;
pub use edits::{
    desk_add_slot, desk_add_stream, desk_bare, desk_open_port, desk_remove_slot, desk_remove_stream,
};
use meaning::Run;
pub use plans::{desk_read, desk_write};

// In every reply `number` is document 01's number of the refusal, and 0 where the call is accepted. The other numbers
// are 0 where there is nothing to tell.
// Stays: the C interface has numbers and counts in these six, and can have no Result, no Option and no slice.

#[repr(C)]
#[derive(Clone, Copy)]
pub struct Edited {
    pub number: u64,
    pub desk: Desk,
}

// The value asked for; the bound of a late stream.
#[repr(C)]
#[derive(Clone, Copy)]
pub struct Figured {
    pub number: u64,
    pub value: u64,
    pub desk: Desk,
}

// The first `count` runs, by rising start.
#[repr(C)]
#[derive(Clone, Copy)]
pub struct RunsTold {
    pub number: u64,
    pub count: u64,
    pub runs: [Run; 32],
    pub desk: Desk,
}

// The first `count` distances and totals, by rising distance.
#[repr(C)]
#[derive(Clone, Copy)]
pub struct StairsTold {
    pub number: u64,
    pub count: u64,
    pub far: [u32; 993],
    pub tot: [u32; 993],
    pub desk: Desk,
}

// The place of a refused field's first octet.
#[repr(C)]
#[derive(Clone, Copy)]
pub struct PlanRead {
    pub number: u64,
    pub place: u64,
    pub desk: Desk,
}

// How many octets were written.
#[repr(C)]
#[derive(Clone, Copy)]
pub struct PlanWritten {
    pub number: u64,
    pub count: u64,
    pub desk: Desk,
}
