// The desk (document 01) and its edits: every call takes it by value and hands it back.
#![tactic(auto)]

mod parts;
mod ports;
mod slots;
mod streams;

use meaning::{Refusal, Slot, Stream};
pub use parts::{entries_of, stairs_of, with_stairs};
pub use ports::{bare, open_port};
pub use slots::{add_slot, remove_slot};
pub use streams::{add_stream, remove_stream};

// One output port: its numbers, its slots by rising start, its streams by rising id, and its stairs as a row of
// distances and a row of totals. Free places are zero, and a bare desk is all zero.
// Stays: the C interface hands over just this struct, flat, with a flag and counts, so `Fit` is a clause of each call.
#[repr(C)]
#[derive(Clone, Copy)]
pub struct Desk {
    pub opened: bool,
    pub rate: u32,
    pub cycle: u32,
    pub guard: u32,
    pub header: u32,
    pub nslots: usize,
    pub slots: [Slot; 32],
    pub nstreams: usize,
    pub streams: [Stream; 64],
    pub nstairs: usize,
    pub far: [u32; 993],
    pub tot: [u32; 993],
}

// What a call answers, and the desk that it hands back.
#[derive(Clone, Copy)]
pub struct Reply<T> {
    pub answer: Result<T, Refusal>,
    pub desk: Desk,
}
