// What a desk holds (document 01), without its stairs: port, slots and streams, and each edit of them.
#![tactic(auto)]

mod parts;
mod ports;
mod slots;
mod streams;

use meaning::{Slot, Stream};

// What one output port has been given: its numbers, its slots by rising start and its streams by rising id. Free places
// are zero, and where no port is open all is zero.
// Stays: the desk of the C interface has these fields; and `FitEntries` is no plainer inside, since it speaks of the
// whole struct and would need a second one around it.
#[derive(Clone, Copy)]
pub struct Entries {
    pub opened: bool,
    pub rate: u32,
    pub cycle: u32,
    pub guard: u32,
    pub header: u32,
    pub nslots: usize,
    pub slots: [Slot; 32],
    pub nstreams: usize,
    pub streams: [Stream; 64],
}
