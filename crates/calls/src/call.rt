// The calls that the program makes on its desk, and the number by which each is printed.
use ranges::{PortNumbers, StreamNumbers};

// A call with its numbers: a slot by its start and its end, a stream by its id.
#[derive(Clone, Copy)]
pub enum Call {
    Bare,
    OpenPort(PortNumbers),
    AddSlot(u64, u64),
    RemoveSlot(u64),
    AddStream(StreamNumbers),
    RemoveStream(u64),
    Runs,
    Stairs,
    Interference(u64),
    Response(u64),
}

// Stays: numbers for kinds, since the program's output may not change.
impl From<Call> for u64 {
    fn from(call: Call) -> u64 {
        match call {
            Call::Bare => 0,
            Call::OpenPort(_) => 1,
            Call::AddSlot(_, _) => 2,
            Call::RemoveSlot(_) => 3,
            Call::AddStream(_) => 4,
            Call::RemoveStream(_) => 5,
            Call::Runs => 6,
            Call::Stairs => 7,
            Call::Interference(_) => 8,
            Call::Response(_) => 9,
        }
    }
}
