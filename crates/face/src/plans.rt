// Reading and writing a whole plan, for programs in Rust and C.
ghost use Rattle.std.specs.Prelude.{◌≡◌};
ghost use Rattle.meaning.specs.Desks.{asked};
ghost use Rattle.meaning.specs.Bytes.{read_plan, write_plan, written, room_after};
ghost use Rattle.desk.specs.Desks.{held, Fit};
ghost use Rattle.reader.specs.Reading.{read_reply};
ghost use Rattle.writer.specs.Writing.{write_reply};
ghost use Rattle.face.specs.Told.{numbered_read, numbered_write};

use crate::{PlanRead, PlanWritten};
use answers::{number, number_of_answer};
use desk::Desk;
use reader::ReadReply;

// The reply of the reader, with its answer as two numbers.
fn told_read(reply: ReadReply) -> PlanRead
    ensures { result ≡ numbered_read reply }
{
    let desk = reply.desk;
    match reply.answer {
        Ok(_) => PlanRead {
            number: 0,
            place: 0,
            desk,
        },
        Err(at) => PlanRead {
            number: number(at.why),
            place: at.place as u64,
            desk,
        },
    }
}

// The desk of a plan; or why it is refused, where, and the bare desk.
pub fn desk_read(plan: &[u8]) -> PlanRead
    ensures { (result ≡ numbered_read (read_reply (read_plan plan.now))) × Fit result.desk }
{
    told_read(reader::read(plan))
}

// The plan of a desk, written at the front of the caller's room.
pub fn desk_write(d: Desk, room: &mut [u8]) -> PlanWritten
    requires { Fit d }
    ensures { (result ≡ numbered_write (write_reply (asked (held d)
        (written (write_plan room.old (held d))))))
        × (room.new ≡ room_after room.old (write_plan room.old (held d)))
        × Fit result.desk }
{
    let answer = writer::write(d, room).answer;
    PlanWritten {
        number: number_of_answer(&answer),
        count: answer.unwrap_or(0) as u64,
        desk: d,
    }
}
