// The bare desk and the edits, for programs in Rust and C.
ghost use Rattle.std.specs.Prelude.{◌≡◌};
ghost use Rattle.meaning.specs.Desks.{bare, edited};
ghost use Rattle.meaning.specs.Calls.{open_port, add_slot, remove_slot, add_stream, remove_stream};
ghost use Rattle.ranges.specs.Numbers.{slot_of};
ghost use Rattle.desk.specs.Desks.{held, desk_of, Fit, edit_reply};
ghost use Rattle.face.specs.Told.{port_from, stream_from, numbered, RefusedKeeps};

use crate::Edited;
use desk::{Desk, Reply};
use ranges::{PortNumbers, StreamNumbers};

// The reply to an edit of the desk d, with its answer as a number. A refused edit hands d itself back, so that the
// reply's desk is copied only where it is another.
#[tactic(auto, unfolding(answers::specs::Answers::answer_number))]
fn told_edit(d: Desk, reply: Reply<()>) -> Edited
    requires { RefusedKeeps d reply }
    ensures { result ≡ numbered reply }
{
    match reply.answer {
        Ok(_) => Edited {
            number: 0,
            desk: reply.desk,
        },
        Err(why) => Edited {
            number: answers::number(why),
            desk: d,
        },
    }
}

// The bare desk.
pub fn desk_bare() -> Desk
    ensures { (result ≡ desk_of bare) × Fit result }
{
    desk::bare()
}

// The desk with its port opened.
pub fn desk_open_port(d: Desk, rate: u64, cycle: u64, guard: u64, header: u64) -> Edited
    requires { Fit d }
    ensures { (result ≡ numbered (edit_reply (edited (held d)
        (open_port (port_from rate cycle guard header) (held d)))))
        × Fit result.desk }
{
    let p = PortNumbers {
        rate,
        cycle,
        guard,
        header,
    };
    told_edit(d, desk::open_port(d, p))
}

// The desk with one slot more.
pub fn desk_add_slot(d: Desk, start: u64, end: u64) -> Edited
    requires { Fit d }
    ensures { (result ≡ numbered (edit_reply (edited (held d) (add_slot (slot_of start end) (held d)))))
        × Fit result.desk }
{
    told_edit(d, desk::add_slot(d, start, end))
}

// The desk without the slot that has this start.
pub fn desk_remove_slot(d: Desk, start: u64) -> Edited
    requires { Fit d }
    ensures { (result ≡ numbered (edit_reply (edited (held d) (remove_slot start (held d))))) × Fit result.desk }
{
    told_edit(d, desk::remove_slot(d, start))
}

// The desk with one stream more.
pub fn desk_add_stream(
    d: Desk,
    id: u64,
    priority: u64,
    octets: u64,
    period: u64,
    jitter: u64,
    deadline: u64,
) -> Edited
    requires { Fit d }
    ensures { (result ≡ numbered (edit_reply (edited (held d)
        (add_stream (stream_from id priority octets period jitter deadline) (held d)))))
        × Fit result.desk }
{
    let j = StreamNumbers {
        id,
        priority,
        octets,
        period,
        jitter,
        deadline,
    };
    told_edit(d, desk::add_stream(d, j))
}

// The desk without the stream that has this id.
pub fn desk_remove_stream(d: Desk, id: u64) -> Edited
    requires { Fit d }
    ensures { (result ≡ numbered (edit_reply (edited (held d) (remove_stream id (held d))))) × Fit result.desk }
{
    told_edit(d, desk::remove_stream(d, id))
}
