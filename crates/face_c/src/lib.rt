// The calls of `face` under their names for C and Rust: the static library. Each promises what the call that it makes
// promises, in the same words.
// Stays: the C interface; a static library is used by no crate, so `face` has the calls that can be.
#![tactic(auto)]

ghost use Rattle.std.specs.Prelude.{◌≡◌};
ghost use Rattle.meaning.specs.Desks.{bare, edited, asked};
ghost use Rattle.meaning.specs.Calls.{open_port, add_slot, remove_slot, add_stream, remove_stream};
ghost use Rattle.meaning.specs.Calls.{ask_runs, ask_stairs, ask_interference, ask_response};
ghost use Rattle.meaning.specs.Bytes.{read_plan, write_plan, written, room_after};
ghost use Rattle.ranges.specs.Numbers.{slot_of};
ghost use Rattle.desk.specs.Desks.{held, desk_of, Fit, edit_reply};
ghost use Rattle.questions.specs.Replies.{runs_reply, stairs_reply, figure_reply};
ghost use Rattle.reader.specs.Reading.{read_reply};
ghost use Rattle.writer.specs.Writing.{write_reply};
ghost use Rattle.face.specs.Told.{port_from, stream_from, numbered, numbered_runs, numbered_stairs, numbered_figure};
ghost use Rattle.face.specs.Told.{numbered_read, numbered_write};

use desk::Desk;
use face::{Edited, Figured, PlanRead, PlanWritten, RunsTold, StairsTold};

// The bare desk.
#[unsafe(no_mangle)]
pub extern "C" fn desk_bare() -> Desk
    ensures { (result ≡ desk_of bare) × Fit result }
{
    face::desk_bare()
}

// The desk with its port opened.
#[unsafe(no_mangle)]
pub extern "C" fn desk_open_port(d: Desk, rate: u64, cycle: u64, guard: u64, header: u64) -> Edited
    requires { Fit d }
    ensures { (result ≡ numbered (edit_reply (edited (held d)
        (open_port (port_from rate cycle guard header) (held d)))))
        × Fit result.desk }
{
    face::desk_open_port(d, rate, cycle, guard, header)
}

// The desk with one slot more.
#[unsafe(no_mangle)]
pub extern "C" fn desk_add_slot(d: Desk, start: u64, end: u64) -> Edited
    requires { Fit d }
    ensures { (result ≡ numbered (edit_reply (edited (held d) (add_slot (slot_of start end) (held d)))))
        × Fit result.desk }
{
    face::desk_add_slot(d, start, end)
}

// The desk without the slot that has this start.
#[unsafe(no_mangle)]
pub extern "C" fn desk_remove_slot(d: Desk, start: u64) -> Edited
    requires { Fit d }
    ensures { (result ≡ numbered (edit_reply (edited (held d) (remove_slot start (held d))))) × Fit result.desk }
{
    face::desk_remove_slot(d, start)
}

// The desk with one stream more.
#[unsafe(no_mangle)]
pub extern "C" fn desk_add_stream(
    d: Desk,
    id: u64,
    priority: u64,
    octets: u64,
    period: u64,
    jitter: u64,
    deadline: u64,
) -> Edited
    requires { Fit d }
    ensures { (result ≡ numbered (edit_reply (edited (held d)
        (add_stream (stream_from id priority octets period jitter deadline) (held d)))))
        × Fit result.desk }
{
    face::desk_add_stream(d, id, priority, octets, period, jitter, deadline)
}

// The desk without the stream that has this id.
#[unsafe(no_mangle)]
pub extern "C" fn desk_remove_stream(d: Desk, id: u64) -> Edited
    requires { Fit d }
    ensures { (result ≡ numbered (edit_reply (edited (held d) (remove_stream id (held d))))) × Fit result.desk }
{
    face::desk_remove_stream(d, id)
}

// The blocked runs, by rising start.
#[unsafe(no_mangle)]
pub extern "C" fn desk_runs(d: Desk) -> RunsTold
    requires { Fit d }
    ensures { (result ≡ numbered_runs (runs_reply (asked (held d) (ask_runs (held d))))) × Fit result.desk }
{
    face::desk_runs(d)
}

// The stairs, by rising distance.
#[unsafe(no_mangle)]
pub extern "C" fn desk_stairs(d: Desk) -> StairsTold
    requires { Fit d }
    ensures { (result ≡ numbered_stairs (stairs_reply (asked (held d) (ask_stairs (held d))))) × Fit result.desk }
{
    face::desk_stairs(d)
}

// Interference V(t).
#[unsafe(no_mangle)]
pub extern "C" fn desk_interference(d: Desk, t: u64) -> Figured
    requires { Fit d }
    ensures { (result ≡ numbered_figure (figure_reply (asked (held d) (ask_interference t (held d)))))
        × Fit result.desk }
{
    face::desk_interference(d, t)
}

// The response bound of the stream with this id.
#[unsafe(no_mangle)]
pub extern "C" fn desk_response(d: Desk, id: u64) -> Figured
    requires { Fit d }
    ensures { (result ≡ numbered_figure (figure_reply (asked (held d) (ask_response id (held d))))) × Fit result.desk }
{
    face::desk_response(d, id)
}

// The desk of a plan; or why it is refused, where, and the bare desk.
#[unsafe(no_mangle)]
pub extern "C" fn desk_read(plan: &[u8]) -> PlanRead
    ensures { (result ≡ numbered_read (read_reply (read_plan plan.now))) × Fit result.desk }
{
    face::desk_read(plan)
}

// The plan of a desk, written at the front of the caller's room.
#[unsafe(no_mangle)]
pub extern "C" fn desk_write(d: Desk, room: &mut [u8]) -> PlanWritten
    requires { Fit d }
    ensures { (result ≡ numbered_write (write_reply (asked (held d)
        (written (write_plan room.old (held d))))))
        × (room.new ≡ room_after room.old (write_plan room.old (held d)))
        × Fit result.desk }
{
    face::desk_write(d, room)
}
