// Makes some hundred calls on one desk, in many orders, and prints a line for each: its row, its kind, document 01's
// number of the answer (0 where it is accepted) and the value it carries; runs and stairs follow a line each.
#![tactic(auto)]

ghost use Rattle.std.specs.Prelude.{IfOk};
ghost use Rattle.desk.specs.Desks.{Fit};

mod call;
mod script;
mod value;

use call::Call;
use desk::{Desk, Reply};
use meaning::Refusal;
use script::CALLS;
use std::io;
use value::Value;

// The bound that a refusal carries, 0 where it carries none.
// Stays: no plainer as one with `face`, whose function is proved against what C is promised.
fn carried(why: Refusal) -> u32 {
    match why {
        Refusal::Late { bound } => bound,
        _ => 0,
    }
}

// The rest of a call's line: the number of its answer, and what it carries. The desk goes on.
fn tell<T: Value>(rt: &impl Print, reply: Reply<T>) -> io::Result<Desk>
    requires { Fit reply.desk }
    ensures { IfOk result Fit }
{
    match reply.answer {
        Ok(value) => value.put(rt)?,
        Err(why) => T::put_refusal(rt, answers::number(why), carried(why))?,
    }
    Ok(reply.desk)
}

// One call of the script.
fn make(rt: &impl Print, d: Desk, call: Call) -> io::Result<Desk>
    requires { Fit d }
    ensures { IfOk result Fit }
{
    match call {
        Call::Bare => tell(
            rt,
            Reply {
                answer: Ok(()),
                desk: desk::bare(),
            },
        ),
        Call::OpenPort(p) => tell(rt, desk::open_port(d, p)),
        Call::AddSlot(start, end) => tell(rt, desk::add_slot(d, start, end)),
        Call::RemoveSlot(start) => tell(rt, desk::remove_slot(d, start)),
        Call::AddStream(j) => tell(rt, desk::add_stream(d, j)),
        Call::RemoveStream(id) => tell(rt, desk::remove_stream(d, id)),
        Call::Runs => tell(rt, questions::runs(d)),
        Call::Stairs => tell(rt, questions::stairs(d)),
        Call::Interference(t) => tell(rt, questions::interference(d, t)),
        Call::Response(id) => tell(rt, questions::response(d, id)),
    }
}

fn main(rt: HostRuntime) -> io::Result<()> {
    let mut d = desk::bare();
    for (i, call) in CALLS.iter().enumerate() {
        print!(rt; "{i} {} ", u64::from(*call))?;
        d = make(&rt, d, *call)?;
    }
    Ok(())
}
