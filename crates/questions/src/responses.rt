// The response bound of a stream held (document 01, "Response: 4, 9, 12, 13"). The desk handed back is the one given.
ghost use Rattle.std.specs.Prelude.{◌≡◌};
ghost use Rattle.meaning.specs.Desks.{asked};
ghost use Rattle.meaning.specs.Calls.{ask_response};
ghost use Rattle.answers.specs.Answers.{answer_of};
ghost use Rattle.desk.specs.Desks.{held, Fit};
ghost use Rattle.questions.specs.Replies.{figure_reply};
ghost use Rattle.questions.specs.Judged.{judged_by};

use crate::opened;
use desk::{Desk, Reply};
use meaning::Refusal;

// The bound, or the refusal where the stream is endless or late.
#[tactic(auto, unfolding(crate::specs::Judged::judged_by))]
fn judge(deadline: u32, bound: Option<u32>) -> Result<u64, Refusal>
    ensures { result ≡ judged_by deadline bound }
{
    match bound {
        None => Err(Refusal::Endless),
        Some(bound) if deadline < bound => Err(Refusal::Late { bound }),
        Some(bound) => Ok(u64::from(bound)),
    }
}

// What is answered about the stream with this id.
fn judged(d: &Desk, id: u64) -> Result<u64, Refusal>
    requires { Fit d.now }
    ensures { result ≡ answer_of (ask_response id (held d.now)) }
{
    opened(d)?;
    let streams = &d.streams[..d.nstreams];
    let p = rows::place(streams, id).ok_or(Refusal::NotHeld)?;
    let own = streams[p];
    let bound = bound::response_bound(d.rate, &desk::stairs_of(d), streams, own, p);
    judge(own.deadline, bound)
}

// The response bound of the stream with this id.
pub fn response(d: Desk, id: u64) -> Reply<u64>
    requires { Fit d }
    ensures { (result ≡ figure_reply (asked (held d) (ask_response id (held d)))) × Fit result.desk }
{
    let answer = judged(&d, id);
    Reply { answer, desk: d }
}
