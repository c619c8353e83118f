// Questions on a desk, for programs in Rust and C. The desk handed back is the one given, itself: that in the reply of
// the desk's call is never copied.
ghost use Rattle.std.specs.Prelude.{◌≡◌};
ghost use Rattle.meaning.specs.Desks.{asked};
ghost use Rattle.meaning.specs.Calls.{ask_runs, ask_stairs, ask_interference, ask_response};
ghost use Rattle.desk.specs.Desks.{held, Fit};
ghost use Rattle.questions.specs.Replies.{runs_reply, stairs_reply, figure_reply};
ghost use Rattle.face.specs.Told.{numbered_runs, numbered_stairs, numbered_figure};

use crate::numbers::figure_value;
use crate::{Figured, RunsTold, StairsTold};
use answers::number_of_answer;
use desk::Desk;
use gate::RunRow;
use meaning::{Refusal, Run};
use table::Table;

// The answer to a question for a figure as two numbers, with the desk.
fn told_figure(d: Desk, answer: Result<u64, Refusal>) -> Figured
    ensures { result ≡ numbered_figure (record { answer = answer; desk = d }) }
{
    Figured {
        number: number_of_answer(&answer),
        value: figure_value(answer),
        desk: d,
    }
}

// The blocked runs, by rising start.
pub fn desk_runs(d: Desk) -> RunsTold
    requires { Fit d }
    ensures { (result ≡ numbered_runs (runs_reply (asked (held d) (ask_runs (held d))))) × Fit result.desk }
{
    let answer = questions::runs(d).answer;
    let no_run = [Run::default(); 32];
    let found = answer.unwrap_or(RunRow { n: 0, row: no_run });
    let runs = found.row;
    RunsTold {
        number: number_of_answer(&answer),
        count: found.n as u64,
        runs,
        desk: d,
    }
}

// The stairs, by rising distance.
pub fn desk_stairs(d: Desk) -> StairsTold
    requires { Fit d }
    ensures { (result ≡ numbered_stairs (stairs_reply (asked (held d) (ask_stairs (held d))))) × Fit result.desk }
{
    let answer = questions::stairs(d).answer;
    let none = [0; 993];
    let found = answer.unwrap_or(Table {
        n: 0,
        far: none,
        tot: none,
    });
    let far = found.far;
    let tot = found.tot;
    StairsTold {
        number: number_of_answer(&answer),
        count: found.n as u64,
        far,
        tot,
        desk: d,
    }
}

// Interference V(t).
pub fn desk_interference(d: Desk, t: u64) -> Figured
    requires { Fit d }
    ensures { (result ≡ numbered_figure (figure_reply (asked (held d) (ask_interference t (held d)))))
        × Fit result.desk }
{
    told_figure(d, questions::interference(d, t).answer)
}

// The response bound of the stream with this id.
pub fn desk_response(d: Desk, id: u64) -> Figured
    requires { Fit d }
    ensures { (result ≡ numbered_figure (figure_reply (asked (held d) (ask_response id (held d))))) × Fit result.desk }
{
    told_figure(d, questions::response(d, id).answer)
}
