// Questions on a desk (document 01): runs, stairs, interference and response. The desk handed back is the one given.
#![tactic(auto)]

mod responses;

ghost use Rattle.std.specs.Prelude.{◌≡◌, true, false, MatchResult};
ghost use Rattle.meaning.specs.declared.Refusal.TheVariants.{OutOfTurn};
ghost use Rattle.meaning.specs.Desks.{asked};
ghost use Rattle.meaning.specs.Calls.{ask_runs, ask_stairs, ask_interference};
ghost use Rattle.gate.specs.Rows.{run_row};
ghost use Rattle.table.specs.Rows.{table_of};
ghost use Rattle.answers.specs.Answers.{answer_of};
ghost use Rattle.table.specs.Lookup.{stairs_v};
ghost use Rattle.desk.specs.Desks.{held, Fit, far_in, tot_in};
ghost use Rattle.questions.specs.Replies.{answer_by, runs_reply, stairs_reply, figure_reply};

use desk::{Desk, Reply};
use gate::{RunRow, Slots};
use meaning::Refusal;
pub use responses::response;
use search::HORIZON;
use table::Table;

// What every question asks first: that a port is open.
// Stays: no plainer through `Entries::in_turn`, which asks for a copy of what the desk holds.
fn opened(d: &Desk) -> Result<(), Refusal>
    ensures { MatchResult result (λ _. d.now.opened ≡ true) (λ why. (why ≡ OutOfTurn) × (d.now.opened ≡ false)) }
{
    if d.opened {
        Ok(())
    } else {
        Err(Refusal::OutOfTurn)
    }
}

// The blocked runs of the slots held. Of the desk the row of slots alone is copied to be lent.
fn runs_of(d: Desk) -> Result<RunRow, Refusal>
    requires { Fit d }
    ensures { result ≡ answer_by run_row (ask_runs (held d)) }
{
    opened(&d)?;
    let row = d.slots;
    let held = Slots {
        gate: desk::entries_of(&d).gate(),
        slots: &row[..d.nslots],
    };
    Ok(held.find_runs())
}

// The stairs that the desk stores.
fn stairs_of(d: &Desk) -> Result<Table, Refusal>
    requires { Fit d.now }
    ensures { result ≡ answer_by table_of (ask_stairs (held d.now)) }
{
    opened(d)?;
    let far = d.far;
    let tot = d.tot;
    Ok(Table {
        n: d.nstairs,
        far,
        tot,
    })
}

// V(t), read from the stairs that an open desk stores. Lending them costs a copy of the desk, so it stands apart from
// the calls that are refused.
fn stored_figure(d: Desk, t: u32) -> u64
    requires { Fit d × (d.opened ≡ true) }
    ensures { result ≡ stairs_v d.cycle (far_in d) (tot_in d) t }
{
    desk::stairs_of(&d).interference(t)
}

// V(t), up to the horizon.
fn figure_of(d: Desk, t: u64) -> Result<u64, Refusal>
    requires { Fit d }
    ensures { result ≡ answer_of (ask_interference t (held d)) }
{
    opened(&d)?;
    if HORIZON < t {
        return Err(Refusal::OverHorizon);
    }
    Ok(stored_figure(d, t as u32))
}

// The blocked runs, by rising start.
pub fn runs(d: Desk) -> Reply<RunRow>
    requires { Fit d }
    ensures { (result ≡ runs_reply (asked (held d) (ask_runs (held d)))) × Fit result.desk }
{
    let answer = runs_of(d);
    Reply { answer, desk: d }
}

// The stairs, by rising distance: those that the desk stores.
pub fn stairs(d: Desk) -> Reply<Table>
    requires { Fit d }
    ensures { (result ≡ stairs_reply (asked (held d) (ask_stairs (held d)))) × Fit result.desk }
{
    let answer = stairs_of(&d);
    Reply { answer, desk: d }
}

// Interference V(t).
pub fn interference(d: Desk, t: u64) -> Reply<u64>
    requires { Fit d }
    ensures { (result ≡ figure_reply (asked (held d) (ask_interference t (held d)))) × Fit result.desk }
{
    let answer = figure_of(d, t);
    Reply { answer, desk: d }
}
