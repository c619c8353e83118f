// Prints the runs and the stairs of plan F, and of the worked example of document 000, Table I, scaled by 1,000.
#![tactic(auto)]

ghost use Rattle.std.specs.Prelude.{◌≤◌};

use gate::Slots;
use meaning::{Gate, Run, Slot};
use std::io;
use table::Table;

// A line for each run: its start and its length.
fn show_runs(rt: &impl Print, runs: &[Run]) -> io::Result<()> {
    for r in runs {
        println!(rt; "run {} {}", r.start, r.len)?;
    }
    Ok(())
}

// A line for each stair: its distance and its total.
fn show_stairs(rt: &impl Print, t: &Table) -> io::Result<()>
    requires { t.now.n ≤ 993 }
{
    for (far, tot) in t.far[..t.n].iter().zip(&t.tot[..t.n]) {
        println!(rt; "stair {} {}", far, tot)?;
    }
    Ok(())
}

// The runs and stairs of slots that leave a cell free.
fn show(rt: &impl Print, s: &Slots) -> io::Result<()> {
    if s.some_free() {
        let found = s.find_runs();
        let runs = found.runs();
        show_runs(rt, runs)?;
        show_stairs(rt, &stairs::build(s.gate.cycle, runs))?;
    }
    Ok(())
}

// Plan F of document 01.
fn show_f(rt: &impl Print) -> io::Result<()> {
    let gate = Gate {
        cycle: 100_000,
        guard: 1_000,
        header: 500,
    };
    let slots = &[
        Slot {
            start: 10_000,
            end: 14_000,
        },
        Slot {
            start: 30_000,
            end: 32_500,
        },
        Slot {
            start: 60_000,
            end: 68_500,
        },
    ];
    show(rt, &Slots { gate, slots })
}

// Document 000, Table I: a slot's guard of 1 stands before it, so that its runs are the table's slots.
fn show_one(rt: &impl Print) -> io::Result<()> {
    let gate = Gate {
        cycle: 20_000,
        guard: 1,
        header: 0,
    };
    let slots = &[
        Slot {
            start: 3_001,
            end: 6_000,
        },
        Slot {
            start: 7_001,
            end: 9_000,
        },
        Slot {
            start: 14_001,
            end: 18_000,
        },
    ];
    show(rt, &Slots { gate, slots })
}

fn main(rt: HostRuntime) -> io::Result<()> {
    show_f(&rt)?;
    show_one(&rt)
}
