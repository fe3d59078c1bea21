//! A bench: a run on a mesh, by one thread, without words to read and without a report, for its totals.
//!
//! `bench CYCLES` plays the workload of the soak of 7 on the built-in table of five elements, and writes the line that
//! `ftpp sweep 7 1 CYCLES` writes. `bench CYCLES CASE` plays another case, and writes its totals in the same form:
//! `five` and `four` a steady exchange on the built-in tables, `most` that on a table of as many groups as there can be, 38,
//! and `lies` that of `five` where element 4 sends false bytes in each round, others to each receiver. They are there to be
//! timed (`tools/measure`).
#![tactic(auto)]

mod cases;
mod scripts;

use cases::{Case, START, played};
use ftpp_base::MOST_CYCLES;
use report_text::Totals;
use std::process::ExitCode;
use std::rt::Env;
use std::{env, io};

/// What the words ask for: the cycles, 1 to 100,000, and the case.
fn asked<R: Env + AllocGlobal>(rt: &R) -> io::Result<Option<(u32, Case)>> {
    let mut words = env::args(rt)?;
    let _name = words.next();
    let Some(cycles) = words.next() else {
        return Ok(None);
    };
    let case = match words.next() {
        Some(word) => Case::named(word.as_str()),
        None => Some(Case::Soak),
    };
    match (cycles.as_str().parse::<u32>(), case) {
        (Ok(cycles), Some(case)) if (1..=MOST_CYCLES).contains(&cycles) => Ok(Some((cycles, case))),
        _ => Ok(None),
    }
}

/// Writes the totals as `ftpp sweep` does.
fn show(rt: &impl Print, case: Case, totals: &Totals) -> io::Result<()> {
    let name = case.name();
    let Totals {
        cycles,
        served,
        discarded,
        idle,
        stored,
        overrun,
        syndromes,
    } = *totals;
    println!(rt;
        "{name} {START} cycles {cycles} served {served} discarded {discarded} idle {idle} stored {stored} overrun {overrun} syndromes {syndromes}"
    )
}

fn main(rt: HostRuntime) -> io::Result<ExitCode> {
    let Some((cycles, case)) = asked(&rt)? else {
        println!(rt; "usage: bench CYCLES [soak|five|four|most|lies]")?;
        return Ok(ExitCode::from(1));
    };
    match played(rt.alloc(), case, cycles) {
        Some(totals) => {
            show(&rt, case, &totals)?;
            Ok(ExitCode::from(0))
        }
        None => {
            println!(rt; "no memory, or more cycles than a script of this case can have")?;
            Ok(ExitCode::from(9))
        }
    }
}
