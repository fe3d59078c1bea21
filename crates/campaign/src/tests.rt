//! What no clause says: that two trials run at the same time, that each enters the gate first, and
//! that there is memory enough.
ghost use Rattle.std.specs.Prelude.{◌≡◌, replicate};

use crate::{Outcome, TOTALS, Trial, sweep};
use ftpp_base::{Gate, NoMemory, OpenGate};
use std::alloc::Global;
use std::sync::atomic::{AtomicU64, Ordering};
use std::test::Fail;

/// How often the first caller of a meeting looks whether a second has come.
const MOST_LOOKS: u64 = 1_000_000_000;

/// The first start of the trials that meet.
const FIRST: u64 = 7;

/// The outcome of each start has that start as each of its totals.
fn outcome_of(start: u64) -> Outcome
    ensures { result ≡ record { start = start; totals = replicate TOTALS start } }
{
    Outcome {
        start,
        totals: [start; TOTALS],
    }
}

/// A gate whose first caller waits until a second has entered, for a limited number of looks.
#[derive(Drop)]
struct Meeting {
    /// One bit for each place that has entered.
    entered: AtomicU64,
    /// 1 if no second caller came.
    gave_up: AtomicU64,
}

/// The bit of a place.
fn bit_of(place: u64) -> u64 {
    1 << place.min(63)
}

impl Gate for Meeting {
    fn enter(&self, place: u32) {
        let mine = bit_of(u64::from(place));
        if self.entered.fetch_add(mine, Ordering::SeqCst) != 0 {
            return;
        }
        for _ in 0..MOST_LOOKS {
            if self.entered.load(Ordering::SeqCst) != mine {
                return;
            }
        }
        self.gave_up.store(1, Ordering::SeqCst);
    }
}

/// Trials that notice a trial whose place has not entered yet.
#[derive(Drop)]
struct Watching<'a> {
    gate: &'a Meeting,
    /// 1 if a trial ran before it entered.
    early: AtomicU64,
}

impl Trial for Watching<'_> {
    ghost use Rattle.campaign.specs.declared.trial.TheConstants.{TOTALS};

    ghost outcome = { λ _ start. record { start = start; totals = replicate TOTALS start } };

    fn run(&self, _alloc: Global, start: u64) -> Result<Outcome, NoMemory> {
        let mine = bit_of(start.wrapping_sub(FIRST));
        if self.gate.entered.load(Ordering::SeqCst) & mine == 0 {
            self.early.store(1, Ordering::SeqCst);
        }
        Ok(outcome_of(start))
    }
}

#[test]
fn two_trials_run_at_the_same_time(rt: HostRuntime) -> Result<(), Fail> {
    let gate = Meeting {
        entered: AtomicU64::new(0),
        gave_up: AtomicU64::new(0),
    };
    let trial = Watching {
        gate: &gate,
        early: AtomicU64::new(0),
    };
    let outcomes = sweep(&rt, rt.alloc(), &trial, &gate, FIRST, 4)?;
    assert_eq!(rt; gate.gave_up.load(Ordering::SeqCst), 0);
    assert_eq!(rt; gate.entered.load(Ordering::SeqCst), 0b1111);
    assert_eq!(rt; trial.early.load(Ordering::SeqCst), 0);
    assert_eq!(rt;
        outcomes.as_slice(),
        [7, 8, 9, 10].map(outcome_of).as_slice()
    );
    Ok(())
}

/// Trials that get no memory at one start.
#[derive(Drop)]
struct Failing {
    at: u64,
}

impl Trial for Failing {
    ghost use Rattle.campaign.specs.declared.trial.TheConstants.{TOTALS};

    ghost outcome = { λ _ start. record { start = start; totals = replicate TOTALS start } };

    fn run(&self, _alloc: Global, start: u64) -> Result<Outcome, NoMemory> {
        if start == self.at {
            return Err(NoMemory);
        }
        Ok(outcome_of(start))
    }
}

#[test]
fn starts_ascend_and_failures_count(rt: HostRuntime) -> Result<(), Fail> {
    for (first, count, last) in [
        (0, 1, Some(0)),
        (11, 3, Some(13)),
        (u64::MAX - 63, 64, Some(u64::MAX)),
        (10, 1, None),
        (7, 4, None),
        (7, 3, Some(9)),
    ] {
        let outcomes = sweep(
            &rt,
            rt.alloc(),
            &Failing { at: 10 },
            &OpenGate,
            first,
            count,
        );
        let ended = outcomes.ok().and_then(|all| all.last().map(|it| it.start));
        assert_eq!(rt; ended, last, "{first} {count}");
    }
    Ok(())
}
