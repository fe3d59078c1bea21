//! Trials and their outcomes.
ghost use Rattle.std.specs.Prelude.{◌≡◌, ℕ, IfOk};

use ftpp_base::NoMemory;
use std::alloc::Global;
use std::marker::Sync;

/// The number of totals in an outcome.
pub const TOTALS: usize = 7;

/// What a trial gives: the number that it started from, and its totals.
#[derive(Clone, Copy, Debug, PartialEq, Eq)]
pub struct Outcome {
    pub start: u64,
    pub totals: [u64; TOTALS],
}

/// A trial that can be run from any number. Its outcome depends on that number alone.
pub trait Trial: Sync {
    ghost use Rattle.campaign.specs.declared.trial.Outcome.{Outcome};

    /// The outcome of each start.
    ghost outcome: { Self → ℕ → Outcome };

    /// Runs the trial from one start, which is any number.
    ///
    /// # Errors
    ///
    /// [`NoMemory`] where the system gives no memory.
    fn run(&self, alloc: Global, start: u64) -> Result<Outcome, NoMemory>
        ensures { IfOk result (λ o. o ≡ outcome self.now start) };
}
