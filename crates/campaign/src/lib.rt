//! Trials of consecutive starts, run side by side in threads. The outcomes come in the order of the
//! starts.
#![tactic(auto)]

mod sweeping;
#[cfg(test)]
mod tests;
mod trial;

pub use sweeping::{MOST_TRIALS, sweep};
pub use trial::{Outcome, TOTALS, Trial};
