//! Tables of groups, and the values that the crates above hand to each other.
#![tactic(auto)]

mod checks;
mod decisions;
mod errors;
mod groups;
mod limits;
mod lookups;
mod tables;

pub use decisions::{Decision, GroupFlags, Kind, Service, StateRow, VotedFlags};
pub use errors::ConfigError;
pub use groups::Group;
pub use limits::{FEWEST_MANAGERS, LONGEST_WAIT, MOST_SLOTS, USUAL_INS, USUAL_OUTS};
pub use tables::Table;
