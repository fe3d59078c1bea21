//! The agreed state at the beginning of a cycle as bytes, from which an element begins that rejoins.
#![tactic(auto)]

pub mod laws;
mod reading;
mod writing;

use config_table::{StateRow, Table};
use ftpp_base::{MOST_GROUPS, Row};
pub use reading::decode_state;
pub use writing::encode_state;

/// The bytes of a state.
pub const STATE_BYTES: usize = 1887;

/// The last cycle that a state can be of.
pub(crate) const LAST_CYCLE: u32 = 100_000;

/// What the elements agree on at the beginning of a cycle.
#[derive(Drop)]
pub struct AgreedState {
    /// The cycle, at most 100,000.
    pub cycle: u32,
    pub table: Table,
    /// What the scoreboard keeps of each group, in the order of the table.
    pub rows: Row<StateRow, MOST_GROUPS>,
}
