//! The steps of a command that need no cluster: how a call ends (`Status`), the lines of refusals, the table of a
//! configuration file (`load_table`), the script of a source (`load_script`), and what `check`, `migrate` and `make` write.
//!
//! Each step either gives a value and writes nothing, or ends the call; where the source and the shelf tell their bytes,
//! the clauses say which.
#![tactic(auto)]

mod files;
pub mod laws;
mod lines;
mod refusals;
mod runs;
mod scripts;
mod status;
mod tables;

pub use files::load_table;
pub use lines::{Line, number, piece};
pub use refusals::{refuse_config, refuse_length, refuse_script, refuse_words};
pub use runs::{load_element, load_named, load_run};
pub use scripts::{load_bytes, load_script};
pub use status::Status;
pub use tables::{check, make, migrate};
