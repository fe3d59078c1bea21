//! The top call (`top`): the words of a command, a source, a shelf, a fabric and a sink in, a status out.
//!
//! Its main clause (`told`) says from the bytes that were read which bytes are written: where `run` is done, they are the
//! report of the run of the script in the source's bytes on the table in the file's bytes.
#![tactic(auto)]

mod call;
pub mod cluster_laws;
mod commands;
pub mod completeness;
mod due;
mod frame_lines;
mod playing;
pub mod script_laws;
mod soak_line;
mod trials;
mod verdict_line;

pub use built_in_tables::{built_in_4, built_in_5};
pub use call::top;
pub use command_steps::Status;
pub use trials::{SoakTrial, played_totals};
pub use workload::make_script;
