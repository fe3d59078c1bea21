//! Fault scripts: how long a run is, what its processors ask for, what the faulty element does to its
//! frames, and who rejoins. They are read to the first refused line, and printed in canonical form.
#![tactic(auto)]

mod items;
mod judge;
pub mod laws;
mod print;
mod reading;

use fault_script::Edit;
use ftpp_base::Ne;
use packet_format::Act;
pub use print::print_script;
pub use reading::read_script;
use thiserror::Error;

/// The most bytes of a script, and of a trace.
pub const MOST_SCRIPT_BYTES: usize = 8_388_608;

/// What is asked of a run.
#[derive(Debug, Drop)]
pub struct Script {
    /// The length of the run, 1 to 100,000.
    pub cycles: u32,
    /// The element that is faulty from the start on.
    pub faulty: Option<Ne>,
    /// What processors do, with its cycle; cycles do not fall.
    pub acts: Vec<(u32, Act)>,
    /// What is done to frames of the faulty element; cycles do not fall.
    pub edits: Vec<Edit>,
    /// The cycles before which the faulty element rejoins, with the element that is faulty from then on.
    pub rejoins: Vec<(u32, Option<Ne>)>,
}

/// Why a script was not read.
#[derive(Debug, Drop, PartialEq, Eq, Error)]
pub enum ScriptError {
    /// The first refused line, from 1, and its first code.
    #[error("At")]
    At { line: u32, code: u8 },
    #[error("Memory")]
    Memory,
}
