//! Configuration files: a table read from a TOML document, and printed as one.
#![tactic(auto)]

mod errors;
mod fields;
mod keys;
mod laws;
mod printing;
mod reading;
mod values;

pub use errors::{ConfigKey, Place, TextError};
pub use laws::reads_four_elements;
pub use printing::print_config;
pub use reading::read_config;
