//! The words of a command line, read exactly by the table of commands (`read_words`).
#![tactic(auto)]

mod commands;
mod numbers;
mod options;
mod reading;
#[cfg(test)]
mod tests;

pub use commands::Command;
pub use reading::read_words;
