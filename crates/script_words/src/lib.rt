//! Lines of bytes, their words, and the words as values.
#![tactic(auto)]

pub mod fields;
pub mod lines;
mod refusals;

pub use refusals::Refused;
