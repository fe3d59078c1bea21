//! The eight ports of one element.
#![tactic(auto)]

mod members;
mod ports;
mod serving;
mod showing;
mod updating;

pub use ports::Ports;
