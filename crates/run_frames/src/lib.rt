//! The frames of a run: a node that gets them writes the answers and frames of its element in the run, and such frames exist
//! for every run, so its trace follows. The laws speak of the definitions alone.
#![tactic(auto)]

pub mod laws;
