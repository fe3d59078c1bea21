//! Tests of one element, step by step: four elements that exchange frames, with faults of all kinds.
#![tactic(auto)]

#[cfg(test)]
mod steps;
