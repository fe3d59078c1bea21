//! Tests of whole clusters: worked runs by one thread and by several, faults, a fabric that lies, and elements that rejoin.
#![tactic(auto)]

#[cfg(test)]
mod runs;
