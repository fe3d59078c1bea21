//! What the suspects are in every run: the faulty element is among those of each other element, and where there is none, all
//! others are left. So it is of what `diagnose` writes on every script that can be played. The laws speak of the definitions alone.
#![tactic(auto)]

pub mod laws;
#[cfg(test)]
mod tests;
