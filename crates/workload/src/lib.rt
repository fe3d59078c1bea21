//! A large valid script from a number: posts, reads and edits for the built-in table of five elements, each
//! cycle as it is drawn from a stream of numbers (`make_script`).
#![tactic(auto)]

mod acts;
mod draws;
mod edits;
pub mod laws;
mod script;
#[cfg(test)]
mod tests;

pub use script::make_script;
