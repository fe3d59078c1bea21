//! Who can be the faulty element, by what an element noted of copies, and which members to mask.
//!
//! `Suspects` keeps the elements that every entry of copies named so far. `proposals` masks the members at an element, each on
//! the table that the earlier masks left: every one is done, and what is left would break a clause of a valid table.
#![tactic(auto)]

pub mod laws;
mod lines;
mod masks;
mod suspects;

pub use lines::{DiagnosisText, ROOM, diagnosis_text, least};
pub use masks::proposals;
pub use suspects::Suspects;
