//! The audit of a trace: whether its frames follow the rules, but for one named element or none. What is expected of each
//! frame is told by the frames before it. `Auditor::next` is true exactly where a frame is the expected one or is of the
//! named element, and `audit_text` gives the verdict on the text of a trace, or its first refused line.
#![tactic(auto)]

mod audit;
mod auditor;
mod due;
mod expected;
pub mod laws;
mod lines;
mod links;
mod patterns;
mod rounds_told;
mod shown;
mod told;
mod watched;

pub use audit::{Verdict, audit_text};
pub use auditor::Auditor;
