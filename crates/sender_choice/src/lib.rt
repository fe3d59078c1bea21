//! Choosers, which find the group that has waited longest.
#![tactic(auto)]

mod calls;
mod chooser;
mod index;
mod scan;

pub use calls::{ChoiceCall, drive};
pub use chooser::Chooser;
pub use index::IndexChooser;
pub use scan::ScanChooser;

#[cfg(test)]
mod tests;
