//! Links and fabrics: how frames leave one element and come to another.
#![tactic(auto)]

mod fabrics;
mod links;

pub use fabrics::{Carried, Fabric, Liar, Mesh, Recorder};
pub use links::{Link, LinkEnd};
