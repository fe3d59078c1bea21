//! Gates, which the steps of a parallel call enter before they begin.

use std::marker::Sync;

/// Each step of a parallel call enters the gate first, with its place. The gate promises only that it
/// returns, and no result depends on it. Tests use it to see that two steps run at the same time.
pub trait Gate: Sync {
    /// Returns.
    fn enter(&self, place: u32);
}

/// The gate that returns at once.
#[derive(Clone, Copy, Debug)]
pub struct OpenGate;

impl Gate for OpenGate {
    fn enter(&self, _place: u32) {}
}
