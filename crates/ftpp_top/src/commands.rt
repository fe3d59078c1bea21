//! The commands, one a file: those that run a cluster, one element, or an audit.

pub(crate) mod audit;
pub(crate) mod diagnose;
pub(crate) mod node;
pub(crate) mod play;
pub(crate) mod run;
pub(crate) mod soak;
pub(crate) mod sweep;
pub(crate) mod trace;
