//! What `trace` writes for a script without a rejoin, `audit` of its faulty element answers `follows`. On the way there: what
//! comes from outside in a played run is as the laws over whole runs ask, its frames are those of the run, and the text of a
//! trace is read back to its frames. The laws speak of the definitions alone.
#![tactic(auto)]

pub mod laws;
