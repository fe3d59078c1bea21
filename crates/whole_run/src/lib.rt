//! Laws over whole runs: equal and unchanged entries, overruns, accuracy of what is noted, service within a bound, and no loss
//! within the skew. They speak of the definitions alone; the cluster carries them over to its elements.
#![tactic(auto)]

pub mod laws;
