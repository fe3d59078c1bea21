//! Tests of the top call: rows over the forms in memory.
#![tactic(auto)]

#[cfg(test)]
mod audits;
#[cfg(test)]
mod bench;
#[cfg(test)]
mod diagnoses;
#[cfg(test)]
mod edges;
#[cfg(test)]
mod files;
#[cfg(test)]
mod gates;
#[cfg(test)]
mod nodes;
#[cfg(test)]
mod reports;
#[cfg(test)]
mod runs;
#[cfg(test)]
mod texts;
