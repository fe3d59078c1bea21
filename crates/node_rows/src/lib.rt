//! Rows of a node over byte streams: the silent node, where an input breaks, reads and writes that fail, small pieces, and
//! the order of reads and writes.
#![tactic(auto)]

#[cfg(test)]
mod bench;
#[cfg(test)]
mod order;
#[cfg(test)]
mod streams;
