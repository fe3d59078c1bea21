//! Rows of the audit of a trace: traces of four elements as they are, with a bit turned, and with lines that are cut, missing or
//! spelled otherwise.
#![tactic(auto)]

#[cfg(test)]
mod traces;
#[cfg(test)]
mod verdicts;
