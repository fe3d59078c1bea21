//! The configurations that are built in: tables of four and of five elements, which the clauses give group by
//! group (`built_in_4`, `built_in_5`).
#![tactic(auto)]

mod tables;
#[cfg(test)]
mod tests;

pub use tables::{built_in_4, built_in_5};
