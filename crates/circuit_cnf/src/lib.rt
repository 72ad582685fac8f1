//! Circuits against the matrix, as clauses of a shared solver: an answer that rests on them shows
//! that the outputs are right.
#![tactic(auto)]

pub use checkers::Checker;
pub use trying::{Failure, failure_at};
pub use turns::Turn;

mod batches;
mod checkers;
mod circuits;
mod doubts;
mod failures;
mod fault_clauses;
mod few_rows;
mod gates;
pub mod laws;
mod leaves;
mod trying;
mod turns;
