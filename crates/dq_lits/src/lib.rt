//! Literals, clauses and rows, and what a DQBF means.
//!
//! The types are exact: a contract sees a literal as a signed number, a clause as a list of
//! literals and a row as a list of bits. `specs/` defines what a formula means, and what a
//! certificate of its truth or falsehood proves; the laws in `laws` tie these definitions together.
//! What a literal is where some are true is the base of unit propagation, by hints and by search;
//! nothing is propagated here.
#![tactic(auto)]

pub use clauses::Clause;
pub use lists::{Ids, RowList};
pub use literals::Lit;
pub use memory::Memory;
pub use rows::Row;
pub use truth_values::{TruthValue, truth_value};

mod clauses;
pub mod examples;
pub mod laws;
mod lists;
mod literals;
mod memory;
mod rows;
mod truth_values;
