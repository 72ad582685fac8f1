//! Certificates from a proof log: the expansion refutation that an answer stands for.
//!
//! The derived clauses that the answer reaches become lines. Their variables get the names that the
//! format has for them, and literals that have none are left out. With fewer literals a hint can be
//! falsified before the last one, so each line is derived once more as it is written, and its hints
//! end there.
#![tactic(auto)]

pub use bases::Ground;
pub use circuits::export_true;
pub use naming::{Naming, given_names};
pub use new_names::Names;
pub use refutations::{clause_numbers, export_false};
pub use written::{LineSource, write_lines};

mod bases;
mod circuit_numbers;
mod circuits;
mod gates;
pub mod laws;
mod leaves;
mod lines;
mod naming;
mod negated;
mod netlists;
mod new_names;
mod pairs;
mod parts;
mod refutations;
mod rounds;
mod symbols;
mod written;
