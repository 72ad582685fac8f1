//! Circuits' proofs: whether the steps of a `dqp` show that a circuit makes every clause of a
//! formula true, for any number of universals.
//!
//! The lines refute the negated matrix, the clauses which say that the gates have their values and
//! some clause of the formula is false. Its clauses are read off the circuit and the formula as the
//! lines hint them, and variables are numbered as they occur, so that memory follows the lines that
//! are there, whatever numbers they name.
#![tactic(auto)]

pub use checks::by_proof;
pub use circuit_literals::opposite_of;
pub use faults::ProofFault;
pub use judging::CircuitProving;
pub use short_clauses::{ShortClause, short_of_three, short_of_two};

mod checks;
mod circuit_literals;
mod faults;
mod judging;
pub mod laws;
mod negated;
mod short_clauses;
mod tables;
