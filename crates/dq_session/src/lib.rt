//! Sessions: formulas that change between questions. Frames of clauses are opened and closed like a
//! stack's (as `push` and `pop` in SMT-LIB 2; C. Barrett, A. Stump, C. Tinelli, 2010), and each has
//! a group of its own for the instances of its clauses, which an active selector switches on (N.
//! Eén, N. Sörensson, "Temporal induction by incremental SAT solving", 2003).
#![tactic(auto)]

pub use databases::ClauseDatabase;
pub use live::Live;

mod databases;
mod formulas;
mod giving;
pub mod laws;
mod live;
