//! Expansion refutations: whether the rows and steps of a `dqr` show that no choice of functions
//! solves a formula.
//!
//! The clauses of the formula are taken under each row of the universals (universal expansion), and
//! each line has to be derived from these instances and the lines before it by hinted unit
//! propagation. Neither the instances nor the pairs of rows and existentials are laid out: an
//! instance is made when a line hints it, and a pair gets its number when it first occurs.
#![tactic(auto)]

pub use checks::check;
pub use faults::RefFault;
pub use proving::RefutationProving;

mod bindings;
mod checks;
mod faults;
mod judging;
mod known_bases;
pub mod laws;
mod pair_names;
mod proving;
mod row_trees;
