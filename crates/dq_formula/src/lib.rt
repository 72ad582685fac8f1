//! DQBF formulas: the prefix, with a dependency set for each existential, and the matrix.
//!
//! A contract sees a `Formula` as the plain record of dq_lits, so two formulas that hold the same
//! dependency sets in different forms are equal to it.
#![tactic(auto)]

pub use dependencies::{Deps, Vars};
pub use formula::{Formula, MAX_CLAUSES, MAX_VARIABLES, MAX_XOR};
pub use laws::xor_clauses_are_exact;
pub use rules::Rule;
pub use sets::is_subset;

mod blocks;
mod dependencies;
mod existentials;
mod formula;
mod laws;
mod leaders;
mod matrix;
mod rules;
mod sets;
mod xors;
