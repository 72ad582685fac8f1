//! Formulas to show a solver at work: true by functions that are planted in them.
//!
//! `planted_formula` makes the formula of a seed and a size. The laws in `laws` say that the
//! formulas are true, each by the functions that are planted in it.
#![tactic(auto)]

pub use formulas::{MAX_SEED, MAX_SIZE, planted_formula};

mod clauses;
mod draws;
pub mod examples;
mod formulas;
mod gates;
pub mod laws;
