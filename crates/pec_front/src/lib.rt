//! Partial equivalence: whether the black boxes of an implementation can be filled such that it
//! agrees with its specification, as a DQBF.
#![tactic(auto)]

pub use box_lines::MAX_BOXES;
pub use boxes::BlackBox;
pub use designs::{Design, read_design};
pub use faults::{PecFault, PecStop};
pub use formulas::{formula, formula_of};

mod box_lines;
mod boxes;
mod copies;
mod designs;
mod encoders;
pub mod examples;
mod faults;
mod formulas;
mod kept_clauses;
pub mod laws;
mod layouts;
mod levels;
mod numberings;
mod prefixes;
mod wires;
