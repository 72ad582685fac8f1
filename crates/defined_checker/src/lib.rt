//! Definitions of existentials: whether a text of definitions shows which existentials are functions
//! of what they may read wherever the matrix is true, and which aren't (A. Padoa, 1900; E. Beth, 1953).
//!
//! `check` judges a text for a formula. The laws in `laws` say that what is accepted is right.
#![tactic(auto)]

pub use checks::{DefinedCounts, check};
pub use faults::{DefStop, DefinitionFault};

mod bases;
mod checks;
mod faults;
mod judging;
pub mod laws;
mod leaves;
mod pairs;
mod reads;
mod steps;
