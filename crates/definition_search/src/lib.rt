//! The definitions of all existentials of a formula, each with what shows it, as a text.
//!
//! The existentials are asked for in order of declaration. A definition that the clauses state, or
//! that the copies of the matrix show, is proved once more on the first copy, whose log has what its
//! block is written from; where there is none, two assignments say so.
#![tactic(auto)]

pub use texts::write_definitions;

pub mod laws;
mod searching;
mod texts;
