//! What is known of the existentials' functions before candidates are made: definitions that the
//! clauses state or force, guesses under conditions, and rules that rows force (F. Slivovsky,
//! "Interpolation-based semantic gate extraction and its applications to QBF preprocessing", 2020;
//! F.-X. Reichl, F. Slivovsky, S. Szeider, "Certified DQBF solving by definition extraction", 2021).
#![tactic(auto)]

pub use definitions::{Definitions, find_definitions};
pub use forcing::TableModel;

mod clashes;
mod conditions;
mod definitions;
mod forcing;
mod guessing;
mod known_inputs;
mod lawful_conditions;
mod occurrences;
mod questions;
mod samples;
mod stated_rules;
mod suspects;
mod walks;
