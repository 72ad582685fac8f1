//! The search by counterexamples: candidates from a model of the expansion, a check of the
//! circuits, and a row more where they fail (the loop of Pedant: F.-X. Reichl, F. Slivovsky, S.
//! Szeider, "Certified DQBF solving by definition extraction", 2021).
#![tactic(auto)]

pub use decisions::{Verdict, decide};
pub use search_states::SearchState;

mod candidates;
mod decisions;
mod drawn_rows;
mod draws;
mod false_rows;
mod first_copies;
mod first_looks;
mod first_rounds;
mod judging;
pub mod laws;
mod premises;
mod preservation;
mod search_states;
mod searches;
mod signs;
mod unseen_turns;
mod worse_rows;
