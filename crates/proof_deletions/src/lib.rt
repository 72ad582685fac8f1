//! Deletions in a proof: behind each line go the derived clauses that it was the last to hint, so
//! that a checker holds no more clauses than later lines need.
#![tactic(auto)]

pub use deletions::with_deletions;

mod chains;
mod deletions;
mod last_uses;
pub mod laws;
