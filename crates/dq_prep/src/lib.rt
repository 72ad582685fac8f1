//! Preparation: universal reduction and unit propagation, to the end, which leave a simpler formula
//! that the same choices solve.
#![tactic(auto)]

pub use preparation::prep;
pub use traces::{Taken, Trace};

pub mod examples;
mod kept_clauses;
pub mod laws;
mod preparation;
mod roles;
mod sights;
mod takings;
mod tautologies;
mod traces;
mod waiting;
