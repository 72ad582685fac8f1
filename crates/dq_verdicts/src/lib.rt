//! The search on a formula, and its verdict with what is written of it.
//!
//! `solve` searches and writes, and `solve_prepared` does so on what unit propagation with universal
//! reduction leaves of the formula; `demonstrate` searches a true formula and has the certificate
//! judged. What is written, and that the checker accepts it, is `verdict_texts`.
#![tactic(auto)]

pub use demonstrations::{Demonstration, demonstrate};
pub use prepared::solve_prepared;
pub use statuses::SolveStatus;
pub use verdicts::solve;

mod demonstrations;
mod prepared;
mod statuses;
mod verdicts;
