//! The solver: whether a formula is true or false, or whether black boxes can be filled, with a
//! certificate.
//!
//! `dqsolve_run` is a whole run of the program `dqsolve`: its contract says what is written and
//! with which status it ends. What is written with a verdict the checker accepts, by the laws of
//! `verdict_texts`.
#![tactic(auto)]

pub use run::dqsolve_run;

mod demos;
pub mod laws;
mod run;
