//! A solver that learns clauses, with propagation that scans all clauses held: a second
//! implementation, beside which tests set the other one.
//!
//! It implements the trait of a shared solver. A search propagates to the end before each decision,
//! learns by first unique implication points, and goes back to where what it learned is unit. Every
//! answer is a clause of the log, with its hints.
#![tactic(auto)]

pub use solvers::Scan;

mod calls;
mod clauses;
mod decisions;
mod learning;
mod passes;
mod scans;
mod search;
mod searchers;
mod solvers;
