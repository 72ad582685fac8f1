//! One solver that several tenants share: its calls, by what it holds and what the proof log says.
//!
//! A tenant puts its clauses into groups of its own, each with a selector, and asks for values
//! under which the clauses of some groups and some assumptions are true. Clauses of other groups
//! are never the reason for an answer. What was learned or answered stands in the log with its
//! hints.
#![tactic(auto)]

pub use groups::{Group, Tenant};
pub use oracles::{Answer, Oracle};

mod groups;
pub mod laws;
mod oracles;
