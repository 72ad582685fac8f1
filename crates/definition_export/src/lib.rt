//! Definitions' blocks from a proof log: the circuit and the proof that an answer stands for which
//! shows a definition on the first copy of a formula's matrix.
#![tactic(auto)]

pub use blocks::export_definition;
pub use terms::TermOrder;

mod bases;
mod blocks;
pub mod laws;
mod needed;
mod numbers;
mod places;
mod terms;
