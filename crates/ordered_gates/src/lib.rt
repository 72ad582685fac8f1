//! Gates with their greater side first, as AIGER's binary form has them, in a circuit and in a proof
//! over it: a proof hints the clauses of a gate's sides by their places.
#![tactic(auto)]

pub use circuits::ordered_circuit;
pub use items::ordered_items;

mod circuits;
mod ids;
mod items;
pub mod laws;
