//! And-inverter graphs, structurally hashed: gates over earlier nodes, each node's value, and the
//! inputs that it reads.
//!
//! A node is plain data, and belongs to the graph that made it. Equal gates are made once, and
//! gates with equal, opposite or constant sides, or of a gate and one of its own sides, are not
//! made at all; no contract speaks of that.
#![tactic(auto)]

pub use graphs::Graph;
pub use nodes::{Look, Node};

mod cone_gates;
mod gates;
mod graphs;
pub mod laws;
mod nodes;
mod substituting;
mod supports;
mod values;
mod words;
