//! Circuits as certificates: whether a circuit is made of Skolem functions of a formula.
//!
//! A `Bench` maps a circuit's inputs to the formula's universals and its outputs to the
//! existentials. Then `reads_ok` tests that each output reaches inputs alone that its existential
//! may depend on, and `by_all_rows` that every clause is true under every row of the universals. A
//! circuit that passes both shows that the formula is true.
#![tactic(auto)]

pub use bench::Bench;
pub use mapping::{BenchStop, MapError, MapName, MapPlace};

mod bench;
mod cones;
mod ends;
pub mod laws;
mod mapping;
mod reads;
mod renumbering;
mod rows;
mod sights;
mod tables;
mod tested;
mod words;
