//! Circuits in the form of AIGER's combinational netlists: and-gates over inputs, with literals as
//! outputs.
//!
//! A contract sees a circuit as the plain record of its netlist. `specs/` defines the value of a
//! variable, what a variable reaches and which gates can be ordered, as relations over gates in any
//! order; `order` sorts the gates, and along its order `eval` and `reads` compute the first two,
//! and `eval_block` the values under 256 rows at once. The laws in `laws` tie the definitions
//! together.
#![tactic(auto)]

pub use blocks::{Block, literal_lanes};
pub use circuits::{Circuit, Gate};
pub use orders::{Order, OrderStop};
pub use values::literal_bit;

mod block_values;
mod blocks;
mod circuits;
mod cones;
pub mod lanes;
pub mod laws;
mod numbered;
mod orders;
mod sorting;
mod values;
mod walks;
