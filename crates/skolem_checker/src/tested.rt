//! What the tests look at.

use circuit_plain::{Circuit, Order};
use dq_formula::Formula;

/// What the tests look at: a formula, and the circuit that is tested against it.
#[derive(Drop)]
pub(crate) struct Tested<'f, 'c, 'o, 'l, 'i> {
    pub(crate) formula: &'f Formula,
    pub(crate) circuit: &'c Circuit,
    /// An order of the circuit's gates.
    pub(crate) order: &'o Order,
    /// By variable of the formula, the literal of a universal's input or an existential's output.
    pub(crate) literals: &'l [u64],
    /// By input of the circuit, the universal that it stands for.
    pub(crate) by_input: &'i [u64],
}
