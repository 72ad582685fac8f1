//! Circuits for a formula, and their values at a row.

ghost use Rattle.std.specs.Prelude.{◌≡◌, ◌≤◌, ℕ, length, map, All, IfOk};
ghost use Rattle.dq_lits.specs.Row.{bit_of};
ghost use Rattle.aig_graph.specs.Graph.{IsNode, node_value};

use aig_graph::{Graph, Node};
use dq_formula::Formula;
use dq_lits::{Memory, Row};
use std::alloc::Global;

/// A circuit of a graph for a formula: a node for each existential, in order.
#[derive(Drop)]
pub(crate) struct Circuit<'g, 'f, 'o> {
    pub graph: &'g Graph,
    pub f: &'f Formula,
    pub outputs: &'o [Node],
    ghost an_input_a_universal: { length f.now.universals ≤ graph.now.inputs },
    ghost a_node_an_existential: { length outputs.now ≡ length f.now.existentials },
}

impl Circuit<'_, '_, '_> {
    /// The outputs' values at a row of the universals.
    pub(crate) fn values_at(&self, alloc: Global, row: &Row) -> Result<Row, Memory>
        requires room { length row.now ≤ self.now.graph.now.inputs }
        requires nodes { All (IsNode self.now.graph.now) self.now.outputs.now }
        ensures { IfOk result (λ values. values
            ≡ map (node_value self.now.graph.now (bit_of row.now)) self.now.outputs.now) }
    {
        let graph = self.graph;
        let inputs = lengthened(alloc, row, graph.inputs())?;
        let mut buf = Row::new(alloc, graph.len())?;
        let mut values = Row::new(alloc, self.outputs.len())?;
        graph.values(self.outputs, &inputs, &mut buf, &mut values);
        Ok(values)
    }
}

// A row of so many bits that begins with these, and is false behind them.
fn lengthened(alloc: Global, row: &Row, n: usize) -> Result<Row, Memory>
    requires { length row.now ≤ n }
    ensures length { IfOk result (λ longer. length longer ≡ n) }
    ensures bits { IfOk result (λ longer. (i : ℕ) → bit_of longer i ≡ bit_of row.now i) }
{
    let mut longer = Row::new(alloc, n)?;
    for place in 0..row.len() {
        longer.set(place, row.get(place));
    }
    Ok(longer)
}
