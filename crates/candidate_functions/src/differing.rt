//! Where nodes have other bits than the points: there alone they are patched, so that a circuit
//! doesn't grow where a guess was right.
//!
//! Patched at all pairs, circuits are so large that counterexamples teach little (94 rounds in
//! place of 14). What isn't known of a node is patched unseen.

ghost use Rattle.std.specs.Prelude.{◌≡◌, ◌≤◌, ◌<◌, ◌+◌, ℕ, length, map, All, Contains, IfOk, IsTrue};
ghost use Rattle.dq_lits.specs.Row.{bit_of};
ghost use Rattle.aig_graph.specs.Graph.{IsNode, size_of, node_value};
ghost use Rattle.expansion.specs.Table.{point_bits};
ghost use Rattle.candidate_functions.specs.Differing.{HasBitAt, HasKnownPoint};

use crate::outputs::Known;
use aig_graph::{Graph, Node};
use dq_lits::{Memory, Row, RowList};
use std::alloc::Global;

// A node for each existential, and their bits at the first rows of the table.
#[derive(Drop)]
pub(crate) struct Others<'a> {
    pub nodes: &'a [Node],
    pub values: &'a RowList,
}

// One of the existentials, by its place, with its node.
#[derive(Drop)]
pub(crate) struct Own<'a> {
    pub place: usize,
    pub y: u64,
    pub node: Node,
    pub values: &'a RowList,
}

// The bits of nodes at a row.
pub(crate) fn values_at(
    alloc: Global,
    nodes: &[Node],
    row: &Row,
    graph: &Graph,
    buf: &mut Row,
) -> Result<Row, Memory>
    requires short { length row.now ≤ graph.now.inputs }
    requires nodes { All (IsNode graph.now) nodes.now }
    requires a_place_a_node { length buf.old ≡ size_of graph.now }
    ensures values { IfOk result
        (λ values. values ≡ map (node_value graph.now (bit_of row.now)) nodes.now) }
    ensures same_length { length buf.new ≡ length buf.old }
{
    let inputs = inputs_of(alloc, graph, row)?;
    let mut values = Row::new(alloc, nodes.len())?;
    graph.values(nodes, &inputs, buf, &mut values);
    Ok(values)
}

// A bit for each input of a graph: the row's, and false for those behind it.
fn inputs_of(alloc: Global, graph: &Graph, row: &Row) -> Result<Row, Memory>
    requires { length row.now ≤ graph.now.inputs }
    ensures long { IfOk result (λ inputs. length inputs ≡ graph.now.inputs) }
    ensures bits { IfOk result (λ inputs. (i : ℕ) → bit_of inputs i ≡ bit_of row.now i) }
{
    let mut inputs = Row::new(alloc, graph.inputs())?;
    for place in 0..row.len() {
        inputs.set(place, row.get(place));
    }
    Ok(inputs)
}

// Whether an existential's node is known to have its point at each row.
pub(crate) fn has_all_points(known: &Known, own: &Own) -> bool
    requires as_many { length known.now.points.now.rows ≡ length known.now.table.now.rows }
    requires existential { Contains known.now.points.now.variables own.now.y }
    ensures { IsTrue result → (k : ℕ) → k < length known.now.table.now.rows
        → HasKnownPoint own.now.values.now (point_bits known.now.points.now) own.now.y own.now.place
        (k + 1) }
{
    for k in 0..known.table.rows() {
        if !has_point(known, own, k + 1) {
            return false;
        }
    }
    true
}

// The same at the row of a round.
pub(crate) fn has_point(known: &Known, own: &Own, round: u64) -> bool
    requires from_one { 1 ≤ round }
    requires last { round ≤ length known.now.points.now.rows }
    requires existential { Contains known.now.points.now.variables own.now.y }
    ensures { IsTrue result
        → HasKnownPoint own.now.values.now (point_bits known.now.points.now) own.now.y own.now.place
        round }
{
    let point = known.points.bit(own.y, round);
    match own.values.items().get(round as usize - 1) {
        Some(row) => has_bit_at(row, own.place, point),
        None => false,
    }
}

fn has_bit_at(row: &Row, place: usize, bit: bool) -> bool
    ensures { IsTrue result → HasBitAt row.now place bit }
{
    place < row.len() && row.get(place) == bit
}
