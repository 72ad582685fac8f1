//! Cubes of rows: nodes that are true where the inputs have a row's bits at some places.

ghost use Rattle.std.specs.Prelude.{◌≡◌, ◌<◌, map, All, IfOk};
ghost use Rattle.aig_graph.specs.Made.{Extends};
ghost use Rattle.candidate_functions.specs.Pairs.{row_literal, IsRowCube};
ghost use Rattle.row_pairs.specs.Pairs.{HasPlaces};

use aig_graph::{Graph, Node};
use dq_lits::{Memory, Row};
use std::alloc::Global;

// A pair that is to be patched, by its round, and a node that is true where the inputs have the bits
// of its row at the places that are seen.
#[derive(Clone, Copy)]
pub(crate) struct Pair {
    pub round: u64,
    pub cube: Node,
}

// A node that is true where the inputs at these places have the row's bits.
pub(crate) fn row_cube(
    alloc: Global,
    places: &[usize],
    row: &Row,
    graph: &mut Graph,
) -> Result<Node, Memory>
    requires row { HasPlaces places.now row.now }
    requires places { All (λ p. p < graph.old.inputs) places.now }
    ensures extends { Extends graph.old graph.new }
    ensures cube { IfOk result (IsRowCube graph.new places.now row.now) }
{
    let literals = row_literals(alloc, places, row)?;
    graph.cube(&literals)
}

fn row_literals(alloc: Global, places: &[usize], row: &Row) -> Result<Vec<Node>, Memory>
    requires { HasPlaces places.now row.now }
    ensures { IfOk result (λ nodes. nodes.items ≡ map (row_literal row.now) places.now) }
{
    let mut literals = Vec::new(alloc);
    for p in places {
        literals.push(Node::Input(*p, !row.get(*p)))?;
    }
    Ok(literals)
}
