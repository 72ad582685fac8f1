//! A node with the points' bits at the pairs, and the value of another one elsewhere.

ghost use Rattle.std.specs.Prelude.{◌≡◌, ◌≤◌, false, length, All, Contains, IfOk, IsTrue};
ghost use Rattle.aig_graph.specs.Graph.{IsNode};
ghost use Rattle.aig_graph.specs.Made.{Extends};
ghost use Rattle.expansion.specs.Table.{point_bits};
ghost use Rattle.candidate_functions.specs.Pairs.{AreRounds, has_bit, IsWith, IsAtPair, IsMasked, IsPatched};

use crate::cubes::Pair;
use aig_graph::{Graph, Node};
use dq_lits::Memory;
use expansion::Points;

// Where the inputs are at one of the pairs, the existential's bit there; elsewhere the value of the
// other node.
pub(crate) fn patched(
    pairs: &[Pair],
    points: &Points,
    y: u64,
    other: Node,
    graph: &mut Graph,
) -> Result<Node, Memory>
    requires rounds { AreRounds (length points.now.rows) pairs.now }
    requires cubes { All (λ p. IsNode graph.old p.cube) pairs.now }
    requires existential { Contains points.now.variables y }
    requires other { IsNode graph.old other }
    ensures extends { Extends graph.old graph.new }
    ensures patched { IfOk result
        (IsPatched graph.old graph.new (point_bits points.now) y pairs.now other) }
{
    let rest = masked(pairs, points, y, other, graph)?;
    let ones = at_pair(pairs, points, y, true, graph)?;
    graph.or(ones, rest)
}

// The other node, but false where the inputs are at a pair whose bit is false. A node that is false
// everywhere takes no gate for that.
fn masked(
    pairs: &[Pair],
    points: &Points,
    y: u64,
    other: Node,
    graph: &mut Graph,
) -> Result<Node, Memory>
    requires rounds { AreRounds (length points.now.rows) pairs.now }
    requires cubes { All (λ p. IsNode graph.old p.cube) pairs.now }
    requires existential { Contains points.now.variables y }
    requires other { IsNode graph.old other }
    ensures extends { Extends graph.old graph.new }
    ensures masked { IfOk result
        (IsMasked graph.old graph.new (has_bit false (point_bits points.now) y) pairs.now other) }
{
    if is_false(other) {
        return Ok(other);
    }
    let zeros = at_pair(pairs, points, y, false, graph)?;
    graph.and(other, zeros.not())
}

fn is_false(node: Node) -> bool
    ensures { IsTrue result → node ≡ Node.Constant false }
{
    match node {
        Node::Constant(b) => !b,
        _ => false,
    }
}

// A node that is true where the inputs are at a pair with this bit.
fn at_pair(
    pairs: &[Pair],
    points: &Points,
    y: u64,
    bit: bool,
    graph: &mut Graph,
) -> Result<Node, Memory>
    requires rounds { AreRounds (length points.now.rows) pairs.now }
    requires cubes { All (λ p. IsNode graph.old p.cube) pairs.now }
    requires existential { Contains points.now.variables y }
    ensures extends { Extends graph.old graph.new }
    ensures at_pair { IfOk result
        (IsAtPair graph.old graph.new (has_bit bit (point_bits points.now) y) pairs.now) }
{
    let mut made = Node::constant(false);
    for pair in pairs {
        let is_one = has_bit(points, y, pair.round, bit);
        made = with_cube(made, is_one, pair.cube, graph)?;
    }
    Ok(made)
}

fn has_bit(points: &Points, y: u64, round: u64, bit: bool) -> bool
    requires from_one { 1 ≤ round }
    requires last { round ≤ length points.now.rows }
    requires existential { Contains points.now.variables y }
    ensures { result ≡ has_bit bit (point_bits points.now) y round }
{
    points.bit(y, round) == bit
}

fn with_cube(made: Node, is_one: bool, cube: Node, graph: &mut Graph) -> Result<Node, Memory>
    requires made { IsNode graph.old made }
    requires cube { IsNode graph.old cube }
    ensures extends { Extends graph.old graph.new }
    ensures with { IfOk result (IsWith graph.old graph.new made is_one cube) }
{
    if is_one {
        graph.or(made, cube)
    } else {
        Ok(made)
    }
}
