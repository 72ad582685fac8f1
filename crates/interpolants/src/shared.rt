//! Nodes over the nodes of shared variables.

ghost use Rattle.std.specs.Prelude.{◌≡◌, ℕ, Bool, List, [], ◌∷◌, ◌++◌, IfOk};
ghost use Rattle.dq_lits.specs.Literal.{Assignment, Literal, variable_of, literal_true};
ghost use Rattle.aig_graph.specs.Graph.{AigGraph, node_value, node_support, IsNode};
ghost use Rattle.aig_graph.specs.Made.{Extends};
ghost use Rattle.interpolants.specs.Interpolant.{AreNodes, ReadsShared};
ghost use Rattle.interpolants.specs.Parts.{IsSharedPart, IsAsked};

use crate::literal_sets::LiteralSet;
use crate::node_maps::NodeMap;
use aig_graph::{Graph, Node};
use dq_lits::{Lit, Memory};

/// The literals of a clause on shared variables: true where one of them is.
pub(crate) fn shared_part(
    graph: &mut Graph,
    shared: &NodeMap,
    clause: &[Lit],
) -> Result<Node, Memory>
    requires nodes { AreNodes shared.now graph.old }
    ensures extends { Extends graph.old graph.new }
    ensures part { IfOk result (IsSharedPart shared.now graph.new clause.now) }
{
    let mut node = Node::constant(false);
    for l in clause {
        node = or_shared(graph, shared, node, *l)?;
    }
    Ok(node)
}

/// True where a node is, and the shared literals of the A side that a clause negates are.
pub(crate) fn with_asked(
    graph: &mut Graph,
    assumed: &LiteralSet,
    shared: &NodeMap,
    clause: &[Lit],
    p: Node,
) -> Result<Node, Memory>
    requires nodes { AreNodes shared.now graph.old }
    requires node { IsNode graph.old p }
    requires reads { ReadsShared shared.now graph.old p }
    ensures extends { Extends graph.old graph.new }
    ensures asked { IfOk result (IsAsked shared.now assumed.now clause.now graph.old graph.new p) }
{
    let mut node = p;
    for l in clause {
        node = and_asked(graph, assumed, shared, node, *l)?;
    }
    Ok(node)
}

// A literal's node, by its variable's.
fn literal_node(n: Node, l: Lit) -> Node
    ensures node { (graph : AigGraph) → IsNode graph n → IsNode graph result }
    ensures value { (graph : AigGraph) (inputs : ℕ → Bool) (m : Assignment)
        → node_value graph inputs n ≡ m (variable_of l)
        → node_value graph inputs result ≡ literal_true m l }
    ensures support { (graph : AigGraph) → node_support graph result ≡ node_support graph n }
{
    if l.is_neg() { n.not() } else { n }
}

fn or_shared(graph: &mut Graph, shared: &NodeMap, node: Node, l: Lit) -> Result<Node, Memory>
    requires nodes { AreNodes shared.now graph.old }
    requires node { IsNode graph.old node }
    ensures extends { Extends graph.old graph.new }
    ensures more { IfOk result
        (λ n. (clause : List Literal) → IsSharedPart shared.now graph.old clause node
        → IsSharedPart shared.now graph.new (clause ++ l ∷ []) n) }
{
    match shared.get(l.var()) {
        Some(n) => {
            let made = graph.or(node, literal_node(n, l))?;
            Ok(made)
        }
        None => Ok(node),
    }
}

fn and_asked(
    graph: &mut Graph,
    assumed: &LiteralSet,
    shared: &NodeMap,
    node: Node,
    l: Lit,
) -> Result<Node, Memory>
    requires nodes { AreNodes shared.now graph.old }
    requires node { IsNode graph.old node }
    ensures extends { Extends graph.old graph.new }
    ensures more { IfOk result (λ n. (old : AigGraph) (clause : List Literal) (p : _)
        → IsAsked shared.now assumed.now clause old graph.old p node
        → IsAsked shared.now assumed.now (clause ++ l ∷ []) old graph.new p n) }
{
    if !assumed.has(l.not()) {
        return Ok(node);
    }
    match shared.get(l.var()) {
        Some(n) => {
            let made = graph.and(node, literal_node(n, l.not()))?;
            Ok(made)
        }
        None => Ok(node),
    }
}
