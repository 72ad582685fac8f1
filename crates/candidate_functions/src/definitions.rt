//! Definitions, with the outputs of the existentials that they read put in.

ghost use Rattle.std.specs.Prelude.{◌≡◌, ◌≤◌, ◌<◌, ◌+◌, ℕ, Bool, List, length, All, OnOk, None, Some, slice_index_or};
ghost use Rattle.dq_formula.specs.declared.rules.Rule.{Rule as RuleState};
ghost use Rattle.aig_graph.specs.Graph.{IsNode};
ghost use Rattle.aig_graph.specs.Made.{Extends};
ghost use Rattle.aig_graph.specs.declared.nodes.Node.{Node as NodeState};
ghost use Rattle.expansion.specs.Table.{PointBits, ArePoints};
ghost use Rattle.candidate_functions.specs.Candidates.{AreDefinitions};
ghost use Rattle.candidate_functions.specs.Pairs.{AreFirstOutputs};
ghost use Rattle.candidate_functions.specs.Settling.{IsPutAt, AreOutputs};

use aig_graph::{Graph, Node};
use definition_order::existentials_in_order;
use dq_formula::Formula;
use dq_lits::Memory;
use std::alloc::Global;

// Puts the definitions in their existentials' places, each with the outputs of the others put in
// for their inputs. A definition reads earlier existentials alone, so in this order their outputs
// are there.
pub(crate) fn put_definitions(
    alloc: Global,
    f: &Formula,
    ranks: &[usize],
    definitions: &[Option<Node>],
    nodes: &mut Vec<Node>,
    graph: &mut Graph,
) -> Result<(), Memory>
    requires inputs { graph.old.inputs ≡ length f.now.universals + length f.now.existentials }
    requires definitions { AreDefinitions f.now ranks.now graph.old definitions.now }
    requires one_each { length nodes.old.items ≡ length f.now.existentials }
    requires nodes { All (IsNode graph.old) nodes.old.items }
    ensures extends { Extends graph.old graph.new }
    ensures outputs { (rows : List (List Bool)) (points : PointBits) (rules : List RuleState)
        → ArePoints f.now rows points
        → AreFirstOutputs f.now rows points rules definitions.now graph.old
        (length f.now.existentials) nodes.old.items
        → OnOk result
        (AreOutputs f.now ranks.now rows points rules definitions.now graph.new nodes.new.items) }
{
    f.every_formula_is_lawful();
    let order = existentials_in_order(alloc, f, ranks)?;
    for at in 0..order.len() {
        let place = order[at];
        put_definition(definitions, place, nodes, graph)?;
    }
    Ok(())
}

// Where there is a definition at a place, puts it there among the nodes, with these put in for its
// last inputs.
fn put_definition(
    definitions: &[Option<Node>],
    place: usize,
    nodes: &mut Vec<Node>,
    graph: &mut Graph,
) -> Result<(), Memory>
    requires place { place < length nodes.old.items }
    requires few { length nodes.old.items ≤ graph.old.inputs }
    requires definition { (d : NodeState) → slice_index_or definitions.now place None ≡ Some d
        → IsNode graph.old d }
    requires nodes { All (IsNode graph.old) nodes.old.items }
    ensures extends { Extends graph.old graph.new }
    ensures put { OnOk result
        (IsPutAt graph.old graph.new (slice_index_or definitions.now place None) place
        nodes.old.items nodes.new.items) }
{
    if let Some(definition) = given_at(definitions, place) {
        nodes[place] = graph.put_in(definition, nodes)?;
    }
    Ok(())
}

// The node that is given at a place, if any.
pub(crate) fn given_at(nodes: &[Option<Node>], place: usize) -> Option<Node>
    ensures { result ≡ slice_index_or nodes.now place None }
{
    if place < nodes.len() {
        nodes[place]
    } else {
        None
    }
}
