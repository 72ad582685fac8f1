//! The partial interpolants of the clauses that an answer reaches.

ghost use Rattle.std.specs.Prelude.{◌≡◌, ℕ, List, IfOk, OnOk, IfSome, Some};
ghost use Rattle.hint_log.specs.Conditions.{IsId};
ghost use Rattle.hint_log.specs.Reached.{Reaches, AreReached};
ghost use Rattle.aig_graph.specs.Made.{Extends};
ghost use Rattle.interpolants.specs.Interpolant.{AreNodes, SharesAll};
ghost use Rattle.interpolants.specs.Replay.{AreDerived};
ghost use Rattle.interpolants.specs.Sides.{IsSide};
ghost use Rattle.interpolants.specs.Splits.{partition_of, local_of};
ghost use Rattle.interpolants.specs.Parts.{IsPartOf, HasPart, AreNoted};

use crate::lines::derived_part;
use crate::node_maps::NodeMap;
use crate::shared::shared_part;
use crate::sides::is_on_side;
use crate::splits::Split;
use aig_graph::{Graph, Node};
use dq_lits::Memory;
use hint_log::laws::reached_are_ids;
use std::alloc::Global;

/// Notes the partial interpolant of each clause that an answer reaches.
pub(crate) fn note_all(
    alloc: Global,
    split: &Split,
    ids: &[u64],
    notes: &mut NodeMap,
    graph: &mut Graph,
) -> Result<(), Memory>
    requires id { IsId split.now.log.now.entries split.now.id }
    requires derived { AreDerived split.now.log.now.entries }
    requires side { IsSide (partition_of split.now) split.now.side.now }
    requires shares { SharesAll (partition_of split.now) }
    requires ids { AreReached split.now.log.now.entries split.now.id ids.now }
    requires nodes { AreNodes split.now.shared.now graph.old }
    ensures extends { Extends graph.old graph.new }
    ensures parts { OnOk result ((at : ℕ) → Reaches split.now.log.now.entries split.now.id at
        → HasPart (partition_of split.now) (local_of split.now) graph.new notes.new at) }
{
    split.log.every_log_is_lawful();
    reached_are_ids();
    for at in ids {
        let node = part(alloc, split, *at, notes, graph)?;
        notes.put(*at, node)?;
    }
    Ok(())
}

// The partial interpolant of a clause, by those of its hints.
fn part(
    alloc: Global,
    split: &Split,
    at: u64,
    notes: &NodeMap,
    graph: &mut Graph,
) -> Result<Node, Memory>
    requires id { IsId split.now.log.now.entries at }
    requires derived { AreDerived split.now.log.now.entries }
    requires side { IsSide (partition_of split.now) split.now.side.now }
    requires shares { SharesAll (partition_of split.now) }
    requires reached { Reaches split.now.log.now.entries split.now.id at }
    requires nodes { AreNodes split.now.shared.now graph.old }
    requires parts { AreNoted (partition_of split.now) (local_of split.now) graph.old notes.now at }
    ensures extends { Extends graph.old graph.new }
    ensures part { IfOk result
        (IsPartOf (partition_of split.now) (local_of split.now) graph.new at) }
{
    if split.log.origin(at).is_none() {
        let node = derived_part(alloc, split, at, notes, graph)?;
        return Ok(node);
    }
    let clause = split.log.clause(at);
    if is_on_side(&split.side.selectors, clause) {
        let node = shared_part(graph, split.shared, clause)?;
        return Ok(node);
    }
    Ok(Node::constant(true))
}
