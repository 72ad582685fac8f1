//! An interpolant, read off the derivation of an answer.

ghost use Rattle.std.specs.Prelude.{◌≡◌, [], IfOk};
ghost use Rattle.hint_log.specs.Conditions.{AreNamed, IsId};
ghost use Rattle.hint_log.specs.Growth.{Each};
ghost use Rattle.hint_log.specs.ProductiveLog.{IsDerivedByHints};
ghost use Rattle.hint_log.specs.Reached.{AreReached};
ghost use Rattle.aig_graph.specs.Made.{Extends};
ghost use Rattle.interpolants.specs.Interpolant.{partition, AreNodes, SharesAll, IsInterpolant};
ghost use Rattle.interpolants.specs.Replay.{AreDerived};
ghost use Rattle.interpolants.specs.Sides.{IsSide};
ghost use Rattle.interpolants.specs.Splits.{divided, partition_of};

use crate::node_maps::{NodeMap, map_of};
use crate::parts::note_all;
use crate::shared::with_asked;
use crate::sides::Side;
use crate::splits::{Answer, Split};
use aig_graph::{Graph, Node};
use dq_lits::{Lit, Memory};
use hint_log::Log;
use hint_log::laws::{ids_stay, reached_are_ids};
use std::alloc::Global;

/// An interpolant of an answer: a node over the nodes of shared variables. With A the given clauses
/// that the answer reaches whose selector is in `a_side`, and B the others, it is true wherever A's
/// clauses and `a_side` are, and false wherever B's clauses and the other assumptions of the answer
/// are. Every variable of both sides is shared.
///
/// Work and memory follow the clauses that the answer reaches.
pub fn from_log(
    alloc: Global,
    log: &Log,
    id: u64,
    a_side: &[Lit],
    shared: &[(u64, Node)],
    graph: &mut Graph,
) -> Result<Node, Memory>
    requires id { IsId log.now.entries id }
    requires derived { Each IsDerivedByHints log.now.entries }
    requires named { AreNamed log.now.entries a_side.now }
    requires shares { SharesAll (partition log.now.entries id a_side.now shared.now) }
    requires nodes { AreNodes shared.now graph.old }
    ensures extends { Extends graph.old graph.new }
    ensures interpolant { IfOk result
        (IsInterpolant (partition log.now.entries id a_side.now shared.now) graph.new) }
{
    log.every_log_is_lawful();
    ids_stay();
    reached_are_ids();
    let ids = log.trim(id)?;
    let answer = Answer {
        log,
        id,
        ids: ids.items(),
    };
    by_list(alloc, &answer, a_side, shared, graph)
}

// The interpolant over the nodes of a list, in which the first one that is listed counts.
fn by_list(
    alloc: Global,
    answer: &Answer,
    a_side: &[Lit],
    shared: &[(u64, Node)],
    graph: &mut Graph,
) -> Result<Node, Memory>
    requires id { IsId answer.now.log.now.entries answer.now.id }
    requires derived { AreDerived answer.now.log.now.entries }
    requires ids { AreReached answer.now.log.now.entries answer.now.id answer.now.ids.now }
    requires named { AreNamed answer.now.log.now.entries a_side.now }
    requires shares { SharesAll (divided answer.now a_side.now shared.now) }
    requires nodes { AreNodes shared.now graph.old }
    ensures extends { Extends graph.old graph.new }
    ensures interpolant { IfOk result
        (IsInterpolant (divided answer.now a_side.now shared.now) graph.new) }
{
    let shared = map_of(alloc, shared)?;
    by_map(alloc, answer, a_side, &shared, graph)
}

// The interpolant over the nodes of a map.
fn by_map(
    alloc: Global,
    answer: &Answer,
    a_side: &[Lit],
    shared: &NodeMap,
    graph: &mut Graph,
) -> Result<Node, Memory>
    requires id { IsId answer.now.log.now.entries answer.now.id }
    requires derived { AreDerived answer.now.log.now.entries }
    requires ids { AreReached answer.now.log.now.entries answer.now.id answer.now.ids.now }
    requires named { AreNamed answer.now.log.now.entries a_side.now }
    requires shares { SharesAll (divided answer.now a_side.now shared.now) }
    requires nodes { AreNodes shared.now graph.old }
    ensures extends { Extends graph.old graph.new }
    ensures interpolant { IfOk result
        (IsInterpolant (divided answer.now a_side.now shared.now) graph.new) }
{
    let mut side = Side::new(alloc);
    by_side(alloc, answer, a_side, &mut side, shared, graph)
}

// The same, with an empty side to be filled.
fn by_side(
    alloc: Global,
    answer: &Answer,
    a_side: &[Lit],
    side: &mut Side,
    shared: &NodeMap,
    graph: &mut Graph,
) -> Result<Node, Memory>
    requires no_assumed { side.old.assumed ≡ [] }
    requires no_selectors { side.old.selectors ≡ [] }
    requires no_variables { side.old.variables ≡ [] }
    requires id { IsId answer.now.log.now.entries answer.now.id }
    requires derived { AreDerived answer.now.log.now.entries }
    requires ids { AreReached answer.now.log.now.entries answer.now.id answer.now.ids.now }
    requires named { AreNamed answer.now.log.now.entries a_side.now }
    requires shares { SharesAll (divided answer.now a_side.now shared.now) }
    requires nodes { AreNodes shared.now graph.old }
    ensures extends { Extends graph.old graph.new }
    ensures interpolant { IfOk result
        (IsInterpolant (divided answer.now a_side.now shared.now) graph.new) }
{
    side.fill(answer, a_side)?;
    let split = Split {
        log: answer.log,
        id: answer.id,
        side,
        shared,
    };
    interpolant(alloc, &split, answer.ids, graph)
}

// The interpolant, by the partial ones.
fn interpolant(alloc: Global, split: &Split, ids: &[u64], graph: &mut Graph) -> Result<Node, Memory>
    requires id { IsId split.now.log.now.entries split.now.id }
    requires derived { AreDerived split.now.log.now.entries }
    requires side { IsSide (partition_of split.now) split.now.side.now }
    requires shares { SharesAll (partition_of split.now) }
    requires ids { AreReached split.now.log.now.entries split.now.id ids.now }
    requires nodes { AreNodes split.now.shared.now graph.old }
    ensures extends { Extends graph.old graph.new }
    ensures interpolant { IfOk result (IsInterpolant (partition_of split.now) graph.new) }
{
    let mut notes = NodeMap::new(alloc);
    note_all(alloc, split, ids, &mut notes, graph)?;
    let part = notes.at(split.id);
    let clause = split.log.clause(split.id);
    let node = with_asked(graph, &split.side.assumed, split.shared, clause, part)?;
    Ok(node)
}
