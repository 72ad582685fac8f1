//! The partial interpolant of a derived clause: its hints are replayed, and their clauses are
//! resolved, the last one first.

ghost use Rattle.std.specs.Prelude.{◌≡◌, ◌&&◌, ◌||◌, ℕ, List, [], true, false, IfOk, None};
ghost use Rattle.dq_lits.specs.Literal.{Literal, variable_of};
ghost use Rattle.hint_log.specs.Conditions.{IsId};
ghost use Rattle.hint_log.specs.Entries.{clause_at, origin_at};
ghost use Rattle.hint_log.specs.Reached.{Reaches};
ghost use Rattle.aig_graph.specs.Graph.{IsNode};
ghost use Rattle.aig_graph.specs.Made.{Extends, IsMade};
ghost use Rattle.interpolants.specs.Interpolant.{AreNodes};
ghost use Rattle.interpolants.specs.Sides.{is_local};
ghost use Rattle.interpolants.specs.Splits.{partition_of, local_of};
ghost use Rattle.interpolants.specs.Parts.{IsPart, IsPartOf, HaveParts, AreNoted};
ghost use Rattle.interpolants.specs.Replay.{AreDerived, IsReplay};

use crate::chains::Chain;
use crate::node_maps::NodeMap;
use crate::replaying::replay;
use crate::sides::Side;
use crate::splits::Split;
use aig_graph::{Graph, Node};
use dq_lits::{Lit, Memory};
use hint_log::laws::reached_are_ids;
use std::alloc::Global;

/// The partial interpolant of a derived clause, by those of its hints.
pub(crate) fn derived_part(
    alloc: Global,
    split: &Split,
    at: u64,
    notes: &NodeMap,
    graph: &mut Graph,
) -> Result<Node, Memory>
    requires id { IsId split.now.log.now.entries at }
    requires derived { AreDerived split.now.log.now.entries }
    requires reached { Reaches split.now.log.now.entries split.now.id at }
    requires not_given { origin_at split.now.log.now.entries at ≡ None }
    requires nodes { AreNodes split.now.shared.now graph.old }
    requires parts { AreNoted (partition_of split.now) (local_of split.now) graph.old notes.now at }
    ensures extends { Extends graph.old graph.new }
    ensures part { IfOk result
        (IsPartOf (partition_of split.now) (local_of split.now) graph.new at) }
{
    let mut chain = Chain::new(alloc);
    by_chain(alloc, split, at, notes, &mut chain, graph)
}

// The same, with a chain for the replay.
fn by_chain(
    alloc: Global,
    split: &Split,
    at: u64,
    notes: &NodeMap,
    chain: &mut Chain,
    graph: &mut Graph,
) -> Result<Node, Memory>
    requires empty { chain.old ≡ [] }
    requires id { IsId split.now.log.now.entries at }
    requires derived { AreDerived split.now.log.now.entries }
    requires reached { Reaches split.now.log.now.entries split.now.id at }
    requires not_given { origin_at split.now.log.now.entries at ≡ None }
    requires nodes { AreNodes split.now.shared.now graph.old }
    requires parts { AreNoted (partition_of split.now) (local_of split.now) graph.old notes.now at }
    ensures extends { Extends graph.old graph.new }
    ensures part { IfOk result
        (IsPartOf (partition_of split.now) (local_of split.now) graph.new at) }
{
    let log = split.log;
    log.every_log_is_lawful();
    reached_are_ids();
    let clause = log.clause(at);
    let hints = log.hints(at);
    let last = replay(alloc, log, clause, hints, chain)?;
    let node = resolve(split, notes, chain, last, graph)?;
    Ok(node)
}

// Resolves a line's hinted clauses, the last one first.
fn resolve(
    split: &Split,
    notes: &NodeMap,
    chain: &mut Chain,
    last: u64,
    graph: &mut Graph,
) -> Result<Node, Memory>
    requires nodes { AreNodes split.now.shared.now graph.old }
    requires replay { (first : List Literal) × (hints : List ℕ)
        × HaveParts (partition_of split.now) (local_of split.now) graph.old notes.now hints
        × IsReplay (clause_at split.now.log.now.entries) first hints chain.old last }
    ensures extends { Extends graph.old graph.new }
    ensures part { IfOk result (λ node. (first : List Literal) (hints : List ℕ)
        → HaveParts (partition_of split.now) (local_of split.now) graph.old notes.now hints
        → IsReplay (clause_at split.now.log.now.entries) first hints chain.old last
        → IsPart (partition_of split.now) (local_of split.now) graph.new first node) }
{
    let mut node = notes.at(last);
    while let Some(link) = chain.pop() {
        let local = is_local(split.side, split.shared, link.pivot);
        node = resolved(graph, local, node, notes.at(link.hint))?;
    }
    Ok(node)
}

// Whether a literal stands on a variable of the A side that isn't shared.
fn is_local(side: &Side, shared: &NodeMap, l: Lit) -> bool
    ensures { result ≡ is_local shared.now side.now.variables (variable_of l) }
{
    side.variables.has(Lit::pos(l.var())) && shared.get(l.var()).is_none()
}

// The partial interpolant of a resolvent: `or` at a pivot of the A side alone, else `and`.
fn resolved(graph: &mut Graph, local: bool, p: Node, r: Node) -> Result<Node, Memory>
    requires p { IsNode graph.old p }
    requires r { IsNode graph.old r }
    ensures extends { Extends graph.old graph.new }
    ensures or { IfOk result
        (λ n. local ≡ true → IsMade (λ x y. x || y) graph.old graph.new p r n) }
    ensures and { IfOk result
        (λ n. local ≡ false → IsMade (λ x y. x && y) graph.old graph.new p r n) }
{
    if local {
        graph.or(p, r)
    } else {
        graph.and(p, r)
    }
}
