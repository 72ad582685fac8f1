//! The outputs of the existentials without a definition.

ghost use Rattle.std.specs.Prelude.{◌≡◌, ◌≤◌, ◌<◌, ◌+◌, ℕ, false, [], length, map, All, IsSome, IfOk, OnOk, List, None, Some, slice_get, slice_index_or};
ghost use Rattle.dq_lits.specs.Formula.{Existential, existential_of};
ghost use Rattle.dq_formula.specs.Prefix.{existential_variables};
ghost use Rattle.dq_formula.specs.declared.rules.Rule.{Rule as RuleState};
ghost use Rattle.aig_graph.specs.Graph.{IsNode};
ghost use Rattle.aig_graph.specs.Made.{Extends};
ghost use Rattle.expansion.specs.Table.{ArePoints, point_bits};
ghost use Rattle.candidate_functions.specs.Differing.{AreValues, IsKnownRightly};
ghost use Rattle.candidate_functions.specs.Pairs.{IsClass, IsByRules, AreByRules, IsCandidate, IsFirstOutput, AreFirstOutputs, HasClass};

use crate::classes::{Classes, no_classes};
use crate::definitions::given_at;
use crate::differing::{Others, Own, has_all_points};
use crate::patches::patched;
use crate::samples::Samples;
use crate::values::values_at_rows;
use aig_graph::{Graph, Node};
use dq_formula::Formula;
use dq_lits::Memory;
use expansion::{Points, Table};
use std::alloc::Global;

/// What the outputs are to agree with: the definitions that there are, and the points of a model of
/// the formula's instances under a table's rows; and the guesses and samples that there are.
#[derive(Drop)]
pub(crate) struct Known<'a> {
    pub f: &'a Formula,
    pub table: &'a Table,
    pub points: &'a Points,
    pub definitions: &'a [Option<Node>],
    pub guesses: &'a [Option<Node>],
    pub samples: &'a Samples,
}

// The outputs of the existentials without a definition, each at its existential's place; the other
// nodes are what they are away from the pairs. What stands at the places of the others counts for
// nothing.
pub(crate) fn first_outputs(
    alloc: Global,
    known: &Known,
    others: &[Node],
    graph: &mut Graph,
) -> Result<Vec<Node>, Memory>
    requires inputs { length known.now.f.now.universals ≤ graph.old.inputs }
    requires whole { All (λ row. length row ≡ length known.now.f.now.universals)
        known.now.table.now.rows }
    requires variables { known.now.points.now.variables ≡ existential_variables known.now.f.now }
    requires as_many { length known.now.points.now.rows ≡ length known.now.table.now.rows }
    requires points { ArePoints known.now.f.now known.now.table.now.rows
        (point_bits known.now.points.now) }
    requires one_each { length others.now ≡ length known.now.f.now.existentials }
    requires others { All (IsNode graph.old) others.now }
    ensures extends { Extends graph.old graph.new }
    ensures outputs { (rules : List RuleState)
        → AreByRules known.now.f.now graph.old rules others.now
        → IfOk result (λ nodes. AreFirstOutputs known.now.f.now known.now.table.now.rows
        (point_bits known.now.points.now) rules known.now.definitions.now graph.new
        (length known.now.f.now.existentials) nodes.items) }
{
    let values = values_at_rows(alloc, known.table, others, graph)?;
    let others = Others {
        nodes: others,
        values: &values,
    };
    outputs_beside(alloc, known, &others, graph)
}

// The same, where the bits of the other nodes are known.
fn outputs_beside(
    alloc: Global,
    known: &Known,
    others: &Others,
    graph: &mut Graph,
) -> Result<Vec<Node>, Memory>
    requires inputs { length known.now.f.now.universals ≤ graph.old.inputs }
    requires whole { All (λ row. length row ≡ length known.now.f.now.universals)
        known.now.table.now.rows }
    requires variables { known.now.points.now.variables ≡ existential_variables known.now.f.now }
    requires as_many { length known.now.points.now.rows ≡ length known.now.table.now.rows }
    requires points { ArePoints known.now.f.now known.now.table.now.rows
        (point_bits known.now.points.now) }
    requires one_each { length others.now.nodes.now ≡ length known.now.f.now.existentials }
    requires others { All (IsNode graph.old) others.now.nodes.now }
    requires values { AreValues known.now.table.now.rows graph.old others.now.nodes.now
        others.now.values.now }
    ensures extends { Extends graph.old graph.new }
    ensures outputs { (rules : List RuleState)
        → AreByRules known.now.f.now graph.old rules others.now.nodes.now
        → IfOk result (λ nodes. AreFirstOutputs known.now.f.now known.now.table.now.rows
        (point_bits known.now.points.now) rules known.now.definitions.now graph.new
        (length known.now.f.now.existentials) nodes.items) }
{
    let mut classes = no_classes(alloc, known.f)?;
    let mut nodes = Vec::new(alloc);
    for place in 0..others.nodes.len() {
        let node = classes.first_output(known, others, place, graph)?;
        nodes.push(node)?;
    }
    Ok(nodes)
}

impl Classes {
    // The output of an existential without a definition, and any node for another one.
    fn first_output(
        &mut self,
        known: &Known,
        others: &Others,
        place: usize,
        graph: &mut Graph,
    ) -> Result<Node, Memory>
        requires place { place < length known.now.f.now.existentials }
        requires inputs { length known.now.f.now.universals ≤ graph.old.inputs }
        requires whole { All (λ row. length row ≡ length known.now.f.now.universals)
            known.now.table.now.rows }
        requires variables { known.now.points.now.variables ≡ existential_variables known.now.f.now }
        requires as_many { length known.now.points.now.rows ≡ length known.now.table.now.rows }
        requires points { ArePoints known.now.f.now known.now.table.now.rows
            (point_bits known.now.points.now) }
        requires one_each { length others.now.nodes.now ≡ length known.now.f.now.existentials }
        requires others { All (IsNode graph.old) others.now.nodes.now }
        requires values { AreValues known.now.table.now.rows graph.old others.now.nodes.now
            others.now.values.now }
        requires classes { All (IsClass known.now.f.now known.now.table.now.rows graph.old)
            self.old.classes.items }
        ensures extends { Extends graph.old graph.new }
        ensures classes { OnOk result (All
            (IsClass known.now.f.now known.now.table.now.rows graph.new) self.new.classes.items) }
        ensures output { (rules : List RuleState) (y : Existential)
            → slice_get known.now.f.now.existentials place ≡ Some y
            → IsByRules known.now.f.now graph.old rules y
            (slice_index_or others.now.nodes.now place (Node.Constant false))
            → IfOk result (IsFirstOutput known.now.f.now known.now.table.now.rows
            (point_bits known.now.points.now) rules graph.new y
            (slice_index_or known.now.definitions.now place None)) }
    {
        known.f.every_formula_is_lawful();
        match given_at(known.definitions, place) {
            Some(_) => Ok(Node::constant(false)),
            None => {
                let own = Own {
                    place,
                    y: known.f.existentials()[place],
                    node: others.nodes[place],
                    values: others.values,
                };
                self.undefined_output(known, &own, graph)
            }
        }
    }

    // The output of an existential without a definition: its points' bits at the pairs, and its node
    // elsewhere. Where the node has all points, there is nothing to be done.
    fn undefined_output(
        &mut self,
        known: &Known,
        own: &Own,
        graph: &mut Graph,
    ) -> Result<Node, Memory>
        requires declared { IsSome (existential_of known.now.f.now own.now.y) }
        requires inputs { length known.now.f.now.universals ≤ graph.old.inputs }
        requires whole { All (λ row. length row ≡ length known.now.f.now.universals)
            known.now.table.now.rows }
        requires variables { known.now.points.now.variables ≡ existential_variables known.now.f.now }
        requires as_many { length known.now.points.now.rows ≡ length known.now.table.now.rows }
        requires points { ArePoints known.now.f.now known.now.table.now.rows
            (point_bits known.now.points.now) }
        requires node { IsNode graph.old own.now.node }
        requires known { IsKnownRightly known.now.table.now.rows (point_bits known.now.points.now)
            graph.old own.now.y own.now.place own.now.node own.now.values.now }
        requires classes { All (IsClass known.now.f.now known.now.table.now.rows graph.old)
            self.old.classes.items }
        ensures extends { Extends graph.old graph.new }
        ensures classes { OnOk result (All
            (IsClass known.now.f.now known.now.table.now.rows graph.new) self.new.classes.items) }
        ensures output { (rules : List RuleState) (e : Existential)
            → existential_of known.now.f.now own.now.y ≡ Some e
            → IsByRules known.now.f.now graph.old rules e own.now.node
            → IfOk result (IsCandidate known.now.f.now known.now.table.now.rows
            (point_bits known.now.points.now) rules graph.new e) }
    {
        known.f.every_formula_is_lawful();
        if has_all_points(known, own) {
            return Ok(own.node);
        }
        let place = self.class_of(known.f, known.table, own.y)?;
        self.patched_output(known, own, place, graph)
    }

    // The same, where the class of its dependency set is known.
    fn patched_output(
        &mut self,
        known: &Known,
        own: &Own,
        place: usize,
        graph: &mut Graph,
    ) -> Result<Node, Memory>
        requires declared { IsSome (existential_of known.now.f.now own.now.y) }
        requires inputs { length known.now.f.now.universals ≤ graph.old.inputs }
        requires whole { All (λ row. length row ≡ length known.now.f.now.universals)
            known.now.table.now.rows }
        requires variables { known.now.points.now.variables ≡ existential_variables known.now.f.now }
        requires as_many { length known.now.points.now.rows ≡ length known.now.table.now.rows }
        requires points { ArePoints known.now.f.now known.now.table.now.rows
            (point_bits known.now.points.now) }
        requires node { IsNode graph.old own.now.node }
        requires known { IsKnownRightly known.now.table.now.rows (point_bits known.now.points.now)
            graph.old own.now.y own.now.place own.now.node own.now.values.now }
        requires classes { All (IsClass known.now.f.now known.now.table.now.rows graph.old)
            self.old.classes.items }
        requires place { HasClass known.now.f.now known.now.table.now.rows graph.old
            self.old.classes.items place own.now.y }
        ensures extends { Extends graph.old graph.new }
        ensures classes { OnOk result (All
            (IsClass known.now.f.now known.now.table.now.rows graph.new) self.new.classes.items) }
        ensures output { (rules : List RuleState) (e : Existential)
            → existential_of known.now.f.now own.now.y ≡ Some e
            → IsByRules known.now.f.now graph.old rules e own.now.node
            → IfOk result (IsCandidate known.now.f.now known.now.table.now.rows
            (point_bits known.now.points.now) rules graph.new e) }
    {
        known.f.every_formula_is_lawful();
        let places = known.f.seen_places(self.alloc, own.y)?;
        let class = &mut self.classes[place];
        let pairs = class.pairs_to_patch(self.alloc, known, own, &places, graph)?;
        patched(&pairs, known.points, own.y, own.node, graph)
    }
}
