//! The literals that stand for nodes of a circuit.

ghost use Rattle.std.specs.Prelude.{◌≡◌, ◌≤◌, ◌<◌, ◌+◌, false, true, length, map, All, OnOk, IfOk, None};
ghost use Rattle.dq_lits.specs.Literal.{variable_of};
ghost use Rattle.dq_lits.specs.Row.{bit_of};
ghost use Rattle.hint_log.specs.declared.origins.Leaf.TheVariants.{Literal as LeafLiteral};
ghost use Rattle.hint_log.specs.Entries.{rounds_of};
ghost use Rattle.hint_log.specs.Origins.{leaf_with_sign};
ghost use Rattle.hint_log.specs.ProductiveLog.{fault_groups, fault_room};
ghost use Rattle.aig_graph.specs.Graph.{IsEarlierNode, size_of};
ghost use Rattle.circuit_cnf.specs.Checking.{AreInputs};
ghost use Rattle.circuit_cnf.specs.Gates.{AreKnown, AreBadsStill, GrewByGates};
ghost use Rattle.circuit_cnf.specs.Leaves.{HasLeaf, HaveLeaves, AreClosed, AreMarkedUniversals, IsInnerNode, leaf_by};

use crate::gates::Gates;
use aig_graph::{Graph, Look, Node};
use dq_formula::Formula;
use dq_lits::{Lit, Memory, Row};
use hint_log::{Leaf, Log};
use oracle::Oracle;
use std::alloc::Global;

/// The cone of some nodes of a graph, whose inputs there are a formula's universals.
#[derive(Drop)]
pub(crate) struct Cone<'g, 'm, 'f, 'i> {
    pub graph: &'g Graph,
    // Which nodes of the graph are in the cone.
    pub marks: &'m Row,
    pub f: &'f Formula,
    // The literals of the universals, in order.
    pub inputs: &'i [Lit],
    ghost a_place_a_node: { length marks.now ≡ size_of graph.now },
    ghost closed: { AreClosed graph.now marks.now },
    ghost universals: { AreMarkedUniversals f.now graph.now marks.now },
    ghost input_count: { length inputs.now ≡ length f.now.universals },
}

// Names the gates of a cone, and gives their clauses where they weren't given: a literal for each
// gate of the graph, in order. Those of gates outside the cone are never looked at.
pub(crate) fn cone_literals<O: Oracle>(
    alloc: Global,
    gates: &mut Gates,
    oracle: &mut O,
    cone: &Cone,
    log: &mut Log,
) -> Result<Vec<Lit>, Memory>
    requires fit { O.Fits oracle.old log.old }
    requires known { AreKnown gates.old log.old.entries }
    requires ready { gates.old.unfinished ≡ None }
    requires few { length (fault_groups log.old.entries) ≤ fault_room log.old.entries }
    requires inputs { AreInputs cone.now.f.now.universals cone.now.inputs.now log.old.entries }
    ensures fit { O.Fits oracle.new log.new }
    ensures grew { GrewByGates (variable_of gates.old.group.selector) log.old log.new }
    ensures group { gates.new.group ≡ gates.old.group }
    ensures earlier { gates.new.earlier ≡ gates.old.earlier }
    ensures faults { fault_groups log.new.entries ≡ fault_groups log.old.entries }
    ensures bads { AreBadsStill log.old.entries log.new.entries }
    ensures known { AreKnown gates.new log.new.entries }
    ensures ready { OnOk result (gates.new.unfinished ≡ None) }
    ensures count { IfOk result (λ literals.
        length literals.items ≡ length cone.now.graph.now.gates) }
    ensures leaves { IfOk result (λ literals. HaveLeaves cone.now.f.now cone.now.graph.now
        cone.now.marks.now literals.items log.new.entries) }
{
    let graph = cone.graph;
    graph.every_graph_is_lawful();
    let count = graph.len() - graph.inputs();
    let mut literals = Vec::new(alloc);
    for _ in 0..count {
        let l = next_literal(gates, oracle, cone, &literals, log)?;
        literals.push(l)?;
    }
    Ok(literals)
}

// The literal of the next gate, where it is in the cone.
fn next_literal<O: Oracle>(
    gates: &mut Gates,
    oracle: &mut O,
    cone: &Cone,
    literals: &[Lit],
    log: &mut Log,
) -> Result<Lit, Memory>
    requires fit { O.Fits oracle.old log.old }
    requires known { AreKnown gates.old log.old.entries }
    requires ready { gates.old.unfinished ≡ None }
    requires few { length (fault_groups log.old.entries) ≤ fault_room log.old.entries }
    requires inputs { AreInputs cone.now.f.now.universals cone.now.inputs.now log.old.entries }
    requires leaves { HaveLeaves cone.now.f.now cone.now.graph.now cone.now.marks.now literals.now
        log.old.entries }
    requires gate { length literals.now < length cone.now.graph.now.gates }
    ensures fit { O.Fits oracle.new log.new }
    ensures grew { GrewByGates (variable_of gates.old.group.selector) log.old log.new }
    ensures group { gates.new.group ≡ gates.old.group }
    ensures earlier { gates.new.earlier ≡ gates.old.earlier }
    ensures faults { fault_groups log.new.entries ≡ fault_groups log.old.entries }
    ensures bads { AreBadsStill log.old.entries log.new.entries }
    ensures known { AreKnown gates.new log.new.entries }
    ensures ready { OnOk result (gates.new.unfinished ≡ None) }
    ensures leaf { IfOk result (λ l.
        bit_of cone.now.marks.now (cone.now.graph.now.inputs + length literals.now) ≡ true
        → HasLeaf cone.now.f.now cone.now.graph.now log.new.entries
        (Node.Gate (length literals.now) false) (LeafLiteral l)) }
{
    let graph = cone.graph;
    graph.every_graph_is_lawful();
    if !cone.marks.get(graph.inputs() + literals.len()) {
        return Ok(gates.group.selector);
    }
    gate_literal(gates, oracle, cone, literals, log)
}

// The literal of a gate of the cone, whose earlier ones are known.
fn gate_literal<O: Oracle>(
    gates: &mut Gates,
    oracle: &mut O,
    cone: &Cone,
    literals: &[Lit],
    log: &mut Log,
) -> Result<Lit, Memory>
    requires fit { O.Fits oracle.old log.old }
    requires known { AreKnown gates.old log.old.entries }
    requires ready { gates.old.unfinished ≡ None }
    requires few { length (fault_groups log.old.entries) ≤ fault_room log.old.entries }
    requires inputs { AreInputs cone.now.f.now.universals cone.now.inputs.now log.old.entries }
    requires leaves { HaveLeaves cone.now.f.now cone.now.graph.now cone.now.marks.now literals.now
        log.old.entries }
    requires gate { length literals.now < length cone.now.graph.now.gates }
    requires marked { bit_of cone.now.marks.now (cone.now.graph.now.inputs + length literals.now)
        ≡ true }
    ensures fit { O.Fits oracle.new log.new }
    ensures grew { GrewByGates (variable_of gates.old.group.selector) log.old log.new }
    ensures group { gates.new.group ≡ gates.old.group }
    ensures earlier { gates.new.earlier ≡ gates.old.earlier }
    ensures faults { fault_groups log.new.entries ≡ fault_groups log.old.entries }
    ensures bads { AreBadsStill log.old.entries log.new.entries }
    ensures known { AreKnown gates.new log.new.entries }
    ensures ready { OnOk result (gates.new.unfinished ≡ None) }
    ensures leaf { IfOk result (λ l. HasLeaf cone.now.f.now cone.now.graph.now log.new.entries
        (Node.Gate (length literals.now) false) (LeafLiteral l)) }
{
    match cone.graph.look(Node::Gate(literals.len(), false)) {
        Look::Gate(a, b, _) => {
            let a = side_literal(cone.inputs, literals, a);
            let b = side_literal(cone.inputs, literals, b);
            let v = gates.variable(oracle, a, b, log)?;
            Ok(Lit::pos(v))
        }
        _ => unreachable!(),
    }
}

// The literal of a node that isn't constant.
fn side_literal(inputs: &[Lit], gates: &[Lit], n: Node) -> Lit
    requires earlier { IsEarlierNode (length inputs.now) (length gates.now) n }
    requires inner { IsInnerNode n }
    ensures { LeafLiteral result ≡ leaf_by inputs.now gates.now n }
{
    match n {
        Node::Input(i, negated) => signed(inputs[i], negated),
        Node::Gate(g, negated) => signed(gates[g], negated),
        Node::Constant(_) => unreachable!(),
    }
}

fn signed(l: Lit, negated: bool) -> Lit
    ensures { LeafLiteral result ≡ leaf_with_sign negated (LeafLiteral l) }
{
    if negated { l.not() } else { l }
}

// The leaves of nodes, by the literals of the inputs and the gates.
pub(crate) fn node_leaves(
    alloc: Global,
    inputs: &[Lit],
    gates: &[Lit],
    nodes: &[Node],
) -> Result<Vec<Leaf>, Memory>
    requires { All (IsEarlierNode (length inputs.now) (length gates.now)) nodes.now }
    ensures { IfOk result (λ leaves. leaves.items ≡ map (leaf_by inputs.now gates.now) nodes.now) }
{
    let mut leaves = Vec::new(alloc);
    for n in nodes {
        leaves.push(node_leaf(inputs, gates, *n))?;
    }
    Ok(leaves)
}

fn node_leaf(inputs: &[Lit], gates: &[Lit], n: Node) -> Leaf
    requires { IsEarlierNode (length inputs.now) (length gates.now) n }
    ensures { result ≡ leaf_by inputs.now gates.now n }
{
    match n {
        Node::Constant(b) => Leaf::Constant(b),
        Node::Input(i, negated) => Leaf::Literal(signed(inputs[i], negated)),
        Node::Gate(g, negated) => Leaf::Literal(signed(gates[g], negated)),
    }
}
