//! Gates, and their nodes.

ghost use Rattle.std.specs.Prelude.{◌≡◌, ◌+◌, ℕ, Bool, length, IfOk, IfSome, Some};
ghost use Rattle.dq_lits.specs.Literal.{variable_of};
ghost use Rattle.dq_lits.specs.Formula.{Existential, existential_of};
ghost use Rattle.aig_graph.specs.Graph.{AigGraph, IsNode, node_value, node_support, with_sign};
ghost use Rattle.aig_graph.specs.Made.{Extends};
ghost use Rattle.defining_nodes.specs.Definitions.{IsDefinition};
ghost use Rattle.gate_definitions.specs.Stating.{IsConjunction, IsChoice};
ghost use Rattle.gate_definitions.specs.Finding.{IsGate};

use crate::choices::{Choice, find_choice};
use crate::conjunctions::find_conjunction;
use crate::literals::{node_of, nodes_of};
use crate::outputs::Output;
use aig_graph::{Graph, Node};
use dq_lits::{Lit, Memory};
use std::alloc::Global;

/// What the clauses say of an existential.
#[derive(Drop)]
pub(crate) enum Gate {
    /// This literal on it is true where all of these are.
    Conjunction(Lit, Vec<Lit>),
    Choice(Choice),
}

/// The gate that the clauses on an output say it to be.
pub(crate) fn find_gate(alloc: Global, output: &Output) -> Result<Option<Gate>, Memory>
    ensures { (e : Existential) → existential_of output.now.f.now output.now.y ≡ Some e
        → IfOk result (λ found. IfSome found
        (IsGate output.now.f.now output.now.ranks.now output.now.y e)) }
{
    let found = find_conjunction_gate(alloc, output, Lit::pos(output.y))?;
    if found.is_some() {
        return Ok(found);
    }
    let found = find_conjunction_gate(alloc, output, Lit::neg(output.y))?;
    if found.is_some() {
        return Ok(found);
    }
    find_choice_gate(alloc, output)
}

fn find_conjunction_gate(alloc: Global, output: &Output, l: Lit) -> Result<Option<Gate>, Memory>
    requires on_existential { variable_of l ≡ output.now.y }
    ensures { (e : Existential) → existential_of output.now.f.now output.now.y ≡ Some e
        → IfOk result (λ found. IfSome found
        (IsGate output.now.f.now output.now.ranks.now output.now.y e)) }
{
    match find_conjunction(alloc, output, l)? {
        Some(cube) => Ok(Some(Gate::Conjunction(l, cube))),
        None => Ok(None),
    }
}

fn find_choice_gate(alloc: Global, output: &Output) -> Result<Option<Gate>, Memory>
    ensures { (e : Existential) → existential_of output.now.f.now output.now.y ≡ Some e
        → IfOk result (λ found. IfSome found
        (IsGate output.now.f.now output.now.ranks.now output.now.y e)) }
{
    match find_choice(alloc, output)? {
        Some(choice) => Ok(Some(Gate::Choice(choice))),
        None => Ok(None),
    }
}

impl Gate {
    /// The node of a gate.
    pub(crate) fn node(
        &self,
        alloc: Global,
        output: &Output,
        graph: &mut Graph,
    ) -> Result<Node, Memory>
        requires inputs { graph.old.inputs
            ≡ length output.now.f.now.universals + length output.now.f.now.existentials }
        requires gate { (e : Existential) → existential_of output.now.f.now output.now.y
            ≡ Some e
            → IsGate output.now.f.now output.now.ranks.now output.now.y e self.now }
        ensures extends { Extends graph.old graph.new }
        ensures defines { (e : Existential)
            → existential_of output.now.f.now output.now.y ≡ Some e
            → IfOk result (IsDefinition output.now.f.now output.now.ranks.now graph.new e) }
    {
        match self {
            Gate::Conjunction(l, cube) => conjunction_node(alloc, output, *l, cube, graph),
            Gate::Choice(choice) => choice_node(output, choice, graph),
        }
    }
}

fn conjunction_node(
    alloc: Global,
    output: &Output,
    l: Lit,
    cube: &[Lit],
    graph: &mut Graph,
) -> Result<Node, Memory>
    requires inputs { graph.old.inputs
        ≡ length output.now.f.now.universals + length output.now.f.now.existentials }
    requires on_existential { variable_of l ≡ output.now.y }
    requires gate { (e : Existential) → existential_of output.now.f.now output.now.y ≡ Some e
        → IsConjunction output.now.f.now output.now.ranks.now e l cube.now }
    ensures extends { Extends graph.old graph.new }
    ensures defines { (e : Existential) → existential_of output.now.f.now output.now.y
        ≡ Some e
        → IfOk result (IsDefinition output.now.f.now output.now.ranks.now graph.new e) }
{
    let f = output.f;
    f.every_formula_is_lawful();
    graph.every_graph_is_lawful();
    let nodes = nodes_of(alloc, f, cube)?;
    let made = graph.cube(&nodes)?;
    Ok(signed(made, l.is_neg()))
}

fn choice_node(output: &Output, choice: &Choice, graph: &mut Graph) -> Result<Node, Memory>
    requires inputs { graph.old.inputs
        ≡ length output.now.f.now.universals + length output.now.f.now.existentials }
    requires gate { (e : Existential) → existential_of output.now.f.now output.now.y ≡ Some e
        → IsChoice output.now.f.now output.now.ranks.now e choice.now }
    ensures extends { Extends graph.old graph.new }
    ensures defines { (e : Existential) → existential_of output.now.f.now output.now.y
        ≡ Some e
        → IfOk result (IsDefinition output.now.f.now output.now.ranks.now graph.new e) }
{
    let f = output.f;
    f.every_formula_is_lawful();
    graph.every_graph_is_lawful();
    let c = node_of(f, choice.condition);
    let t = node_of(f, choice.then_value);
    let e = node_of(f, choice.else_value);
    graph.mux(c, t, e)
}

// The node, or its negation.
fn signed(node: Node, negated: bool) -> Node
    ensures node { (graph : AigGraph) → IsNode graph node → IsNode graph result }
    ensures value { (graph : AigGraph) (inputs : ℕ → Bool)
        → node_value graph inputs result ≡ with_sign negated (node_value graph inputs node) }
    ensures support { (graph : AigGraph) → node_support graph result ≡ node_support graph node }
{
    if negated { node.not() } else { node }
}
