//! Nodes of decision trees, whose leaves are clauses: each is read under the tests above it.

ghost use Rattle.std.specs.Prelude.{◌≡◌, ◌<◌, ◌+◌, ◌∷◌, length, IfOk, IfSome, Some};
ghost use Rattle.dq_lits.specs.Formula.{Existential, existential_of};
ghost use Rattle.aig_graph.specs.declared.nodes.Node.{Node};
ghost use Rattle.aig_graph.specs.Graph.{AigGraph};
ghost use Rattle.aig_graph.specs.Made.{Extends};
ghost use Rattle.defining_nodes.specs.Definitions.{IsDefinition};
ghost use Rattle.gate_definitions.specs.Branches.{IsDefinitionUnder};

use crate::clauses::implies;
use crate::literals::node_of;
use crate::outputs::Output;
use crate::tables::MOST_INPUTS;
use crate::trees::{Branch, Test, find_tree};
use aig_graph::{Graph, Node};
use definition_order::may_read;
use dq_lits::{Lit, Memory};
use std::alloc::Global;

/// The node of an output whose clauses decide its bit for each row of a few inputs, if they do.
pub(crate) fn table_node(
    alloc: Global,
    output: &Output,
    graph: &mut Graph,
) -> Result<Option<Node>, Memory>
    requires inputs { graph.old.inputs
        ≡ length output.now.f.now.universals + length output.now.f.now.existentials }
    ensures extends { Extends graph.old graph.new }
    ensures defines { (e : Existential) → existential_of output.now.f.now output.now.y
        ≡ Some e
        → IfOk result (λ found. (node : Node) → found ≡ Some node
        → IsDefinition output.now.f.now output.now.ranks.now graph.new e node) }
{
    match find_tree(alloc, output)? {
        Some(tree) => branch_node(alloc, output, &tree, 0, &[], graph),
        None => Ok(None),
    }
}

// The node of a branch, where the literals of the path are true.
#[cycle(branches)]
fn branch_node(
    alloc: Global,
    output: &Output,
    tree: &[Branch],
    at: usize,
    path: &[Lit],
    graph: &mut Graph,
) -> Result<Option<Node>, Memory>
    requires inputs { graph.old.inputs
        ≡ length output.now.f.now.universals + length output.now.f.now.existentials }
    ensures extends { Extends graph.old graph.new }
    ensures defines { (e : Existential) → existential_of output.now.f.now output.now.y
        ≡ Some e
        → IfOk result (λ found. IfSome found
        (IsDefinitionUnder output.now.f.now output.now.ranks.now graph.new path.now e)) }
{
    match tree.get(at) {
        Some(Branch::Leaf(number)) => Ok(leaf_node(output, *number, path)),
        Some(Branch::Test(test)) => test_node(alloc, output, tree, *test, path, graph),
        None => Ok(None),
    }
}

// The bit that a clause decides under the path.
fn leaf_node(output: &Output, number: u32, path: &[Lit]) -> Option<Node>
    ensures { (e : Existential) (graph : AigGraph)
        → existential_of output.now.f.now output.now.y ≡ Some e
        → IfSome result
        (IsDefinitionUnder output.now.f.now output.now.ranks.now graph path.now e) }
{
    if implies(output.f, number, path, Lit::pos(output.y)) {
        Some(Node::constant(true))
    } else if implies(output.f, number, path, Lit::neg(output.y)) {
        Some(Node::constant(false))
    } else {
        None
    }
}

#[cycle(branches)]
fn test_node(
    alloc: Global,
    output: &Output,
    tree: &[Branch],
    test: Test,
    path: &[Lit],
    graph: &mut Graph,
) -> Result<Option<Node>, Memory>
    requires inputs { graph.old.inputs
        ≡ length output.now.f.now.universals + length output.now.f.now.existentials }
    ensures extends { Extends graph.old graph.new }
    ensures defines { (e : Existential) → existential_of output.now.f.now output.now.y
        ≡ Some e
        → IfOk result (λ found. IfSome found
        (IsDefinitionUnder output.now.f.now output.now.ranks.now graph.new path.now e)) }
{
    let (f, l) = (output.f, test.input);
    if path.len() >= MOST_INPUTS || !may_read(f, output.ranks, output.y, l.var()) {
        return Ok(None);
    }
    f.every_formula_is_lawful();
    graph.every_graph_is_lawful();
    let input = node_of(f, l);
    let Some(one) = side_node(alloc, output, tree, test.yes, path, l, graph)? else {
        return Ok(None);
    };
    let Some(zero) = side_node(alloc, output, tree, test.no, path, l.not(), graph)? else {
        return Ok(None);
    };
    let made = graph.mux(input, one, zero)?;
    Ok(Some(made))
}

// The node of a branch, where this literal is true as well.
#[cycle(branches)]
fn side_node(
    alloc: Global,
    output: &Output,
    tree: &[Branch],
    at: usize,
    path: &[Lit],
    l: Lit,
    graph: &mut Graph,
) -> Result<Option<Node>, Memory>
    requires inputs { graph.old.inputs
        ≡ length output.now.f.now.universals + length output.now.f.now.existentials }
    requires short { length path.now < MOST_INPUTS }
    ensures extends { Extends graph.old graph.new }
    ensures defines { (e : Existential) → existential_of output.now.f.now output.now.y
        ≡ Some e
        → IfOk result (λ found. IfSome found
        (IsDefinitionUnder output.now.f.now output.now.ranks.now graph.new (l ∷ path.now) e)) }
{
    let longer = with_literal(alloc, path, l)?;
    branch_node(alloc, output, tree, at, &longer, graph)
}

fn with_literal(alloc: Global, path: &[Lit], l: Lit) -> Result<Vec<Lit>, Memory>
    ensures { IfOk result (λ longer. longer.items ≡ l ∷ path.now) }
{
    let mut longer = Vec::new(alloc);
    longer.push(l)?;
    longer.extend_from_slice(path)?;
    Ok(longer)
}
