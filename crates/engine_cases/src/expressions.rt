//! Outputs that a table states: for each existential an expression in reverse Polish notation, over
//! universals and their negations, with `t` and `f` for the constants, and `&`, `|` and `^`.

ghost use Rattle.std.specs.Prelude.{◌≡◌, length, IfOk, IfSome, All};
ghost use Rattle.dq_lits.specs.Formula.{IsWellFormed};
ghost use Rattle.aig_graph.specs.Graph.{IsNode};
ghost use Rattle.aig_graph.specs.Made.{Extends};

use crate::evaluation::{Candidates, show_candidates};
use aig_graph::{Graph, Node};
use anyhow::{Result, anyhow};
use dq_formula::Formula;
use dq_lits::Memory;
use std::alloc::Global;

/// Writes the outputs' values under all rows, and which universals they read.
pub fn run(alloc: Global, f: &Formula, text: &str, printed: &mut String) -> Result<()>
    requires formula { IsWellFormed f.now }
{
    let mut graph = Graph::new(alloc, f.universals().len());
    let nodes = outputs_of(alloc, &mut graph, f, text)?;
    let stated = Candidates {
        graph: &graph,
        nodes: &nodes,
    };
    show_candidates(alloc, f, &stated, printed)
}

/// The outputs.
pub fn outputs_of(alloc: Global, graph: &mut Graph, f: &Formula, text: &str) -> Result<Vec<Node>>
    requires inputs { graph.old.inputs ≡ length f.now.universals }
    ensures inputs { graph.new.inputs ≡ graph.old.inputs }
    ensures outputs { IfOk result (λ outputs. length outputs.items ≡ length f.now.existentials) }
    ensures nodes { IfOk result (λ outputs. All (IsNode graph.new) outputs.items) }
{
    let outputs = stated(alloc, graph, f, text)?;
    if outputs.len() != f.existentials().len() {
        return Err(anyhow!("an output for each existential: {text}"));
    }
    Ok(outputs)
}

fn stated(alloc: Global, graph: &mut Graph, f: &Formula, text: &str) -> Result<Vec<Node>>
    requires inputs { graph.old.inputs ≡ length f.now.universals }
    ensures inputs { graph.new.inputs ≡ graph.old.inputs }
    ensures nodes { IfOk result (λ outputs. All (IsNode graph.new) outputs.items) }
{
    let mut stack = Vec::new(alloc);
    for word in text.split_whitespace() {
        step(graph, f, &mut stack, word)?;
    }
    Ok(stack)
}

fn step(graph: &mut Graph, f: &Formula, stack: &mut Vec<Node>, word: &str) -> Result<()>
    requires inputs { graph.old.inputs ≡ length f.now.universals }
    requires nodes { All (IsNode graph.old) stack.old.items }
    ensures inputs { graph.new.inputs ≡ graph.old.inputs }
    ensures nodes { IfOk result (λ u. All (IsNode graph.new) stack.new.items) }
{
    match word {
        "t" => stack.push(Node::constant(true))?,
        "f" => stack.push(Node::constant(false))?,
        "&" => join(graph, stack, Gate::And)?,
        "|" => join(graph, stack, Gate::Or)?,
        "^" => join(graph, stack, Gate::Xor)?,
        _ => stack.push(literal(graph, f, word)?)?,
    }
    Ok(())
}

/// A gate of two nodes.
#[derive(Clone, Copy)]
enum Gate {
    And,
    Or,
    Xor,
}

// Replaces the last two nodes by their gate.
fn join(graph: &mut Graph, stack: &mut Vec<Node>, gate: Gate) -> Result<()>
    requires nodes { All (IsNode graph.old) stack.old.items }
    ensures inputs { graph.new.inputs ≡ graph.old.inputs }
    ensures nodes { IfOk result (λ u. All (IsNode graph.new) stack.new.items) }
{
    let Some(b) = stack.pop() else {
        return Err(anyhow!("no node"));
    };
    let Some(a) = stack.pop() else {
        return Err(anyhow!("no node"));
    };
    let node = gate_of(graph, a, b, gate)?;
    stack.push(node)?;
    Ok(())
}

fn gate_of(graph: &mut Graph, a: Node, b: Node, gate: Gate) -> Result<Node, Memory>
    requires a { IsNode graph.old a }
    requires b { IsNode graph.old b }
    ensures extends { Extends graph.old graph.new }
    ensures node { IfOk result (IsNode graph.new) }
{
    match gate {
        Gate::And => graph.and(a, b),
        Gate::Or => graph.or(a, b),
        Gate::Xor => graph.xor(a, b),
    }
}

fn literal(graph: &Graph, f: &Formula, word: &str) -> Result<Node>
    requires inputs { graph.now.inputs ≡ length f.now.universals }
    ensures { IfOk result (IsNode graph.now) }
{
    let number: i64 = word.parse()?;
    match f.universal_place(number.unsigned_abs()) {
        Some(place) => Ok(signed(graph, graph.input(place), number < 0)),
        None => Err(anyhow!("no universal: {word}")),
    }
}

fn signed(graph: &Graph, n: Node, negative: bool) -> Node
    requires { IsNode graph.now n }
    ensures { IsNode graph.now result }
{
    // The call shows the graph's invariant.
    let _ = graph.len();
    match negative {
        true => n.not(),
        false => n,
    }
}
