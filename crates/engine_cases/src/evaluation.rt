//! Points and candidates by trying them: bit by bit, and under every row.

ghost use Rattle.std.specs.Prelude.{◌≡◌, ◌≤◌, ◌+◌, ℕ, All, length, IfOk};
ghost use Rattle.dq_formula.specs.Prefix.{existential_variables};
ghost use Rattle.aig_graph.specs.Graph.{IsNode, size_of};

use crate::reports::{Detail, Report};
use crate::rows::{push_bits, row_at, row_count};
use crate::shown::push_signed;
use aig_graph::{Graph, Node};
use anyhow::Result;
use dq_formula::Formula;
use dq_lits::{Lit, Row};
use expansion::{Points, Table};
use std::alloc::Global;

/// A model of the instances of a table's rows.
#[derive(Drop)]
pub struct TableModel<'a> {
    pub table: &'a Table,
    pub points: &'a Points,
}

/// A node for each existential, in a graph.
#[derive(Drop)]
pub struct Candidates<'a> {
    pub graph: &'a Graph,
    pub nodes: &'a [Node],
}

/// Writes for each row whether the points make every clause true there, and whether the candidates
/// have the points' bits.
pub fn show_rows(
    alloc: Global,
    f: &Formula,
    model: &TableModel,
    candidates: &Candidates,
    report: &mut Report,
) -> Result<()>
    requires whole { All (λ row. length row ≡ length f.now.universals) model.now.table.now.rows }
    requires rows { length model.now.points.now.rows ≡ length model.now.table.now.rows }
    requires variables { model.now.points.now.variables ≡ existential_variables f.now }
    requires nodes { All (IsNode candidates.now.graph.now) candidates.now.nodes.now }
{
    for before in 0..model.table.rows() {
        let row = model.table.row(before + 1);
        let bits = bits_of(alloc, f, model.points, before + 1)?;
        show_row(alloc, f, &Point { row, bits: &bits }, candidates, report)?;
    }
    Ok(())
}

/// A row, and bits of the existentials there.
#[derive(Drop)]
pub struct Point<'a> {
    pub row: &'a Row,
    pub bits: &'a Row,
}

fn show_row(
    alloc: Global,
    f: &Formula,
    point: &Point,
    candidates: &Candidates,
    report: &mut Report,
) -> Result<()>
    requires row { length point.now.row.now ≡ length f.now.universals }
    requires bits { length point.now.bits.now ≡ length f.now.existentials }
    requires nodes { All (IsNode candidates.now.graph.now) candidates.now.nodes.now }
{
    let holds = holds(f, point);
    let inputs = inputs_of(alloc, candidates.graph, point)?;
    let followed = are_followed(alloc, &inputs, point.bits, candidates)?;
    report.text.push_str("\n point")?;
    if let Detail::Bits = report.detail {
        push_bits(alloc, f.existentials(), point.bits, &mut report.text)?;
    }
    report.text.push_str(&format!(in alloc; ": clauses {holds}, candidates {followed}")?)?;
    Ok(())
}

// What the graph's inputs are: a row, and then bits of the existentials.
fn inputs_of(alloc: Global, graph: &Graph, point: &Point) -> Result<Row>
    ensures { IfOk result (λ inputs. length inputs ≡ graph.now.inputs) }
{
    let row = point.row;
    let bits = point.bits;
    let mut inputs = Row::new(alloc, graph.inputs())?;
    for place in 0..inputs.len() {
        if place < row.len() {
            inputs.set(place, row.get(place));
        } else if place - row.len() < bits.len() {
            inputs.set(place, bits.get(place - row.len()));
        }
    }
    Ok(inputs)
}

// Whether the nodes have these bits under a row of the inputs.
fn are_followed(alloc: Global, inputs: &Row, bits: &Row, candidates: &Candidates) -> Result<bool>
    requires inputs { length inputs.now ≡ candidates.now.graph.now.inputs }
    requires nodes { All (IsNode candidates.now.graph.now) candidates.now.nodes.now }
{
    let mut buf = Row::new(alloc, candidates.graph.len())?;
    let mut followed = candidates.nodes.len() == bits.len();
    for (place, node) in candidates.nodes.iter().enumerate() {
        let value = candidates.graph.value(*node, inputs, &mut buf);
        followed = followed && place < bits.len() && bits.get(place) == value;
    }
    Ok(followed)
}

// The bits of a round.
fn bits_of(alloc: Global, f: &Formula, points: &Points, k: u64) -> Result<Row>
    requires from_one { 1 ≤ k }
    requires last { k ≤ length points.now.rows }
    requires variables { points.now.variables ≡ existential_variables f.now }
    ensures { IfOk result (λ bits. length bits ≡ length f.now.existentials) }
{
    let mut bits = Row::new(alloc, f.existentials().len())?;
    for (place, y) in f.existentials().iter().enumerate() {
        if place < bits.len() {
            bits.set(place, points.bit(*y, k));
        }
    }
    Ok(bits)
}

/// Whether every clause is true at a point.
pub fn holds(f: &Formula, point: &Point) -> bool
    requires row { length point.now.row.now ≡ length f.now.universals }
    requires bits { length point.now.bits.now ≡ length f.now.existentials }
{
    for j in 0..f.clauses() {
        if !is_clause_true(f, point, f.clause(j)) {
            return false;
        }
    }
    true
}

fn is_clause_true(f: &Formula, point: &Point, clause: &[Lit]) -> bool
    requires row { length point.now.row.now ≡ length f.now.universals }
    requires bits { length point.now.bits.now ≡ length f.now.existentials }
{
    for l in clause {
        if is_true(f, point, *l) {
            return true;
        }
    }
    false
}

/// Whether a literal is true at a point.
pub fn is_true(f: &Formula, point: &Point, l: Lit) -> bool
    requires row { length point.now.row.now ≡ length f.now.universals }
    requires bits { length point.now.bits.now ≡ length f.now.existentials }
{
    match (f.universal_place(l.var()), f.existential_place(l.var())) {
        (Some(place), _) => point.row.get(place) != l.is_neg(),
        (None, Some(place)) => point.bits.get(place) != l.is_neg(),
        (None, None) => false,
    }
}

/// Writes each candidate's values under all rows, the first row first, and which universals it
/// reads.
pub fn show_candidates(
    alloc: Global,
    f: &Formula,
    candidates: &Candidates,
    printed: &mut String,
) -> Result<()>
    requires nodes { All (IsNode candidates.now.graph.now) candidates.now.nodes.now }
{
    for (place, node) in candidates.nodes.iter().enumerate() {
        printed.push_str("\n candidate")?;
        if place < f.existentials().len() {
            push_signed(alloc, f.existentials()[place], false, printed)?;
        }
        printed.push_str(": ")?;
        show_node(alloc, f.universals(), candidates.graph, *node, printed)?;
    }
    Ok(())
}

/// Writes a node's values under all rows of the variables of the first inputs, the first row first,
/// and which of them it reads.
pub fn show_node(
    alloc: Global,
    variables: &[u64],
    graph: &Graph,
    node: Node,
    printed: &mut String,
) -> Result<()>
    requires node { IsNode graph.now node }
{
    show_values(alloc, variables.len(), graph, node, printed)?;
    printed.push_str(" reads")?;
    show_support(alloc, variables, graph, node, printed)
}

fn show_values(
    alloc: Global,
    count: usize,
    graph: &Graph,
    node: Node,
    printed: &mut String,
) -> Result<()>
    requires node { IsNode graph.now node }
{
    let mut buf = Row::new(alloc, graph.len())?;
    for number in 0..row_count(count) {
        let row = row_at(alloc, graph.inputs(), number)?;
        printed.push(if graph.value(node, &row, &mut buf) {
            '1'
        } else {
            '0'
        })?;
    }
    Ok(())
}

fn show_support(
    alloc: Global,
    variables: &[u64],
    graph: &Graph,
    node: Node,
    printed: &mut String,
) -> Result<()>
    requires node { IsNode graph.now node }
{
    let mut marks = Row::new(alloc, graph.len())?;
    graph.support(node, &mut marks);
    for (place, x) in variables.iter().enumerate() {
        if place < marks.len() && marks.get(place) {
            push_signed(alloc, *x, false, printed)?;
        }
    }
    Ok(())
}
