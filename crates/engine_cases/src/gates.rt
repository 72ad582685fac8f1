//! Definitions that the clauses state as gates, or that they state none.

ghost use Rattle.dq_lits.specs.Formula.{IsWellFormed};

use crate::definitions::{push_variable, variables};
use crate::evaluation::show_node;
use aig_graph::Graph;
use anyhow::{Result, anyhow};
use dq_formula::Formula;
use gate_definitions::Gates;
use std::alloc::Global;

/// Looks for gates on existentials.
pub fn run(alloc: Global, f: &Formula, existentials: &str, printed: &mut String) -> Result<()>
    requires formula { IsWellFormed f.now }
{
    let gates = Gates::new(alloc, f)?;
    for word in existentials.split_whitespace() {
        let y: u64 = word.parse()?;
        show_gate(alloc, f, &gates, y, printed)?;
    }
    Ok(())
}

fn show_gate(alloc: Global, f: &Formula, gates: &Gates, y: u64, printed: &mut String) -> Result<()>
    requires formula { IsWellFormed f.now }
{
    if !f.is_existential(y) {
        return Err(anyhow!("no existential: {y}"));
    }
    let mut graph = Graph::new(alloc, f.universals().len() + f.existentials().len());
    let found = gates.read(f, &[], y, &mut graph)?;
    push_variable(alloc, y, printed)?;
    match found {
        Some(node) => show_node(alloc, &variables(alloc, f)?, &graph, node, printed)?,
        None => printed.push_str("no gate")?,
    }
    Ok(())
}
