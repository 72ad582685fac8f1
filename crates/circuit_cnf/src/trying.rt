//! Outputs at a given row, without the solver.

ghost use Rattle.std.specs.Prelude.{◌≡◌, ◌≤◌, ℕ, Bool, List, length, All, IfOk, IfSome, None, Ok};
ghost use Rattle.dq_lits.specs.Formula.{IsWellFormed};
ghost use Rattle.aig_graph.specs.Graph.{IsNode};
ghost use Rattle.aig_graph.specs.Outputs.{outputs_of};
ghost use Rattle.circuit_cnf.specs.Failing.{IsFailure};

use crate::circuits::Circuit;
use crate::failures::false_clause;
use aig_graph::{Graph, Node};
use dq_formula::Formula;
use dq_lits::{Memory, Row};
use std::alloc::Global;

/// A row, outputs' values there, and the number, from 1 on, of a clause that is false with them.
#[derive(Drop)]
pub struct Failure {
    pub row: Row,
    pub values: Row,
    pub j: u64,
}

/// How outputs fail at a row, or none where every clause is true there. It evaluates the graph and
/// the matrix once; the only error is want of memory.
pub fn failure_at(
    alloc: Global,
    graph: &Graph,
    f: &Formula,
    outputs: &[Node],
    row: &Row,
) -> Result<Option<Failure>, Memory>
    requires formula { IsWellFormed f.now }
    requires an_input_a_universal { length f.now.universals ≤ graph.now.inputs }
    requires nodes { All (IsNode graph.now) outputs.now }
    requires a_node_an_existential { length outputs.now ≡ length f.now.existentials }
    requires whole { length row.now ≡ length f.now.universals }
    ensures row { IfOk result (λ found. IfSome found (λ failure. failure.row ≡ row.now)) }
    ensures fails { IfOk result (λ found. IfSome found (λ failure.
        IsFailure f.now (outputs_of f.now graph.now outputs.now) failure.row failure.values
        failure.j)) }
    ensures holds { result ≡ Ok None → (values : List Bool) (j : ℕ)
        → IsFailure f.now (outputs_of f.now graph.now outputs.now) row.now values j → ⊥ }
{
    let circuit = Circuit { graph, f, outputs };
    let values = circuit.values_at(alloc, row)?;
    match false_clause(f, row, &values) {
        Some(j) => {
            let row = row.copy()?;
            Ok(Some(Failure { row, values, j }))
        }
        None => Ok(None),
    }
}
