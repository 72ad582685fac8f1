//! The numbers of a negated matrix: its ids and variables.

ghost use Rattle.std.specs.Prelude.{◌≡◌, ◌≤◌, ◌+◌, ◌^◌, length, slice_index, IfOk};
ghost use Rattle.std.specs.List.{sum_by};
ghost use Rattle.circuit_plain.specs.Netlist.{IsNetlist};
ghost use Rattle.lifted_proofs.specs.NegatedBases.{AreLengthsBefore, IsBaseOf};

use circuit_plain::Circuit;
use dq_formula::Formula;
use dq_lits::Memory;
use std::alloc::Global;

/// The most gates, variables and literals: more than any memory holds.
pub(crate) const MOST: u64 = 10_000_000_000_000_000;

/// The numbers of the negated matrix of a formula and a circuit.
#[derive(Clone, Copy)]
pub(crate) struct Base {
    /// How many ids the clauses of gates have; they come first.
    pub gates: u64,
    /// The first id behind all clauses.
    pub first: u64,
    /// The circuit's largest variable, behind which each clause has one.
    pub largest: u64,
}

/// How many literals stand before each clause, and last in all clauses.
pub(crate) fn lengths_before(alloc: Global, f: &Formula) -> Result<Vec<u64>, Memory>
    ensures lengths { IfOk result (λ before. AreLengthsBefore f.now.matrix before.items) }
    ensures few { IfOk result (λ before. sum_by length f.now.matrix ≤ MOST) }
{
    let mut before = Vec::new(alloc);
    let mut literals = 0;
    before.push(literals)?;
    for j in 0..f.clauses() {
        literals = with_more(literals, f.clause(j).len() as u64)?;
        before.push(literals)?;
    }
    Ok(before)
}

// So many literals and more, unless they are too many to be numbered.
fn with_more(literals: u64, more: u64) -> Result<u64, Memory>
    requires { literals ≤ MOST }
    ensures sum { IfOk result (λ n. n ≡ literals + more) }
    ensures few { IfOk result (λ n. n ≤ MOST) }
{
    if more > MOST - literals {
        return Err(Memory);
    }
    Ok(literals + more)
}

/// The numbers, where there are few enough.
pub(crate) fn base_of(f: &Formula, circuit: &Circuit, before: &[u64]) -> Result<Base, Memory>
    requires lengths { AreLengthsBefore f.now.matrix before.now }
    requires few { sum_by length f.now.matrix ≤ MOST }
    ensures { IfOk result (IsBaseOf f.now circuit.now) }
{
    let gates = circuit.gates() as u64;
    let largest = circuit.max_var();
    if gates > MOST || largest > MOST {
        return Err(Memory);
    }
    Ok(Base {
        gates: 3 * gates,
        first: 3 * gates + before[f.clauses()] + 2,
        largest,
    })
}
