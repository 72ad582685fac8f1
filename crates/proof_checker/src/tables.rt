//! What is kept of a mapped circuit and a formula, while neither is borrowed.

ghost use Rattle.std.specs.Prelude.{◌≡◌, ◌≢◌, ◌*◌, ◌≤◌, ◌++◌, map, AllPairs, IfOk, OnOk};
ghost use Rattle.aiger_text.specs.Lines.{max_count};
ghost use Rattle.proof_checker.specs.ClauseLiterals.{clause_literals};
ghost use Rattle.proof_checker.specs.Tables.{AreTablesOf};

use dq_formula::Formula;
use dq_lits::{Lit, Memory};
use number_tables::NumberSet;
use skolem_checker::Bench;
use std::alloc::Global;

/// What the clauses of a negated matrix are read off, beside the formula and the circuit. It takes
/// memory as the formula does.
#[derive(Drop)]
pub(crate) struct NegatedTables {
    /// By place, the universal of each input and the existential of each output.
    pub inputs: NumberSet,
    pub outputs: NumberSet,
    /// Each literal of the formula, with the variable that tells that its clause is false.
    pub literals: Vec<(u64, Lit)>,
}

impl NegatedTables {
    pub(crate) fn new(alloc: Global, bench: &Bench) -> Result<NegatedTables, Memory>
        requires { bench.now.circuit.netlist.max_var ≤ max_count }
        ensures { IfOk result (AreTablesOf bench.now) }
    {
        let first = bench.circuit().max_var() + 1;
        Ok(NegatedTables {
            inputs: places(alloc, bench.inputs())?,
            outputs: places(alloc, bench.outputs())?,
            literals: clause_literals(alloc, bench.formula(), first)?,
        })
    }
}

// The variables by place.
fn places(alloc: Global, variables: &[u64]) -> Result<NumberSet, Memory>
    requires { AllPairs (λ v w. v ≢ w) variables.now }
    ensures { IfOk result (λ known. known ≡ variables.now) }
{
    let mut known = NumberSet::new(alloc);
    for variable in variables {
        known.push(*variable)?;
    }
    Ok(known)
}

// The literals of a formula's clauses, with the numbers from `first` on for the clauses.
fn clause_literals(alloc: Global, f: &Formula, first: u64) -> Result<Vec<(u64, Lit)>, Memory>
    requires { first ≤ 2 * max_count }
    ensures { IfOk result (λ all. all.items ≡ clause_literals first f.now.matrix) }
{
    let mut all = Vec::new(alloc);
    for j in 0..f.clauses() {
        push_literals(&mut all, first + j as u64, f.clause(j))?;
    }
    Ok(all)
}

fn push_literals(all: &mut Vec<(u64, Lit)>, bad: u64, clause: &[Lit]) -> Result<(), Memory>
    ensures { OnOk result (all.new.items ≡ all.old.items ++ map (λ l. (bad, l)) clause.now) }
{
    for l in clause {
        all.push((bad, *l))?;
    }
    Ok(())
}
