//! Judging a circuit's proof.

ghost use Rattle.std.specs.Prelude.{◌≡◌, ◌≤◌, IfOk, OnOk};
ghost use Rattle.aiger_text.specs.Lines.{max_count};
ghost use Rattle.cert_text.specs.CircuitProof.{first_proof_id, is_proof_variable};
ghost use Rattle.cert_text.specs.Grammar.{AreItems};
ghost use Rattle.cert_text.specs.Numbering.{numbered_from};
ghost use Rattle.cert_text.specs.ProofGrammar.{IsDqpOf};
ghost use Rattle.rup_core.specs.ProofVerdict.{proof_fault_in};
ghost use Rattle.rup_core.specs.Runs.{run_fault, with_items};
ghost use Rattle.proof_checker.specs.Answer.{IsAnswer};
ghost use Rattle.proof_checker.specs.CircuitProof.{circuit_proof_fault};
ghost use Rattle.proof_checker.specs.Judging.{run_of, IsJudging};
ghost use Rattle.proof_checker.specs.Lines.{AreProofLines};

use crate::faults::ProofFault;
use crate::judging::CircuitProving;
use cert_text::{Dqp, ItemList};
use circuit_plain::Circuit;
use dq_formula::Formula;
use dq_lits::Memory;
use rup_core::ProofFault as LineFault;
use skolem_checker::Bench;
use std::alloc::Global;

/// Whether a proof shows that a circuit makes every clause true: every line is derived, in order,
/// from the negated matrix and the lines before it that weren't deleted, and the last line is the
/// empty clause. Else it answers the first line that isn't derived, or that the empty clause is
/// missing.
///
/// It takes memory for the lines, for the variables that occur in them and in the clauses that they
/// hint, and for the formula, whatever the circuit's largest variable is.
pub fn by_proof(alloc: Global, bench: &Bench, p: &Dqp) -> Result<(), ProofFault>
    requires few { bench.now.circuit.netlist.max_var ≤ max_count }
    requires lawful { IsDqpOf bench.now.formula bench.now.circuit.netlist p.now }
    ensures { IsAnswer (circuit_proof_fault bench.now p.now.items) result }
{
    if p.items.len() == 0 {
        return Err(ProofFault::NoEmptyClause);
    }
    let fault = lines_fault(alloc, bench, &p.items)?;
    answer(fault)
}

fn answer(fault: Option<LineFault>) -> Result<(), ProofFault>
    ensures { IsAnswer (proof_fault_in fault) result }
{
    match fault {
        Some(LineFault::Underived(id)) => Err(ProofFault::Step(id)),
        Some(LineFault::Unfinished) => Err(ProofFault::NoEmptyClause),
        None => Ok(()),
    }
}

// The first fault of a proof.
fn lines_fault(alloc: Global, bench: &Bench, items: &ItemList) -> Result<Option<LineFault>, Memory>
    requires { AreProofLines bench.now items.now }
    ensures { IfOk result
        (λ fault. proof_fault_in fault ≡ circuit_proof_fault bench.now items.now) }
{
    let mut proving = CircuitProving::new(alloc, bench)?;
    judge_all(bench.formula(), bench.circuit(), items, &mut proving)?;
    Ok(proving.fault())
}

// Judges items up to the first line that isn't derived.
fn judge_all(
    f: &Formula,
    c: &Circuit,
    items: &ItemList,
    proving: &mut CircuitProving,
) -> Result<(), Memory>
    requires first { IsJudging f.now c.now proving.old (numbered_from (first_proof_id f.now c.now)) }
    requires items { AreItems (is_proof_variable f.now c.now)
        (numbered_from (first_proof_id f.now c.now)) items.now }
    ensures { OnOk result (run_fault (run_of f.now c.now proving.new)
        ≡ run_fault (with_items (run_of f.now c.now proving.old) items.now)) }
{
    for k in 0..items.len() {
        proving.item(f, c, items.get(k))?;
        if proving.is_settled() {
            return Ok(());
        }
    }
    Ok(())
}
