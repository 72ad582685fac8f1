//! What is known of a circuit where the text of its proof begins: what was found of it, or that its
//! proof decides.

ghost use Rattle.std.specs.Prelude.{◌≡◌, IfOk};
ghost use Rattle.dq_lits.specs.Formula.{IsWellFormed};
ghost use Rattle.skolem_checker.specs.Checks.{candidate_of};
ghost use Rattle.cert_judge.specs.Phases.{IsJudged};
ghost use Rattle.cert_judge.specs.Places.{HasFewLines, mapping_line_in};
ghost use Rattle.cert_judge.specs.ProofStart.{IsProofStart, IsProofStartOf};

use crate::answers::Judgement;
use crate::circuits::{Form, mapping_refusal};
use aiger_text::AagFile;
use dq_formula::Formula;
use dq_lits::Memory;
use proof_checker::CircuitProving;
use skolem_checker::laws::mapping_faults_have_places;
use skolem_checker::{Bench, BenchStop};
use std::alloc::Global;

/// What is known of a circuit before its proof.
#[derive(Drop)]
pub(crate) enum ProofStart {
    /// Its mapping has a fault, or an output reads what it may not.
    Found(Judgement),
    /// Its proof decides.
    Proving(CircuitProving),
}

/// Tests the mapping and the reads of a circuit that has a proof.
pub(crate) fn proof_start_of(
    alloc: Global,
    f: &Formula,
    form: Form,
    first: u64,
    file: &AagFile,
) -> Result<ProofStart, Memory>
    requires well_formed { IsWellFormed f.now }
    requires judged { IsJudged first file.now }
    ensures { IfOk result (IsProofStart (mapping_line_in form first file.now.circuit)
        (candidate_of f.now file.now.circuit file.now.symbols)) }
{
    match Bench::new(alloc, f, file) {
        Ok(mut bench) => {
            let proof_start = proof_start_on(alloc, &mut bench);
            drop(bench);
            proof_start
        }
        Err(BenchStop::Map(fault)) => {
            mapping_faults_have_places();
            let answer = mapping_refusal(form, first, &file.circuit, fault);
            Ok(ProofStart::Found(answer))
        }
        Err(BenchStop::Memory) => Err(Memory),
    }
}

// The same of a mapped circuit.
fn proof_start_on(alloc: Global, bench: &mut Bench) -> Result<ProofStart, Memory>
    requires few { HasFewLines bench.old.circuit.netlist }
    ensures { IfOk result (IsProofStartOf bench.old) }
{
    match bench.reads_ok() {
        Ok(()) => Ok(ProofStart::Proving(CircuitProving::new(alloc, bench)?)),
        Err((existential, universal)) => Ok(ProofStart::Found(Judgement::UndeclaredRead {
            existential,
            universal,
        })),
    }
}
