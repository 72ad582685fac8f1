//! What is said of a certificate whose text ends.

ghost use Rattle.std.specs.Prelude.{◌≡◌, [], None, IfOk};
ghost use Rattle.dq_lits.specs.Formula.{IsWellFormed};
ghost use Rattle.std.specs.Option.{option_map};
ghost use Rattle.rup_core.specs.ProofVerdict.{proof_fault_in};
ghost use Rattle.skolem_checker.specs.Checks.{candidate_of};
ghost use Rattle.cert_judge.specs.Judgement.{answer_of_derivation, BehindMapping};
ghost use Rattle.cert_judge.specs.Places.{mapping_line_in};
ghost use Rattle.cert_judge.specs.Phases.{found_or_derived, AreLinesFrom, CircuitGives, Gives, IsJudged, IsLawful, ProofGives, RefutationGives};

use crate::answers::{CertificateFault, Judgement, refused};
use crate::binary::finish_binary;
use crate::circuits::{Form, judge_mapped, stopped};
use crate::definitions::judge_definitions;
use crate::phases::Phase;
use aiger_text::laws::circuit_or_first_fault;
use aiger_text::{AagFile, AagLines};
use cert_stream::{ProofStream, RefutationStream};
use cert_text::CertStop;
use dq_formula::Formula;
use dq_lits::Memory;
use rup_core::ProofFault;
use std::alloc::Global;

/// Judges what was read, where the text ends here.
pub(crate) fn finish(alloc: Global, f: &Formula, phase: Phase) -> Result<Judgement, Memory>
    requires well_formed { IsWellFormed f.now }
    requires lawful { IsLawful phase }
    ensures { IfOk result (Gives f.now phase.entry []) }
{
    match phase {
        Phase::Beginning { missing, .. } => {
            Ok(refused(missing.line, CertificateFault::Text(missing.name)))
        }
        Phase::Refutation(refutation) => finish_refutation(refutation),
        Phase::Circuit { first, lines } => finish_circuit(alloc, f, first, lines),
        Phase::Proof { proof, finding } => finish_proof(proof, finding),
        Phase::FreeText { form, first, file } => finish_file(alloc, f, form, first, file),
        Phase::Binary { first, lines } => finish_binary(alloc, f, first, lines),
        Phase::Definitions { first, text } => judge_definitions(alloc, f, first, text),
        Phase::Decided(answer) => Ok(answer),
        Phase::NoMemory => Err(Memory),
    }
}

fn finish_refutation(refutation: RefutationStream) -> Result<Judgement, Memory>
    ensures { IfOk result (RefutationGives refutation.entry []) }
{
    match refutation.end() {
        Ok(fault) => Ok(derived(Judgement::ValidFalse, fault)),
        Err(CertStop::Refused(refusal)) => {
            Ok(refused(refusal.line, CertificateFault::Text(refusal.name)))
        }
        Err(CertStop::Memory) => Err(Memory),
    }
}

// The verdict, or what is wrong with the derivation that shows it.
fn derived(verdict: Judgement, fault: Option<ProofFault>) -> Judgement
    ensures { result ≡ answer_of_derivation verdict (proof_fault_in fault) }
{
    match fault {
        Some(ProofFault::Underived(id)) => Judgement::UnderivedStep { id },
        Some(ProofFault::Unfinished) => Judgement::NoEmptyClause,
        None => verdict,
    }
}

fn finish_proof(proof: ProofStream, finding: Option<Judgement>) -> Result<Judgement, Memory>
    ensures { IfOk result (ProofGives finding proof.entry []) }
{
    match proof.end() {
        Ok(said) => Ok(found_or_derived(finding, said)),
        Err(CertStop::Refused(refusal)) => {
            Ok(refused(refusal.line, CertificateFault::Text(refusal.name)))
        }
        Err(CertStop::Memory) => Err(Memory),
    }
}

// What was found of the circuit, or what its proof shows.
fn found_or_derived(finding: Option<Judgement>, said: Option<Option<ProofFault>>) -> Judgement
    ensures { result ≡ found_or_derived finding (option_map proof_fault_in said) }
{
    if let Some(finding) = finding {
        return finding;
    }
    match said {
        Some(fault) => derived(Judgement::ValidTrue, fault),
        None => Judgement::NoEmptyClause,
    }
}

// Judges a circuit that has no comment.
fn finish_circuit(
    alloc: Global,
    f: &Formula,
    first: u64,
    lines: AagLines,
) -> Result<Judgement, Memory>
    requires well_formed { IsWellFormed f.now }
    requires lawful { AreLinesFrom first lines }
    ensures { IfOk result (CircuitGives f.now lines []) }
{
    circuit_or_first_fault();
    match lines.end() {
        Ok((circuit, symbols)) => {
            let file = AagFile {
                circuit,
                symbols,
                comment: None,
            };
            finish_file(alloc, f, Form::Ascii, first, file)
        }
        Err(stop) => stopped(stop),
    }
}

/// Judges a circuit file that has no proof, and lets it go.
pub(crate) fn finish_file(
    alloc: Global,
    f: &Formula,
    form: Form,
    first: u64,
    file: AagFile,
) -> Result<Judgement, Memory>
    requires well_formed { IsWellFormed f.now }
    requires judged { IsJudged first file }
    ensures { IfOk result (BehindMapping (mapping_line_in form first file.circuit) None
        (candidate_of f.now file.circuit file.symbols)) }
{
    let answer = judge_mapped(alloc, f, form, first, &file);
    drop(file);
    answer
}
