//! A circuit's lines, and the first line of its comment, which begins a proof or doesn't.

ghost use Rattle.std.specs.Prelude.{◌≡◌, ◌<◌, ◌^◌, true, None, Some, Option, IfOk, IfSome};
ghost use Rattle.std.specs.Option.{option_map};
ghost use Rattle.dq_lits.specs.Formula.{IsWellFormed};
ghost use Rattle.cert_text.specs.CircuitProof.{first_proof_id};
ghost use Rattle.cert_text.specs.Numbering.{numbered_from};
ghost use Rattle.proof_checker.specs.Judging.{run_of, IsJudging};
ghost use Rattle.aiger_text.specs.CircuitLines.{CircuitLines};
ghost use Rattle.cert_judge.specs.CircuitPhases.{BeginsComment, BeginsProof, FollowsLine, IsStoppedPhase, IsWholeCircuit, TakesCircuit};
ghost use Rattle.cert_judge.specs.Phases.{AreLinesFrom, HasNoEnd, IsJudged, IsLawful};

use crate::answers::{CertificateFault, Judgement, refused};
use crate::circuits::{Form, begins_proof};
use crate::phases::{Phase, boxed};
use crate::proof_starts::{ProofStart, proof_start_of};
use aiger_text::laws::circuit_or_first_fault;
use aiger_text::{AagFile, AagLines, AagStop};
use cert_stream::ProofStream;
use circuit_plain::Circuit;
use dq_formula::Formula;
use dq_lits::Memory;
use proof_checker::CircuitProving;
use rup_core::laws::run_is_fault;
use std::alloc::Global;
use std::mem;

/// Takes a line of a circuit's text: the phase that follows, if another one does.
pub(crate) fn take_circuit_line<'f>(
    alloc: Global,
    f: &'f Formula,
    first: u64,
    lines: &mut AagLines,
    line: &[u8],
) -> Result<Option<Box<Phase<'f>>>, Memory>
    requires well_formed { IsWellFormed f.now }
    requires one_line { HasNoEnd line.now }
    requires lawful { AreLinesFrom first lines.old }
    ensures { IfOk result
        (λ next. TakesCircuit f.now first lines.old line.now lines.new (option_map (λ b. b.value) next)) }
{
    if lines.in_comment() {
        return Ok(Some(leave_circuit(alloc, f, first, lines, line)?));
    }
    match lines.line(line) {
        Ok(()) => Ok(None),
        Err(stop) => Ok(Some(stop_circuit(alloc, stop)?)),
    }
}

// Takes the first line of the comment of a circuit whose lines were read, and lets these go.
#[inline(never)]
fn leave_circuit<'f>(
    alloc: Global,
    f: &'f Formula,
    first: u64,
    lines: &mut AagLines,
    line: &[u8],
) -> Result<Box<Phase<'f>>, Memory>
    requires well_formed { IsWellFormed f.now }
    requires one_line { HasNoEnd line.now }
    requires lawful { AreLinesFrom first lines.old }
    requires comment { IsWholeCircuit lines.old }
    ensures lawful { IfOk result (λ next. IsLawful next.value) }
    ensures follows { IfOk result (λ next. FollowsLine f.now lines.old line.now next.value) }
{
    let read = mem::replace(lines, AagLines::new(alloc, first));
    let next = end_circuit_text(alloc, f, first, read, line)?;
    boxed(alloc, next)
}

/// The same in a box.
#[inline(never)]
pub(crate) fn stop_circuit<'f>(alloc: Global, stop: AagStop) -> Result<Box<Phase<'f>>, Memory>
    ensures { IfOk result (λ next. IsStoppedPhase stop next.value) }
{
    boxed(alloc, stopped_phase(stop)?)
}

/// What follows where the reading of a circuit stopped.
pub(crate) fn stopped_phase<'f>(stop: AagStop) -> Result<Phase<'f>, Memory>
    ensures { IfOk result (IsStoppedPhase stop) }
{
    match stop {
        AagStop::Refused { line, name } => {
            let name = CertificateFault::Circuit(name);
            Ok(Phase::Decided(refused(line, name)))
        }
        AagStop::Memory => Err(Memory),
    }
}

// Takes the first line of the comment of a circuit whose lines were read.
fn end_circuit_text<'f>(
    alloc: Global,
    f: &'f Formula,
    first: u64,
    lines: AagLines,
    line: &[u8],
) -> Result<Phase<'f>, Memory>
    requires well_formed { IsWellFormed f.now }
    requires one_line { HasNoEnd line.now }
    requires lawful { AreLinesFrom first lines }
    requires comment { IsWholeCircuit lines }
    ensures lawful { IfOk result IsLawful }
    ensures follows { IfOk result (FollowsLine f.now lines line.now) }
{
    circuit_or_first_fault();
    let number = lines.number();
    let (circuit, symbols) = match lines.end() {
        Ok(parts) => parts,
        Err(stop) => return stopped_phase(stop),
    };
    let file = AagFile {
        circuit,
        symbols,
        comment: None,
    };
    begin_comment(alloc, f, Form::Ascii, first, number, file, line)
}

/// Takes the first line of a comment, which has this number.
pub(crate) fn begin_comment<'f>(
    alloc: Global,
    f: &'f Formula,
    form: Form,
    first: u64,
    number: u64,
    file: AagFile,
    line: &[u8],
) -> Result<Phase<'f>, Memory>
    requires well_formed { IsWellFormed f.now }
    requires one_line { HasNoEnd line.now }
    requires judged { IsJudged first file }
    ensures lawful { IfOk result IsLawful }
    ensures begins { IfOk result (BeginsComment f.now form first number file line.now) }
{
    if !begins_proof(line) {
        return Ok(Phase::FreeText { form, first, file });
    }
    run_is_fault();
    let proof_start = proof_start_of(alloc, f, form, first, &file);
    let circuit = circuit_in(file);
    let proof_start = match proof_start {
        Ok(proof_start) => proof_start,
        Err(Memory) => {
            drop(circuit);
            return Err(Memory);
        }
    };
    match proof_start {
        ProofStart::Found(finding) => {
            Ok(begin_proof(alloc, f, number, circuit, None, Some(finding), line))
        }
        ProofStart::Proving(proving) => {
            Ok(begin_proof(alloc, f, number, circuit, Some(proving), None, line))
        }
    }
}

/// The circuit of a file, of which all else is let go.
pub(crate) fn circuit_in(file: AagFile) -> Circuit
    ensures { result ≡ file.circuit }
{
    let AagFile {
        circuit,
        symbols,
        comment,
    } = file;
    drop(symbols);
    drop(comment);
    circuit
}

/// Takes the header line of a proof, which has this number.
pub(crate) fn begin_proof<'f>(
    alloc: Global,
    f: &'f Formula,
    number: u64,
    circuit: Circuit,
    proving: Option<CircuitProving>,
    finding: Option<Judgement>,
    header: &[u8],
) -> Phase<'f>
    requires one_line { HasNoEnd header.now }
    requires judging { IfSome proving (λ p. IsJudging f.now circuit p
        (numbered_from (first_proof_id f.now circuit))) }
    ensures lawful { IsLawful result }
    ensures begins { BeginsProof f.now circuit number finding
        (option_map (run_of f.now circuit) proving) header.now result }
{
    let mut proof = ProofStream::new(alloc, f, circuit, proving, number);
    proof.line(header);
    Phase::Proof { proof, finding }
}
