//! Circuits in AIGER's binary form. Their inputs aren't written, and may be many more than their text
//! has bytes: they are listed only where they are as many as the formula's universals.

ghost use Rattle.std.specs.Prelude.{◌≡◌, ◌≤◌, [], None, length, IfOk};
ghost use Rattle.std.specs.Option.{option_map};
ghost use Rattle.dq_lits.specs.Formula.{IsWellFormed};
ghost use Rattle.aig_binary.specs.BareFile.{IsBare};
ghost use Rattle.aig_binary.specs.BareReading.{listed};
ghost use Rattle.aig_binary.specs.FilesByLine.{binary_gives};
ghost use Rattle.aig_binary.specs.declared.files_by_line.Place.TheVariants.{Comment};
ghost use Rattle.skolem_checker.specs.Checks.{candidate_of};
ghost use Rattle.cert_judge.specs.BinaryPhases.{FollowsBinary, GivesBareText, GivesFreeBinary, StartsBinary, TakesBinaryLine};
ghost use Rattle.cert_judge.specs.CircuitPhases.{BeginsComment, IsStoppedPhase};
ghost use Rattle.cert_judge.specs.Judgement.{binary_mapping_line, BehindMapping};
ghost use Rattle.cert_judge.specs.Phases.{AreBinaryLines, GivesBinary, HasNoEnd, IsJudged, IsLawful};
ghost use Rattle.cert_judge.specs.declared.answers.CertificateFault.TheVariants.{Mapping};
ghost use Rattle.cert_judge.specs.declared.answers.Judgement.TheVariants.{Refused};
ghost use Rattle.cert_judge.specs.declared.circuits.Form.TheVariants.{Binary as BinaryForm};
ghost use Rattle.skolem_checker.specs.declared.mapping.MapName.TheVariants.{InputCount};

use crate::answers::{CertificateFault, Judgement, refused};
use crate::circuits::{Form, begins_proof, stopped};
use crate::comments::{begin_comment, begin_proof, circuit_in, stop_circuit, stopped_phase};
use crate::endings::finish_file;
use crate::phases::{Phase, boxed};
use aig_binary::laws::{binary_circuit_or_first_fault, binary_circuits_are_lawful};
use aig_binary::{AigLines, BareCircuit, begin_lines, list_inputs};
use dq_formula::Formula;
use dq_lits::Memory;
use skolem_checker::MapName;
use std::alloc::Global;

/// Takes the header line of a circuit in the binary form.
pub(crate) fn start_binary<'f>(
    alloc: Global,
    first: u64,
    header: &[u8],
) -> Result<Phase<'f>, Memory>
    requires one_line { HasNoEnd header.now }
    requires early { first ≤ 2 }
    ensures { IfOk result (StartsBinary first header.now) }
{
    match begin_lines(alloc, first, header) {
        Ok(lines) => Ok(Phase::Binary { first, lines }),
        Err(stop) => stopped_phase(stop),
    }
}

/// Takes a line of a circuit's text: the phase that follows, if another one does.
#[inline(never)]
pub(crate) fn take_binary_line<'f>(
    alloc: Global,
    f: &'f Formula,
    first: u64,
    lines: &mut AigLines,
    line: &[u8],
    ended: bool,
) -> Result<Option<Box<Phase<'f>>>, Memory>
    requires well_formed { IsWellFormed f.now }
    requires one_line { HasNoEnd line.now }
    requires lawful { AreBinaryLines first lines.old }
    ensures { IfOk result (λ next. TakesBinaryLine f.now first lines.old line.now ended lines.new
        (option_map (λ b. b.value) next)) }
{
    if lines.in_comment() {
        return Ok(Some(leave_binary(alloc, f, first, lines, line)?));
    }
    match lines.line(alloc, line, ended) {
        Ok(()) => Ok(None),
        Err(stop) => Ok(Some(stop_circuit(alloc, stop)?)),
    }
}

// Takes the first line of the comment of a circuit that was read.
fn leave_binary<'f>(
    alloc: Global,
    f: &'f Formula,
    first: u64,
    lines: &mut AigLines,
    line: &[u8],
) -> Result<Box<Phase<'f>>, Memory>
    requires well_formed { IsWellFormed f.now }
    requires one_line { HasNoEnd line.now }
    requires lawful { AreBinaryLines first lines.old }
    requires comment { lines.old.place ≡ Comment }
    ensures lawful { IfOk result (λ next. IsLawful next.value) }
    ensures follows { IfOk result
        (λ next. FollowsBinary f.now first lines.old line.now next.value) }
{
    let next = end_binary_text(alloc, f, first, lines, line)?;
    boxed(alloc, next)
}

// The same, as it is.
fn end_binary_text<'f>(
    alloc: Global,
    f: &'f Formula,
    first: u64,
    lines: &mut AigLines,
    line: &[u8],
) -> Result<Phase<'f>, Memory>
    requires well_formed { IsWellFormed f.now }
    requires one_line { HasNoEnd line.now }
    requires lawful { AreBinaryLines first lines.old }
    requires comment { lines.old.place ≡ Comment }
    ensures lawful { IfOk result IsLawful }
    ensures follows { IfOk result (FollowsBinary f.now first lines.old line.now) }
{
    binary_circuit_or_first_fault();
    binary_circuits_are_lawful();
    let number = lines.number;
    let bare = lines.take_file(alloc);
    begin_bare_comment(alloc, f, first, number, bare, line)
}

// Takes the first line of the comment of a circuit, which has this number.
fn begin_bare_comment<'f>(
    alloc: Global,
    f: &'f Formula,
    first: u64,
    number: u64,
    bare: BareCircuit,
    line: &[u8],
) -> Result<Phase<'f>, Memory>
    requires well_formed { IsWellFormed f.now }
    requires one_line { HasNoEnd line.now }
    requires bare { IsBare bare }
    requires judged { IsJudged first (listed bare).file }
    ensures lawful { IfOk result IsLawful }
    ensures begins { IfOk result
        (BeginsComment f.now BinaryForm first number (listed bare).file line.now) }
{
    if bare.inputs != f.universals().len() as u64 {
        return Ok(begin_refused(alloc, f, first, number, bare, line));
    }
    let read = list_inputs(bare)?;
    begin_comment(alloc, f, Form::Binary, first, number, read.file, line)
}

// The same of a circuit with another number of inputs than there are universals.
fn begin_refused<'f>(
    alloc: Global,
    f: &'f Formula,
    first: u64,
    number: u64,
    bare: BareCircuit,
    line: &[u8],
) -> Phase<'f>
    requires one_line { HasNoEnd line.now }
    requires other { ¬ (bare.inputs ≡ length f.now.universals) }
    ensures lawful { IsLawful result }
    ensures begins { BeginsComment f.now BinaryForm first number (listed bare).file line.now result }
{
    let finding = other_count(first);
    if begins_proof(line) {
        let circuit = circuit_in(bare.file);
        return begin_proof(alloc, f, number, circuit, None, Some(finding), line);
    }
    drop(bare);
    Phase::Decided(finding)
}

// The inputs aren't as many as the universals.
fn other_count(first: u64) -> Judgement
    ensures { result ≡ Refused first (Mapping InputCount) }
{
    refused(first, CertificateFault::Mapping(MapName::InputCount))
}

/// What follows where a circuit was read, and its comment is no proof.
pub(crate) fn binary_free_text<'f>(
    alloc: Global,
    f: &'f Formula,
    first: u64,
    lines: &mut AigLines,
) -> Result<Phase<'f>, Memory>
    requires lawful { AreBinaryLines first lines.old }
    requires comment { lines.old.place ≡ Comment }
    ensures lawful { IfOk result IsLawful }
    ensures gives { IfOk result (GivesFreeBinary f.now first lines.old) }
{
    binary_circuit_or_first_fault();
    binary_circuits_are_lawful();
    let bare = lines.take_file(alloc);
    bare_free_text(f, first, bare)
}

// The same of its file.
fn bare_free_text<'f>(f: &'f Formula, first: u64, bare: BareCircuit) -> Result<Phase<'f>, Memory>
    requires bare { IsBare bare }
    requires judged { IsJudged first (listed bare).file }
    ensures lawful { IfOk result IsLawful }
    ensures gives { IfOk result (GivesBareText f.now first (listed bare).file) }
{
    if bare.inputs != f.universals().len() as u64 {
        drop(bare);
        return Ok(Phase::Decided(other_count(first)));
    }
    let read = list_inputs(bare)?;
    Ok(Phase::FreeText {
        form: Form::Binary,
        first,
        file: read.file,
    })
}

/// Judges a circuit whose text ends here.
pub(crate) fn finish_binary(
    alloc: Global,
    f: &Formula,
    first: u64,
    lines: AigLines,
) -> Result<Judgement, Memory>
    requires well_formed { IsWellFormed f.now }
    requires lawful { AreBinaryLines first lines }
    ensures { IfOk result (GivesBinary f.now first lines []) }
{
    binary_circuit_or_first_fault();
    binary_circuits_are_lawful();
    match lines.end(alloc) {
        Ok(bare) => finish_bare(alloc, f, first, bare),
        Err(stop) => stopped(stop),
    }
}

// Judges a circuit file that has no proof: first the number of its inputs.
fn finish_bare(
    alloc: Global,
    f: &Formula,
    first: u64,
    bare: BareCircuit,
) -> Result<Judgement, Memory>
    requires well_formed { IsWellFormed f.now }
    requires bare { IsBare bare }
    requires judged { IsJudged first (listed bare).file }
    ensures { IfOk result (BehindMapping (binary_mapping_line first) None
        (candidate_of f.now (listed bare).file.circuit bare.file.symbols)) }
{
    if bare.inputs != f.universals().len() as u64 {
        drop(bare);
        return Ok(other_count(first));
    }
    let read = list_inputs(bare)?;
    finish_file(alloc, f, Form::Binary, first, read.file)
}
