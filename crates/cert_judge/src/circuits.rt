//! Judging a circuit that was read and has no proof: its mapping, its reads, and then its rows.

ghost use Rattle.std.specs.Prelude.{◌≡◌, ◌==◌, ◌<◌, ◌^◌, None, IfOk};
ghost use Rattle.std.specs.List.{position};
ghost use Rattle.dq_lits.specs.Formula.{IsWellFormed};
ghost use Rattle.dq_text.specs.Line.{line_tokens};
ghost use Rattle.skolem_checker.specs.Checks.{candidate_of};
ghost use Rattle.skolem_checker.specs.Mapping.{IsAtPlace};
ghost use Rattle.skolem_checker.specs.SkolemCircuit.{IsComplete};
ghost use Rattle.cert_judge.specs.Judgement.{begins_with, first_line, begins_proof, IsTestedByRows, IsTested, BehindMapping};
ghost use Rattle.cert_judge.specs.Places.{HasFewLines, AnswersStop, mapping_line_in};
ghost use Rattle.cert_judge.specs.declared.answers.CertificateFault.TheVariants.{Mapping};
ghost use Rattle.cert_judge.specs.declared.answers.Judgement.TheVariants.{Refused};

use crate::answers::{CertificateFault, Judgement, refused};
use aiger_text::{AagFile, AagStop};
use circuit_plain::Circuit;
use dq_formula::Formula;
use dq_lits::Memory;
use dq_text::LineTokens;
use skolem_checker::laws::mapping_faults_have_places;
use skolem_checker::{Bench, BenchStop, MapError, MapPlace};
use std::alloc::Global;

/// The most universals of which all rows are tried.
const MAX_ROW_UNIVERSALS: usize = 20;

// The answer where the reading of a circuit file stopped.
pub(crate) fn stopped(stop: AagStop) -> Result<Judgement, Memory>
    ensures { IfOk result (AnswersStop stop) }
{
    match stop {
        AagStop::Refused { line, name } => Ok(refused(line, CertificateFault::Circuit(name))),
        AagStop::Memory => Err(Memory),
    }
}

// Whether the text's first token is this word.
fn begins_with(text: &[u8], word: &[u8]) -> bool
    ensures { result ≡ begins_with word.now (line_tokens text.now) }
{
    match LineTokens::new(text).next() {
        Some(token) => token == word,
        None => false,
    }
}

fn first_line_end(bytes: &[u8]) -> Option<usize>
    ensures { result ≡ position (λ byte. byte == 10) bytes.now }
{
    bytes.iter().position(|byte| *byte == b'\n')
}

fn first_line(bytes: &[u8]) -> &[u8]
    ensures { result.now ≡ first_line bytes.now }
{
    match first_line_end(bytes) {
        Some(end) => &bytes[..end],
        None => bytes,
    }
}

pub(crate) fn begins_proof(comment: &[u8]) -> bool
    ensures { result ≡ begins_proof comment.now }
{
    let line = first_line(comment);
    begins_with(line, b"dqp") || begins_with(line, b"dqp2")
}

/// Whether a circuit's inputs have lines.
#[derive(Clone, Copy, PartialEq, Eq)]
pub(crate) enum Form {
    Ascii,
    Binary,
}

// The line of an input or an output, or of the header.
fn mapping_line(form: Form, header: u64, circuit: &Circuit, at: MapPlace) -> u64
    requires fits { header < 2 ^ 62 }
    requires there { IsAtPlace circuit.now at }
    requires few { HasFewLines circuit.now }
    ensures { result ≡ mapping_line_in form header circuit.now at }
{
    match (form, at) {
        (_, MapPlace::Whole) | (Form::Binary, MapPlace::Input(_)) => header,
        (Form::Ascii, MapPlace::Input(place)) => header + 1 + place as u64,
        (Form::Ascii, MapPlace::Output(place)) => {
            header + 1 + circuit.inputs().len() as u64 + place as u64
        }
        (Form::Binary, MapPlace::Output(place)) => header + 1 + place as u64,
    }
}

/// What is said of a circuit whose mapping has this fault.
pub(crate) fn mapping_refusal(
    form: Form,
    header: u64,
    circuit: &Circuit,
    fault: MapError,
) -> Judgement
    requires fits { header < 2 ^ 62 }
    requires there { IsAtPlace circuit.now fault.at }
    requires few { HasFewLines circuit.now }
    ensures { result ≡ Refused (mapping_line_in form header circuit.now fault.at)
        (Mapping fault.name) }
{
    let line = mapping_line(form, header, circuit, fault.at);
    refused(line, CertificateFault::Mapping(fault.name))
}

/// Judges a circuit file that has no proof: its mapping, and then its circuit.
pub(crate) fn judge_mapped(
    alloc: Global,
    f: &Formula,
    form: Form,
    first: u64,
    file: &AagFile,
) -> Result<Judgement, Memory>
    requires well_formed { IsWellFormed f.now }
    requires fits { first < 2 ^ 62 }
    requires complete { IsComplete file.now.circuit }
    requires few { HasFewLines file.now.circuit }
    ensures { IfOk result (BehindMapping (mapping_line_in form first file.now.circuit) None
        (candidate_of f.now file.now.circuit file.now.symbols)) }
{
    match Bench::new(alloc, f, file) {
        Ok(mut bench) => {
            let answer = judge_reads(f, &mut bench);
            drop(bench);
            Ok(answer)
        }
        Err(BenchStop::Map(fault)) => {
            mapping_faults_have_places();
            Ok(mapping_refusal(form, first, &file.circuit, fault))
        }
        Err(BenchStop::Memory) => Err(Memory),
    }
}

// Judges a mapped circuit: what it reads, and then its rows.
fn judge_reads(f: &Formula, bench: &mut Bench) -> Judgement
    requires { bench.old.formula ≡ f.now }
    ensures { IsTested None bench.old result }
{
    match bench.reads_ok() {
        Ok(()) => judge_rows(f, bench),
        Err((existential, universal)) => Judgement::UndeclaredRead {
            existential,
            universal,
        },
    }
}

// Tries the rows.
fn judge_rows(f: &Formula, bench: &mut Bench) -> Judgement
    requires { bench.old.formula ≡ f.now }
    ensures { IsTestedByRows bench.old.formula bench.old.circuit result }
{
    let universals = f.universals().len();
    if universals > MAX_ROW_UNIVERSALS {
        return Judgement::Unproved { universals };
    }
    match bench.by_all_rows() {
        Ok(()) => Judgement::ValidTrue,
        Err(number) => Judgement::BadRow { number },
    }
}
