//! A whole run: the words, both files, the judgement, and what is written.
//!
//! A certificate's stream is ended also where its file failed or is too long, and what it says is
//! thrown away: to drop a stream costs the prover more than all else here. The row in `INVALID row`
//! is read off the row's number, lowest bit first.

ghost use Rattle.std.specs.Prelude.{◌≡◌, ℕ, List, map, string_bytes, vec_len, codes, Some, IfOk, OnOk, IsErrOf};
ghost use Rattle.dq_io.specs.State.{state_of};
ghost use Rattle.dq_lits.specs.Formula.{IsWellFormed};
ghost use Rattle.dq_runs.specs.Ending.{Ends, HasCauses};
ghost use Rattle.dq_runs.specs.Printed.{printed, unreadable_line, long_line};
ghost use Rattle.dq_runs.specs.Sinks.{sink_of};
ghost use Rattle.cert_judge.specs.Judgement.{IsJudgement};
ghost use Rattle.cert_judge.specs.Streams.{StandsFor};
ghost use Rattle.cert_judge.specs.declared.answers.Judgement.{Judgement};
ghost use Rattle.dqcheck_words.specs.Spelling.{spelled_command};
ghost use Rattle.dqcheck_core.specs.Outputs.{IsReported, IsReportedBehind};
ghost use Rattle.dqcheck_core.specs.Report.{judged, printed_report};
ghost use Rattle.dqcheck_core.specs.Running.{IsDue};
ghost use Rattle.dqcheck_core.specs.OnePage.{ShowsHeadline};
ghost use Rattle.dqcheck_core.specs.Told.{AreTold, JudgesTold};

use crate::reports::judged_output;
use cert_judge::Stream;
use cert_judge::laws::{acceptance_is_sound, one_judgement};
use dq_formula::Formula;
use dq_io::{FeedStop, Files, Sink, feed_all};
use dq_lits::Memory;
use dq_runs::{FormulaStop, Output, deliver, outputs, read_formula};
use dqcheck_words::{FileNames, file_names};
use dqdimacs_reader::laws::formula_or_first_fault;
use headline_laws::laws::{
    definitions_are_on_the_page, formulas_are_on_the_page, skolem_circuits_are_on_the_page,
};
use std::alloc::{AllocError, Global};
use std::mem;

/// The most bytes of a certificate.
const MAX_CERTIFICATE: u64 = 1 << 40;

/// How many bytes are asked for at once.
const PIECE: usize = 65536;

/// Judges the certificate in one file for the formula in another, and writes one line.
///
/// The words are the program's name and the files' names, spelled as `spelled_command` of
/// `dqcheck_words` says. The status is 0 where the certificate is accepted, 1 where the words are
/// others, 2 where the formula's text has a fault, 3 where a file can't be read, 4 where the line
/// can't be written, 5 for want of memory, 6 where a file is too long, 7 where the certificate's text
/// has a fault, 8 where the certificate is wrong, and 9 where it has no proof and there are too many
/// universals to try all rows.
pub fn dqcheck_run<F: Files, K: Sink>(
    alloc: Global,
    words: &[String],
    files: &mut F,
    out: &mut K,
) -> u8
    // What is written is the line that is due, and the status is that line's.
    ensures ends { Ends
        (IsDue (state_of F.Files files.old) (state_of F.Files files.new)
        (spelled_command (map string_bytes words.now)))
        (sink_of K.Sink out.old) (sink_of K.Sink out.new) result }

    // Over files that are told: what is accepted is right, and where nothing failed, the
    // certificate is judged.
    ensures told { JudgesTold (state_of F.Files files.old) (state_of F.Files files.new)
        (spelled_command (map string_bytes words.now))
        (sink_of K.Sink out.old) (sink_of K.Sink out.new) result }

    // On one page: over files that are told, what is written with status 0 is right of their texts.
    ensures headline { (formula certificate : List ℕ)
        → AreTold (F.held files.old) (spelled_command (map string_bytes words.now)) formula
        certificate
        → result ≡ 0 → ShowsHeadline formula certificate (sink_of K.Sink out.old).taken
        (sink_of K.Sink out.new).taken }

    // Each refusal has its cause, and no fault is passed over, over all files and sinks.
    ensures causes { HasCauses (spelled_command (map string_bytes words.now))
        (state_of F.Files files.old) (state_of F.Files files.new)
        (sink_of K.Sink out.old) (sink_of K.Sink out.new) result }
{
    one_judgement();
    acceptance_is_sound();
    formula_or_first_fault();
    formulas_are_on_the_page();
    skolem_circuits_are_on_the_page();
    definitions_are_on_the_page();
    let output = report(alloc, words, files);
    deliver(out, output)
}

// What is to be written.
fn report<F: Files>(alloc: Global, words: &[String], files: &mut F) -> Result<Output, Memory>
    ensures reported { IfOk result
        (IsReported (state_of F.Files files.old) (state_of F.Files files.new)
        (spelled_command (map string_bytes words.now))) }
    ensures held { F.held files.new ≡ F.held files.old }
{
    match file_names(alloc, words)? {
        None => outputs::usage(alloc, "dqcheck FORMULA CERT"),
        Some(names) => report_files(alloc, names, files),
    }
}

// What is to be written where the words name two files.
fn report_files<F: Files>(alloc: Global, names: FileNames, files: &mut F) -> Result<Output, Memory>
    ensures reported { IfOk result
        (IsReported (state_of F.Files files.old) (state_of F.Files files.new)
        (Some (record {
          formula = names.entry.formula.now;
          certificate = names.entry.certificate.now;
        }))) }
    ensures held { F.held files.new ≡ F.held files.old }
{
    match read_formula(alloc, files, names.formula) {
        Ok(formula) => {
            let reported = report_certificate(alloc, &formula, names, files);
            // The run ends here: to give back each of the formula's lists would only take time.
            mem::forget(formula);
            reported
        }
        Err(FormulaStop::Memory) => Err(Memory),
        Err(FormulaStop::Said(said)) => said.output(alloc),
    }
}

// What is to be written where the formula's file was read.
fn report_certificate<F: Files>(
    alloc: Global,
    formula: &Formula,
    names: FileNames,
    files: &mut F,
) -> Result<Output, Memory>
    requires { IsWellFormed formula.now }
    ensures reported { IfOk result
        (IsReportedBehind (state_of F.Files files.old) (state_of F.Files files.new)
        names.entry.certificate.now formula.now) }
    ensures held { F.held files.new ≡ F.held files.old }
{
    let Ok(mut buffer) = zeros(alloc, PIECE) else {
        return Err(Memory);
    };
    let mut stream = Stream::new(alloc, formula);
    let fed = feed_all(
        files,
        names.certificate,
        MAX_CERTIFICATE,
        &mut stream,
        &mut buffer,
    );
    report_fed(alloc, formula, stream, fed)
}

// What is to be written where the certificate's file was fed, or why it wasn't. The stream is ended
// in either case: a function that drops it costs the prover more than all others of this crate.
fn report_fed(
    alloc: Global,
    formula: &Formula,
    stream: Stream,
    fed: Result<(), FeedStop>,
) -> Result<Output, Memory>
    requires { stream.formula ≡ formula.now }
    ensures judged { OnOk fed (IfOk result (λ output. (text : List ℕ) → StandsFor stream.entry text
        → (answer : Judgement) × IsJudgement formula.now text answer
        × (printed output ≡ printed_report (judged formula.now answer)))) }
    ensures unreadable { IsErrOf fed FeedStop.Fault
        → IfOk result (λ output. printed output ≡ unreadable_line) }
    ensures too_long { IsErrOf fed FeedStop.TooLong
        → IfOk result (λ output. printed output ≡ long_line (codes "certificate")) }
{
    let answer = stream.end();
    match fed {
        Ok(()) => judged_output(alloc, formula, answer?),
        Err(FeedStop::Fault) => outputs::unreadable(alloc),
        Err(FeedStop::TooLong) => outputs::too_long(alloc, "certificate"),
    }
}

fn zeros(alloc: Global, count: usize) -> Result<Vec<u8>, AllocError>
    ensures { IfOk result (λ v. vec_len v ≡ count) }
{
    vec![in alloc; 0u8; count]
}
