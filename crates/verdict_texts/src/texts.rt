//! The text of a verdict, from the log's answer.

ghost use Rattle.std.specs.Prelude.{◌≡◌, ◌≤◌, ◌++◌, true, [], codes, if◌then◌else◌, IfOk};
ghost use Rattle.dq_lits.specs.Formula.{Dqbf, IsWellFormed};
ghost use Rattle.dq_lits.specs.Henkin.{IsTrueFormula};
ghost use Rattle.aiger_text.specs.Canonical.{canonical_circuit};
ghost use Rattle.aig_binary.specs.Written.{binary_text};
ghost use Rattle.cert_text.specs.Header.{max_count};
ghost use Rattle.cert_export.specs.Exported.{CanExportFalse};
ghost use Rattle.cert_export.specs.ExportedCircuit.{CanExportTrue};
ghost use Rattle.cert_text.specs.Canonical.{canonical, canonical_proof};
ghost use Rattle.dq_runs.specs.Printed.{line};
ghost use Rattle.proof_deletions.specs.Deletions.{AreNumberedLines};
ghost use Rattle.ordered_gates.specs.Circuits.{is_sorted, ordered_file, ordered_proof};
ghost use Rattle.verdict_texts.specs.Forms.{written_items, written_refutation};
ghost use Rattle.verdict_texts.specs.Shown.{IsTrueText, IsFalseText, unknown_by};
ghost use Rattle.verdict_texts.specs.Verdicts.{with_proof, circuit_text, counts_text, verdict_text};

use crate::forms::{Form, written_items};
use crate::laws::{
    proved_circuits_are_accepted, refutations_are_accepted, short_texts_are_within_limits,
    small_logs_are_within_limits,
};
use aig_binary::write_binary;
use aiger_text::{AagFile, Text};
use cert_export::laws::{exported_lines_are_allowed, exported_proof_is_allowed};
use cert_export::{export_false, export_true};
use cert_text::{Dqp, Dqr, write_dqp, write_dqr};
use dq_formula::Formula;
use dq_lits::Memory;
use dq_lits::laws::derivation_refutes_expansion;
use hint_log::Log;
use hint_log::laws::rounds_are_steps;
use ordered_gates::laws::{ordered_files_are_binary, ordered_lines_are_numbered};
use ordered_gates::{ordered_circuit, ordered_items};
use proof_deletions::laws::{allowed_lines_are_numbered, deletions_are_allowed};
use refutation_checker::laws::refutation_shows_false;
use std::alloc::Global;

/// The text of the circuit that an answer decides for, with its proof.
pub fn true_text(
    alloc: Global,
    log: &Log,
    id: u64,
    f: &Formula,
    form: Form,
) -> Result<Vec<u8>, Memory>
    requires formula { IsWellFormed f.now }
    requires is_true { IsTrueFormula f.now }
    requires decided { CanExportTrue f.now log.now.entries id }
    ensures { IfOk result (λ text. IsTrueText f.now log.now form text.items) }
{
    f.every_formula_is_lawful();
    log.every_log_is_lawful();
    exported_proof_is_allowed();
    allowed_lines_are_numbered();
    proved_circuits_are_accepted();
    small_logs_are_within_limits();
    short_texts_are_within_limits();
    let (file, proof) = export_true(alloc, log, id, f)?;
    let evidence = circuit_text(alloc, file, proof, form)?;
    let text = with_verdict(alloc, "s TRUE\n", form, evidence)?;
    Ok(text)
}

/// A circuit with its proof in its comment. For the binary form its gates are sorted.
pub fn circuit_text(
    alloc: Global,
    mut file: AagFile,
    proof: Dqp,
    form: Form,
) -> Result<Vec<u8>, Memory>
    requires numbered { AreNumberedLines proof.items }
    requires sorted { form.binary ≡ true → is_sorted file.circuit ≡ true }
    ensures { IfOk result (λ text. text.items ≡ circuit_text form file proof) }
{
    if form.binary {
        return binary_circuit(alloc, &mut file, &proof, form);
    }
    ascii_circuit(alloc, &mut file, proof, form)
}

// The same in ASCII.
fn ascii_circuit(
    alloc: Global,
    file: &mut AagFile,
    proof: Dqp,
    form: Form,
) -> Result<Vec<u8>, Memory>
    requires { AreNumberedLines proof.items }
    ensures { IfOk result (λ text. text.items
        ≡ canonical_circuit (with_proof file.old
        (record { items = written_items form proof.items }))) }
{
    file.comment = Some(proof_text(alloc, proof, form)?);
    aiger_text::write(alloc, file)
}

// In the binary form, where the gates are sorted: each one's greater side first, and the hints after
// it.
fn binary_circuit(
    alloc: Global,
    file: &mut AagFile,
    proof: &Dqp,
    form: Form,
) -> Result<Vec<u8>, Memory>
    requires numbered { AreNumberedLines proof.now.items }
    requires sorted { is_sorted file.old.circuit ≡ true }
    ensures { IfOk result (λ text. text.items ≡ binary_text (with_proof (ordered_file file.old)
        (record { items = written_items form (ordered_proof file.old.circuit proof.now).items }))) }
{
    ordered_lines_are_numbered();
    ordered_files_are_binary();
    let items = ordered_items(alloc, &file.circuit, &proof.items)?;
    file.circuit = ordered_circuit(alloc, &file.circuit)?;
    file.comment = Some(proof_text(alloc, Dqp { items }, form)?);
    write_binary(alloc, file)
}

fn proof_text(alloc: Global, proof: Dqp, form: Form) -> Result<Text, Memory>
    requires { AreNumberedLines proof.items }
    ensures { IfOk result
        (λ text. text ≡ canonical_proof (record { items = written_items form proof.items })) }
{
    let items = written_items(alloc, proof.items, form)?;
    let text = write_dqp(alloc, &Dqp { items })?;
    Ok(Text::from_bytes(alloc, &text)?)
}

/// The text of the refutation that an answer stands for. The formula's clauses have these numbers in
/// the log, in order.
pub fn false_text(
    alloc: Global,
    log: &Log,
    id: u64,
    f: &Formula,
    numbers: &[u64],
    form: Form,
) -> Result<Vec<u8>, Memory>
    requires formula { IsWellFormed f.now }
    requires refuted { CanExportFalse f.now numbers.now log.now.entries id }
    requires limit { log.now.limit ≤ max_count }
    ensures { IfOk result (λ text. IsFalseText f.now numbers.now log.now form text.items) }
{
    f.every_formula_is_lawful();
    log.every_log_is_lawful();
    exported_lines_are_allowed();
    allowed_lines_are_numbered();
    deletions_are_allowed();
    derivation_refutes_expansion();
    refutations_are_accepted();
    refutation_shows_false();
    let refutation = export_false(alloc, log, id, f, numbers)?;
    let evidence = refutation_text(alloc, refutation, f, form)?;
    let text = with_verdict(alloc, "s FALSE\n", form, evidence)?;
    Ok(text)
}

/// A refutation as it is written.
pub fn refutation_text(
    alloc: Global,
    refutation: Dqr,
    f: &Formula,
    form: Form,
) -> Result<Vec<u8>, Memory>
    requires { AreNumberedLines refutation.items }
    ensures { IfOk result
        (λ text. text.items
        ≡ canonical f.now.universals (written_refutation form refutation)) }
{
    let Dqr { rows, items } = refutation;
    let items = written_items(alloc, items, form)?;
    write_dqr(alloc, &Dqr { rows, items }, f)
}

/// The text where the limit came first: the log's counts.
pub fn unknown_text(alloc: Global, log: &Log, form: Form) -> Result<Vec<u8>, Memory>
    ensures { IfOk result
        (λ text. (f : Dqbf) → text.items ≡ verdict_text form f (unknown_by log.now)) }
{
    rounds_are_steps();
    let rounds = log.rounds();
    let learned = log.steps() - rounds;
    let evidence = counts_line(alloc, rounds, learned)?;
    let text = with_verdict(alloc, "s UNKNOWN\n", form, evidence)?;
    Ok(text)
}

// The numbers of rounds and of learned clauses.
fn counts_line(alloc: Global, rounds: u64, learned: u64) -> Result<Vec<u8>, Memory>
    ensures { IfOk result (λ bytes. bytes.items ≡ line (counts_text rounds learned)) }
{
    let text = format!(in alloc; "c rounds {rounds} learned {learned}\n")?;
    Ok(text.into_bytes())
}

/// The evidence behind the line with the verdict, or alone.
pub fn with_verdict(
    alloc: Global,
    verdict: &str,
    form: Form,
    evidence: Vec<u8>,
) -> Result<Vec<u8>, Memory>
    ensures { IfOk result
        (λ text. text.items ≡ (if form.bare then [] else verdict.now) ++ evidence.items) }
{
    if form.bare {
        return Ok(evidence);
    }
    let mut text = Vec::new(alloc);
    text.extend_from_slice(verdict.as_bytes())?;
    text.extend_from_slice(&evidence)?;
    Ok(text)
}
