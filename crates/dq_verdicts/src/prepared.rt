//! The search on what is left of a formula, and what is written with its verdict.

ghost use Rattle.std.specs.Prelude.{◌≡◌, ◌≢◌, ◌≤◌, [], None, IfOk};
ghost use Rattle.std.specs.Bool.{OnTrue, OnFalse};
ghost use Rattle.dq_lits.specs.Formula.{IsWellFormed};
ghost use Rattle.dq_lits.specs.Henkin.{IsTrueFormula};
ghost use Rattle.dq_prep.specs.Simplified.{simplified_formula};
ghost use Rattle.dq_prep.specs.Units.{AreUnits};
ghost use Rattle.hint_log.specs.Deciding.{IsUndecided};
ghost use Rattle.hint_log.specs.ProductiveLog.{IsProductiveLog};
ghost use Rattle.cert_export.specs.ExportedCircuit.{IsDecidedTrue};
ghost use Rattle.cert_text.specs.Grammar.{IsDqrOf};
ghost use Rattle.cert_text.specs.Header.{max_count};
ghost use Rattle.proof_deletions.specs.Deletions.{AreNumberedLines};
ghost use Rattle.refutation_checker.specs.Refutation.{refutation_fault};
ghost use Rattle.repair_loop.specs.Searching.{IsShownFalse};
ghost use Rattle.repair_loop.specs.Stopping.{IsStoppedAtLimit};
ghost use Rattle.dq_verdicts.specs.Prepared.{IsPrep, IsPrepared, IsPreparedOutput, IsPreparedLog, IsCertificate};

use crate::statuses::SolveStatus;
use crate::verdicts::{Decision, search, solve};
use aiger_text::AagFile;
use cert_export::laws::{exported_proof_is_allowed, productive_answers_can_be_exported};
use cert_export::{clause_numbers, export_false, export_true};
use cert_text::{Dqp, Dqr};
use dq_formula::Formula;
use dq_lits::laws::derivation_refutes_expansion;
use dq_lits::{Lit, Memory};
use dq_prep::laws::{simplification_keeps_choices, simplified_formulas_are_well_formed};
use dq_prep::{Trace, prep};
use dq_runs::Output;
use hint_log::laws::rounds_are_steps;
use hint_log::{Log, Stop};
use lifted_proofs::laws::settled_files_are_spellable;
use lifted_proofs::{lift_false, lift_true};
use proof_deletions::laws::allowed_lines_are_numbered;
use refutation_checker::laws::refutation_shows_false;
use std::alloc::Global;
use verdict_texts::laws::{
    proved_circuits_are_accepted, refutations_are_accepted, short_texts_are_within_limits,
};
use verdict_texts::{Form, circuit_text, refutation_text, unknown_text, with_verdict};

/// The most lines of a refutation's text.
const MOST: u64 = 1_000_000_000;

// A formula, what is left of it where these units were taken, and the units.
#[derive(Drop)]
struct Prepared<'a> {
    alloc: Global,
    formula: &'a Formula,
    left: &'a Formula,
    trace: &'a Trace,
}

/// Takes the units of a formula, searches for a verdict on what is left of it, in as many steps as
/// the log allows, and writes the verdict with evidence over the formula itself. The statuses are
/// those of `solve`.
pub fn solve_prepared(
    alloc: Global,
    f: &Formula,
    form: Form,
    log: &mut Log,
) -> Result<Output, Memory>
    requires formula { IsWellFormed f.now }
    requires empty { log.old.entries ≡ [] }
    requires limit { log.old.limit ≤ max_count }
    ensures verdict { IfOk result (IsPreparedOutput f.now log.new form) }
    ensures productive { IsPreparedLog f.now log.new }
    ensures limit { log.new.limit ≡ log.old.limit }
{
    simplified_formulas_are_well_formed();
    let (g, trace) = prep(alloc, f)?;
    if same_clauses(f, &g) {
        return solve(alloc, f, form, log);
    }
    let prepared = Prepared {
        alloc,
        formula: f,
        left: &g,
        trace: &trace,
    };
    solve_left(&prepared, form, log)
}

// Searches what is left of a formula, where something went.
fn solve_left(p: &Prepared, form: Form, log: &mut Log) -> Result<Output, Memory>
    requires prepared { IsPrepared p.now }
    requires empty { log.old.entries ≡ [] }
    requires limit { log.old.limit ≤ max_count }
    ensures verdict { IfOk result (IsPreparedOutput p.now.formula.now log.new form) }
    ensures productive { IsProductiveLog p.now.left.now log.new.entries }
    ensures limit { log.new.limit ≡ log.old.limit }
{
    match search(p.alloc, p.left, log) {
        Ok(Decision::Shown(id)) => lifted_true(p, log, id, form),
        Ok(Decision::Refuted(id)) => lifted_false(p, log, id, form),
        Err(Stop::Limit) => undecided(p, log, form),
        Err(Stop::Memory) => Err(Memory),
    }
}

// What is written where what is left is true.
fn lifted_true(p: &Prepared, log: &Log, id: u64, form: Form) -> Result<Output, Memory>
    requires prepared { IsPrepared p.now }
    requires productive { IsProductiveLog p.now.left.now log.now.entries }
    requires is_true { IsTrueFormula p.now.left.now }
    requires decided { IsDecidedTrue p.now.left.now log.now.entries id }
    ensures { IfOk result (IsPreparedOutput p.now.formula.now log.now form) }
{
    p.formula.every_formula_is_lawful();
    simplification_keeps_choices();
    proved_circuits_are_accepted();
    short_texts_are_within_limits();
    let (file, proof) = certificate(p, log, id)?;
    let evidence = circuit_text(p.alloc, file, proof, form)?;
    let text = with_verdict(p.alloc, "s TRUE\n", form, evidence)?;
    Ok(Output {
        status: SolveStatus::True.code(),
        text,
    })
}

// A circuit and its proof over the formula: those of what is left, lifted.
fn certificate(p: &Prepared, log: &Log, id: u64) -> Result<(AagFile, Dqp), Memory>
    requires prepared { IsPrepared p.now }
    requires productive { IsProductiveLog p.now.left.now log.now.entries }
    requires decided { IsDecidedTrue p.now.left.now log.now.entries id }
    ensures { IfOk result (λ c. IsCertificate p.now.formula.now c.0 c.1) }
{
    settled_files_are_spellable();
    let (file, proof) = exported(p.alloc, log, id, p.left)?;
    let lifted = lift_true(p.alloc, file, &proof, p.trace, p.formula, p.left)?;
    Ok(lifted)
}

// What is exported of an answer.
fn exported(alloc: Global, log: &Log, id: u64, f: &Formula) -> Result<(AagFile, Dqp), Memory>
    requires formula { IsWellFormed f.now }
    requires productive { IsProductiveLog f.now log.now.entries }
    requires decided { IsDecidedTrue f.now log.now.entries id }
    ensures { IfOk result (λ c. IsCertificate f.now c.0 c.1) }
{
    log.every_log_is_lawful();
    productive_answers_can_be_exported();
    exported_proof_is_allowed();
    allowed_lines_are_numbered();
    export_true(alloc, log, id, f)
}

// What is written where what is left is false.
fn lifted_false(p: &Prepared, log: &Log, id: u64, form: Form) -> Result<Output, Memory>
    requires prepared { IsPrepared p.now }
    requires productive { IsProductiveLog p.now.left.now log.now.entries }
    requires refuted { IsShownFalse p.now.left.now log.now id }
    requires limit { log.now.limit ≤ max_count }
    ensures { IfOk result (IsPreparedOutput p.now.formula.now log.now form) }
{
    p.formula.every_formula_is_lawful();
    derivation_refutes_expansion();
    refutations_are_accepted();
    refutation_shows_false();
    let refutation = lifted_refutation(p, log, id)?;
    let evidence = refutation_text(p.alloc, refutation, p.formula, form)?;
    let text = with_verdict(p.alloc, "s FALSE\n", form, evidence)?;
    Ok(Output {
        status: SolveStatus::False.code(),
        text,
    })
}

// A refutation of the formula: that of what is left, lifted.
fn lifted_refutation(p: &Prepared, log: &Log, id: u64) -> Result<Dqr, Memory>
    requires prepared { IsPrepared p.now }
    requires productive { IsProductiveLog p.now.left.now log.now.entries }
    requires refuted { IsShownFalse p.now.left.now log.now id }
    requires limit { log.now.limit ≤ max_count }
    ensures allowed { IfOk result (IsDqrOf p.now.formula.now) }
    ensures refutes { IfOk result (λ d. refutation_fault p.now.formula.now d ≡ None) }
    ensures lines { IfOk result (λ d. AreNumberedLines d.items) }
{
    log.every_log_is_lawful();
    productive_answers_can_be_exported();
    let numbers = clause_numbers(p.alloc, p.left)?;
    let refutation = export_false(p.alloc, log, id, p.left, &numbers)?;
    if refutation.items.len() as u64 > MOST {
        return Err(Memory);
    }
    lift_false(p.alloc, &refutation, p.trace, p.formula)
}

// What is written where the limit came first.
fn undecided(p: &Prepared, log: &Log, form: Form) -> Result<Output, Memory>
    requires prepared { IsPrepared p.now }
    requires productive { IsProductiveLog p.now.left.now log.now.entries }
    requires undecided { IsUndecided p.now.left.now log.now.entries }
    requires limit { IsStoppedAtLimit p.now.left.now log.now }
    ensures { IfOk result (IsPreparedOutput p.now.formula.now log.now form) }
{
    rounds_are_steps();
    let text = unknown_text(p.alloc, log, form)?;
    Ok(Output {
        status: SolveStatus::Unknown.code(),
        text,
    })
}

// Whether two formulas have the same clauses.
fn same_clauses(f: &Formula, g: &Formula) -> bool
    ensures same { OnTrue result (f.now.matrix ≡ g.now.matrix) }
    ensures other { OnFalse result (f.now.matrix ≢ g.now.matrix) }
{
    if f.clauses() != g.clauses() {
        return false;
    }
    for place in 0..f.clauses() {
        if !same_literals(f.clause(place), g.clause(place)) {
            return false;
        }
    }
    true
}

fn same_literals(a: &[Lit], b: &[Lit]) -> bool
    ensures same { OnTrue result (a.now ≡ b.now) }
    ensures other { OnFalse result (a.now ≢ b.now) }
{
    if a.len() != b.len() {
        return false;
    }
    for place in 0..a.len() {
        if a[place] != b[place] {
            return false;
        }
    }
    true
}
