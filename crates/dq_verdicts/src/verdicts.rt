//! The search, and its output.

ghost use Rattle.std.specs.Prelude.{◌≡◌, ◌≤◌, ℕ, [], Ok, IfOk, OnErr, IsErrOf};
ghost use Rattle.dq_lits.specs.Formula.{IsWellFormed};
ghost use Rattle.dq_lits.specs.Henkin.{IsTrueFormula};
ghost use Rattle.hint_log.specs.Deciding.{IsUndecided};
ghost use Rattle.hint_log.specs.ProductiveLog.{IsProductiveLog};
ghost use Rattle.cert_text.specs.Header.{max_count};
ghost use Rattle.cert_export.specs.ExportedCircuit.{IsDecidedTrue};
ghost use Rattle.repair_loop.specs.Searching.{IsShownFalse};
ghost use Rattle.repair_loop.specs.Stopping.{IsStoppedAtLimit};
ghost use Rattle.dq_verdicts.specs.Outputs.{IsVerdictOutput};

use crate::statuses::SolveStatus;
use aig_graph::Graph;
use cdcl_core::Cdcl;
use cert_export::clause_numbers;
use cert_export::laws::productive_answers_can_be_exported;
use circuit_cnf::laws::shown_outputs_decide;
use dq_formula::Formula;
use dq_lits::Memory;
use dq_lits::laws::skolem_functions_show_true;
use dq_runs::Output;
use hint_log::laws::rounds_are_steps;
use hint_log::{Log, Stop};
use oracle::Oracle;
use repair_loop::{Verdict, decide};
use std::alloc::Global;
use verdict_texts::{Form, false_text, true_text, unknown_text};

/// What a search came to: the id of the answer that shows the formula true, or false.
#[derive(Clone, Copy)]
pub(crate) enum Decision {
    Shown(u64),
    Refuted(u64),
}

/// Searches for a verdict on a formula, in as many steps as the log allows, and writes it with its
/// evidence in this form. The status is 10 where the formula is true, 20 where it is false, and 0
/// where the steps didn't suffice.
pub fn solve(alloc: Global, f: &Formula, form: Form, log: &mut Log) -> Result<Output, Memory>
    requires formula { IsWellFormed f.now }
    requires empty { log.old.entries ≡ [] }
    requires limit { log.old.limit ≤ max_count }
    ensures verdict { IfOk result (IsVerdictOutput f.now log.new form) }
    ensures productive { IsProductiveLog f.now log.new.entries }
    ensures limit { log.new.limit ≡ log.old.limit }
{
    match search(alloc, f, log) {
        Ok(Decision::Shown(id)) => true_output(alloc, log, id, f, form),
        Ok(Decision::Refuted(id)) => false_output(alloc, log, id, f, form),
        Err(Stop::Limit) => unknown_output(alloc, log, f, form),
        Err(Stop::Memory) => Err(Memory),
    }
}

/// The search, over a solver of its own.
pub(crate) fn search(alloc: Global, f: &Formula, log: &mut Log) -> Result<Decision, Stop>
    requires formula { IsWellFormed f.now }
    requires empty { log.old.entries ≡ [] }
    ensures productive { IsProductiveLog f.now log.new.entries }
    ensures limit_same { log.new.limit ≡ log.old.limit }
    ensures is_true { (id : ℕ) → result ≡ Ok (Decision.Shown id) → IsTrueFormula f.now }
    ensures shown { (id : ℕ) → result ≡ Ok (Decision.Shown id)
        → IsDecidedTrue f.now log.new.entries id }
    ensures refuted { (id : ℕ) → result ≡ Ok (Decision.Refuted id) → IsShownFalse f.now log.new id }
    ensures undecided { OnErr result (IsUndecided f.now log.new.entries) }
    ensures limit { IsErrOf result Stop.Limit → IsStoppedAtLimit f.now log.new }
{
    let mut oracle = Cdcl::new(alloc);
    search_by(alloc, &mut oracle, f, log)
}

fn search_by<O: Oracle>(
    alloc: Global,
    oracle: &mut O,
    f: &Formula,
    log: &mut Log,
) -> Result<Decision, Stop>
    requires fit { O.Fits oracle.old log.old }
    requires formula { IsWellFormed f.now }
    requires empty { log.old.entries ≡ [] }
    ensures productive { IsProductiveLog f.now log.new.entries }
    ensures limit_same { log.new.limit ≡ log.old.limit }
    ensures is_true { (id : ℕ) → result ≡ Ok (Decision.Shown id) → IsTrueFormula f.now }
    ensures shown { (id : ℕ) → result ≡ Ok (Decision.Shown id)
        → IsDecidedTrue f.now log.new.entries id }
    ensures refuted { (id : ℕ) → result ≡ Ok (Decision.Refuted id) → IsShownFalse f.now log.new id }
    ensures undecided { OnErr result (IsUndecided f.now log.new.entries) }
    ensures limit { IsErrOf result Stop.Limit → IsStoppedAtLimit f.now log.new }
{
    shown_outputs_decide();
    skolem_functions_show_true();
    let mut graph = Graph::new(alloc, f.universals().len() + f.existentials().len());
    match decide(alloc, oracle, &mut graph, f, log)? {
        Verdict::True(_, id) => Ok(Decision::Shown(id)),
        Verdict::False(id) => Ok(Decision::Refuted(id)),
    }
}

// What is written of a true formula.
fn true_output(alloc: Global, log: &Log, id: u64, f: &Formula, form: Form) -> Result<Output, Memory>
    requires formula { IsWellFormed f.now }
    requires productive { IsProductiveLog f.now log.now.entries }
    requires is_true { IsTrueFormula f.now }
    requires decided { IsDecidedTrue f.now log.now.entries id }
    ensures { IfOk result (IsVerdictOutput f.now log.now form) }
{
    log.every_log_is_lawful();
    productive_answers_can_be_exported();
    let text = true_text(alloc, log, id, f, form)?;
    Ok(Output {
        status: SolveStatus::True.code(),
        text,
    })
}

// What is written of a false formula.
fn false_output(
    alloc: Global,
    log: &Log,
    id: u64,
    f: &Formula,
    form: Form,
) -> Result<Output, Memory>
    requires formula { IsWellFormed f.now }
    requires productive { IsProductiveLog f.now log.now.entries }
    requires refuted { IsShownFalse f.now log.now id }
    requires limit { log.now.limit ≤ max_count }
    ensures { IfOk result (IsVerdictOutput f.now log.now form) }
{
    log.every_log_is_lawful();
    productive_answers_can_be_exported();
    let numbers = clause_numbers(alloc, f)?;
    let text = false_text(alloc, log, id, f, &numbers, form)?;
    Ok(Output {
        status: SolveStatus::False.code(),
        text,
    })
}

// What is written where the limit came first.
fn unknown_output(alloc: Global, log: &Log, f: &Formula, form: Form) -> Result<Output, Memory>
    requires productive { IsProductiveLog f.now log.now.entries }
    requires undecided { IsUndecided f.now log.now.entries }
    requires limit { IsStoppedAtLimit f.now log.now }
    ensures { IfOk result (IsVerdictOutput f.now log.now form) }
{
    rounds_are_steps();
    let text = unknown_text(alloc, log, form)?;
    Ok(Output {
        status: SolveStatus::Unknown.code(),
        text,
    })
}
