//! One search, and what is written of it.

ghost use Rattle.std.specs.Prelude.{◌≡◌, ◌≤◌, ℕ, List, Some, IfOk, OnOk, OnErr};
ghost use Rattle.dq_lits.specs.Formula.{Dqbf, IsWellFormed};
ghost use Rattle.cert_text.specs.Header.{max_count};
ghost use Rattle.cert_export.specs.ExportableLogs.{RestsOnLive};
ghost use Rattle.expansion.specs.Table.{IsRefutedBy};
ghost use Rattle.hint_log.specs.Live.{live_numbers, formula_of};
ghost use Rattle.hint_log.specs.ProductiveSession.{IsProductiveSession};
ghost use Rattle.dq_session.specs.Databases.{live_of, now_of};
ghost use Rattle.aig_graph.specs.Graph.{AigGraph};
ghost use Rattle.aig_graph.specs.declared.nodes.Node.{Node};
ghost use Rattle.repair_loop.specs.SearchStates.{CanBeginSearch, IsDatabaseAfter, IsAnsweredTrue};
ghost use Rattle.verdict_texts.specs.Forms.{plain};
ghost use Rattle.verdict_texts.specs.Shown.{IsTrueText, IsFalseText};
ghost use Rattle.session_runs.specs.Invariant.{IsSoFar, IsFound};

use aig_graph::Graph;
use cert_export::laws::session_answers_can_be_exported;
use dq_formula::Formula;
use dq_lits::Memory;
use dq_lits::laws::skolem_functions_show_true;
use dq_session::ClauseDatabase;
use hint_log::laws::rounds_are_steps;
use hint_log::{Log, Stop};
use oracle::Oracle;
use repair_loop::{SearchState, Verdict};
use std::alloc::Global;
use verdict_texts::{Form, false_text, true_text, unknown_text};

/// How a verdict is written.
const PLAIN: Form = Form {
    bare: false,
    deletes: false,
    binary: false,
};

/// Decides a database's formula of now, and gives the text of the verdict.
pub(crate) fn search_text<O: Oracle>(
    alloc: Global,
    oracle: &mut O,
    search_state: &mut SearchState,
    graph: &mut Graph,
    database: &mut ClauseDatabase,
    f: &Formula,
    log: &mut Log,
) -> Result<Vec<u8>, Memory>
    requires fit { O.Fits oracle.old log.old }
    requires ready { CanBeginSearch database.old search_state.old graph.old log.old.entries }
    requires now { f.now ≡ now_of database.old }
    requires limit { log.old.limit ≤ max_count }
    ensures fit { O.Fits oracle.new log.new }
    ensures found { IfOk result (λ text. IsFound database.old f.now log.old log.new text.items) }
    ensures ready { OnOk result (CanBeginSearch database.new search_state.new graph.new log.new.entries) }
    ensures database { IsDatabaseAfter database.old database.new }
    ensures err { OnErr result (IsSoFar database.old log.new.entries) }
    ensures limit { log.new.limit ≡ log.old.limit }
{
    let numbers = live_clauses(alloc, database)?;
    decide(
        alloc,
        oracle,
        search_state,
        graph,
        database,
        f,
        &numbers,
        log,
    )
}

// The same, by the numbers of the live clauses.
fn decide<O: Oracle>(
    alloc: Global,
    oracle: &mut O,
    search_state: &mut SearchState,
    graph: &mut Graph,
    database: &mut ClauseDatabase,
    f: &Formula,
    numbers: &[u64],
    log: &mut Log,
) -> Result<Vec<u8>, Memory>
    requires fit { O.Fits oracle.old log.old }
    requires ready { CanBeginSearch database.old search_state.old graph.old log.old.entries }
    requires now { f.now ≡ now_of database.old }
    requires numbers { numbers.now ≡ live_of database.old }
    requires limit { log.old.limit ≤ max_count }
    ensures fit { O.Fits oracle.new log.new }
    ensures found { IfOk result (λ text. IsFound database.old f.now log.old log.new text.items) }
    ensures ready { OnOk result (CanBeginSearch database.new search_state.new graph.new log.new.entries) }
    ensures database { IsDatabaseAfter database.old database.new }
    ensures err { OnErr result (IsSoFar database.old log.new.entries) }
    ensures limit { log.new.limit ≡ log.old.limit }
{
    rounds_are_steps();
    match search_state.decide_now(oracle, graph, database, f, log) {
        Ok(Verdict::True(_, id)) => text_of_true(alloc, log, id, f),
        Ok(Verdict::False(id)) => text_of_false(alloc, log, id, f, numbers),
        Err(Stop::Limit) => unknown_text(alloc, log, PLAIN),
        Err(Stop::Memory) => Err(Memory),
    }
}

// The numbers of the live clauses.
fn live_clauses(alloc: Global, database: &ClauseDatabase) -> Result<Vec<u64>, Memory>
    ensures { IfOk result (λ numbers. numbers.items ≡ live_of database.now) }
{
    let mut numbers = Vec::new(alloc);
    for live in database.live() {
        numbers.push(live.clause)?;
    }
    Ok(numbers)
}

// The text where the formula of these clauses is true.
fn text_of_true(alloc: Global, log: &Log, id: u64, f: &Formula) -> Result<Vec<u8>, Memory>
    requires formula { IsWellFormed f.now }
    requires answered { (graph : AigGraph) × (nodes : List Node)
        × IsAnsweredTrue f.now graph nodes log.now id }
    requires session { (all : Dqbf) × (frames : List ℕ) × (numbers : List ℕ)
        × IsProductiveSession all frames log.now.entries
        × (live_numbers log.now.entries ≡ Some numbers) × (f.now ≡ formula_of all numbers) }
    ensures { IfOk result (λ text. IsTrueText f.now log.now plain text.items) }
{
    log.every_log_is_lawful();
    session_answers_can_be_exported();
    skolem_functions_show_true();
    true_text(alloc, log, id, f, PLAIN)
}

// The text where it is false.
fn text_of_false(
    alloc: Global,
    log: &Log,
    id: u64,
    f: &Formula,
    numbers: &[u64],
) -> Result<Vec<u8>, Memory>
    requires formula { IsWellFormed f.now }
    requires answered { (refuted : IsRefutedBy log.now.entries id)
        × RestsOnLive numbers.now log.now.entries id refuted }
    requires session { (all : Dqbf) × (frames : List ℕ) × IsProductiveSession all frames log.now.entries
        × (live_numbers log.now.entries ≡ Some numbers.now)
        × (f.now ≡ formula_of all numbers.now) }
    requires limit { log.now.limit ≤ max_count }
    ensures { IfOk result (λ text. IsFalseText f.now numbers.now log.now plain text.items) }
{
    log.every_log_is_lawful();
    session_answers_can_be_exported();
    false_text(alloc, log, id, f, numbers, PLAIN)
}
