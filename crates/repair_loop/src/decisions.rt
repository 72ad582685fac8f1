//! Deciding a formula by itself.

ghost use Rattle.std.specs.Prelude.{◌≡◌, [], ℕ, OnErr, IsErrOf, Ok};
ghost use Rattle.dq_lits.specs.Formula.{IsWellFormed};
ghost use Rattle.hint_log.specs.Deciding.{IsUndecided, KeepsSelectors};
ghost use Rattle.hint_log.specs.ProductiveLog.{IsProductiveLog};
ghost use Rattle.known_functions.specs.Searching.{HasInputs};
ghost use Rattle.repair_loop.specs.Searching.{IsShownTrue, IsShownFalse};
ghost use Rattle.repair_loop.specs.Stopping.{IsStoppedAtLimit};

use crate::search_states::SearchState;
use aig_graph::Graph;
use candidate_functions::Outputs;
use dq_formula::Formula;
use dq_session::ClauseDatabase;
use hint_log::{Log, Stop};
use log_laws::laws::{engines_leave_sessions, plain_logs_are_sessions};
use oracle::Oracle;
use std::alloc::Global;

/// What was decided, with the id of the logged answer that shows it.
#[derive(Drop)]
pub enum Verdict {
    /// The formula is true: an output for each existential.
    True(Outputs, u64),
    /// The formula is false.
    False(u64),
}

/// Decides a formula: outputs that are Skolem functions, or that there are none, each with the id
/// of the logged answer that shows it. It stops for want of memory or at the log's limit; a verdict
/// that needs no further step comes at the limit too.
pub fn decide<O: Oracle>(
    alloc: Global,
    oracle: &mut O,
    graph: &mut Graph,
    f: &Formula,
    log: &mut Log,
) -> Result<Verdict, Stop>
    requires fit { O.Fits oracle.old log.old }
    requires empty { log.old.entries ≡ [] }
    requires formula { IsWellFormed f.now }
    requires inputs { HasInputs f.now graph.old }
    ensures fit { O.Fits oracle.new log.new }
    ensures inputs { graph.new.inputs ≡ graph.old.inputs }
    ensures productive { IsProductiveLog f.now log.new.entries }
    ensures selectors { KeepsSelectors log.new.entries }
    ensures limit_same { log.new.limit ≡ log.old.limit }
    ensures shown_true { (nodes : _) (id : ℕ) → result ≡ Ok (Verdict.True nodes id)
        → IsShownTrue f.now graph.new nodes log.new id }
    ensures shown_false { (id : ℕ) → result ≡ Ok (Verdict.False id)
        → IsShownFalse f.now log.new id }
    ensures undecided { OnErr result (IsUndecided f.now log.new.entries) }
    ensures limit { IsErrOf result Stop.Limit → IsStoppedAtLimit f.now log.new }
{
    engines_leave_sessions();
    plain_logs_are_sessions();
    let mut database = ClauseDatabase::new(alloc, oracle, f, log)?;
    let mut search_state = SearchState::new(alloc, oracle, f, log)?;
    search_state.decide_now(oracle, graph, &mut database, f, log)
}
