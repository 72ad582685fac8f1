//! The check of candidates, and the round where they fail.

ghost use Rattle.std.specs.Prelude.{◌≡◌, ℕ, List, Bool, IfOk, IfSome, OnOk, Ok};
ghost use Rattle.dq_lits.specs.Formula.{IsWellFormed};
ghost use Rattle.aig_graph.specs.Outputs.{outputs_of};
ghost use Rattle.circuit_cnf.specs.Failing.{IsFailure};
ghost use Rattle.circuit_cnf.specs.declared.checkers.Checker.{Checker as CheckerState};
ghost use Rattle.hint_log.specs.Naming.{rows_of};
ghost use Rattle.known_functions.specs.Searching.{HasInputs};
ghost use Rattle.repair_loop.specs.SearchStates.{IsAnsweredTrue};
ghost use Rattle.repair_loop.specs.Searching.{AreBuilt};
ghost use Rattle.repair_loop.specs.Turning.{HasGoneOn, IsNewRound, IsOpen, IsSearch, IsStoppedAs};

use crate::preservation::{failures_are_rounds, turns_leave_searches};
use crate::searches::{Known, Search};
use aig_graph::Graph;
use aig_graph::laws::outputs_are_supported;
use candidate_functions::Outputs;
use circuit_cnf::laws::shown_outputs_decide;
use circuit_cnf::{Checker, Failure, Turn, failure_at};
use dq_lits::{Memory, Row};
use dq_session::ClauseDatabase;
use hint_log::{Log, Stop};
use oracle::Oracle;

// Candidates hold, by the answer of this id; or they fail under a row, whose round is logged.
#[derive(Drop)]
pub(crate) enum Judged {
    Hold(u64),
    Fail(Row),
}

// Candidates for the existentials' functions, in their graph.
#[derive(Drop)]
pub(crate) struct Candidates<'g, 'o> {
    pub graph: &'g Graph,
    pub outputs: &'o Outputs,
}

impl<'f, 'p> Search<'f, 'p> {
    // Checks candidates, and logs a round where they fail: at a row that is at hand, if they fail at
    // one, else where the solver finds that they do.
    pub(crate) fn judge<O: Oracle>(
        &self,
        oracle: &mut O,
        candidates: &Candidates,
        database: &ClauseDatabase,
        checker: &mut Checker,
        known: &Known,
        log: &mut Log,
    ) -> Result<Judged, Stop>
        requires fit { O.Fits oracle.old log.old }
        requires search { IsSearch self.now.f.now candidates.now.graph.now database.now checker.old
            self.now.definability.now self.now.may_ask log.old.entries }
        requires candidates { AreBuilt self.now.f.now candidates.now.graph.now database.now.table.rows
            candidates.now.outputs.now }
        ensures fit { O.Fits oracle.new log.new }
        ensures went { HasGoneOn self.now.f.now database.now database.now checker.old checker.new
            self.now.definability.now self.now.may_ask log.old log.new }
        ensures hold { (id : ℕ) → result ≡ Ok (Judged.Hold id)
            → IsAnsweredTrue self.now.f.now candidates.now.graph.now candidates.now.outputs.now
            log.new id }
        ensures rows { (id : ℕ) → result ≡ Ok (Judged.Hold id)
            → rows_of log.new.entries ≡ database.now.table.rows }
        ensures fail { (row : List Bool) → result ≡ Ok (Judged.Fail row)
            → IsNewRound self.now.f.now database.now checker.new self.now.definability.now self.now.may_ask row log.old log.new }
        ensures stopped { IsStoppedAs self.now.f.now database.now log.new result }
    {
        if let Some(failure) = self.failure_at_hand(candidates, database, known)? {
            self.log_failure(oracle, candidates, database, checker, &failure, log)?;
            return Ok(Judged::Fail(failure.row));
        }
        self.judge_by_solver(oracle, candidates, database, checker, known, log)
    }

    // How candidates fail at a row that no solver was asked for: one that is known to refute the
    // formula, one beside the newest, or one that is drawn.
    fn failure_at_hand(
        &self,
        candidates: &Candidates,
        database: &ClauseDatabase,
        known: &Known,
    ) -> Result<Option<Failure>, Memory>
        requires formula { IsWellFormed self.now.f.now }
        requires inputs { HasInputs self.now.f.now candidates.now.graph.now }
        requires candidates { (rows : List (List Bool)) × AreBuilt self.now.f.now
            candidates.now.graph.now rows candidates.now.outputs.now }
        ensures { IfOk result (λ found. IfSome found (λ failure. IsFailure self.now.f.now
            (outputs_of self.now.f.now candidates.now.graph.now candidates.now.outputs.now)
            failure.row failure.values failure.j)) }
    {
        if let Some(failure) = self.known_failure(candidates, known)? {
            return Ok(Some(failure));
        }
        match self.find_unseen_turn(candidates, database, known)? {
            Some(failure) => Ok(Some(failure)),
            None => self.find_drawn(candidates, database, known),
        }
    }

    // How candidates fail at one of the rows that are known to refute the formula.
    fn known_failure(
        &self,
        candidates: &Candidates,
        known: &Known,
    ) -> Result<Option<Failure>, Memory>
        requires formula { IsWellFormed self.now.f.now }
        requires inputs { HasInputs self.now.f.now candidates.now.graph.now }
        requires candidates { (rows : List (List Bool)) × AreBuilt self.now.f.now
            candidates.now.graph.now rows candidates.now.outputs.now }
        ensures { IfOk result (λ found. IfSome found (λ failure. IsFailure self.now.f.now
            (outputs_of self.now.f.now candidates.now.graph.now candidates.now.outputs.now)
            failure.row failure.values failure.j)) }
    {
        let f = self.f;
        let nodes = candidates.outputs.items();
        for row in known.definitions.refuting_rows() {
            if row.len() == f.universals().len() {
                let found = failure_at(self.alloc, candidates.graph, f, nodes, row)?;
                if found.is_some() {
                    return Ok(found);
                }
            }
        }
        Ok(None)
    }

    // Logs the round of a failure.
    fn log_failure<O: Oracle>(
        &self,
        oracle: &O,
        candidates: &Candidates,
        database: &ClauseDatabase,
        checker: &Checker,
        failure: &Failure,
        log: &mut Log,
    ) -> Result<(), Stop>
        requires fit { O.Fits oracle.now log.old }
        requires here { IsOpen self.now.f.now database.now checker.now self.now.definability.now self.now.may_ask
            log.old.entries }
        requires candidates { AreBuilt self.now.f.now candidates.now.graph.now database.now.table.rows
            candidates.now.outputs.now }
        requires failure { IsFailure self.now.f.now
            (outputs_of self.now.f.now candidates.now.graph.now candidates.now.outputs.now)
            failure.now.row failure.now.values failure.now.j }
        ensures fit { O.Fits oracle.now log.new }
        ensures went { HasGoneOn self.now.f.now database.now database.now checker.now checker.now
            self.now.definability.now self.now.may_ask log.old log.new }
        ensures round { OnOk result (IsNewRound self.now.f.now database.now checker.now
            self.now.definability.now self.now.may_ask failure.now.row log.old log.new) }
        ensures stopped { IsStoppedAs self.now.f.now database.now log.new result }
    {
        failures_are_rounds();
        // A look at a field shows the invariant.
        let _ = &self.alloc;
        let _ = log.steps();
        log.round(&failure.row, &failure.values, failure.j)?;
        Ok(())
    }

    // Checks candidates by the solver, and logs a round where they fail.
    fn judge_by_solver<O: Oracle>(
        &self,
        oracle: &mut O,
        candidates: &Candidates,
        database: &ClauseDatabase,
        checker: &mut Checker,
        known: &Known,
        log: &mut Log,
    ) -> Result<Judged, Stop>
        requires fit { O.Fits oracle.old log.old }
        requires search { IsSearch self.now.f.now candidates.now.graph.now database.now checker.old
            self.now.definability.now self.now.may_ask log.old.entries }
        requires candidates { AreBuilt self.now.f.now candidates.now.graph.now database.now.table.rows
            candidates.now.outputs.now }
        ensures fit { O.Fits oracle.new log.new }
        ensures went { HasGoneOn self.now.f.now database.now database.now checker.old checker.new
            self.now.definability.now self.now.may_ask log.old log.new }
        ensures hold { (id : ℕ) → result ≡ Ok (Judged.Hold id)
            → IsAnsweredTrue self.now.f.now candidates.now.graph.now candidates.now.outputs.now
            log.new id }
        ensures rows { (id : ℕ) → result ≡ Ok (Judged.Hold id)
            → rows_of log.new.entries ≡ database.now.table.rows }
        ensures fail { (row : List Bool) → result ≡ Ok (Judged.Fail row)
            → IsNewRound self.now.f.now database.now checker.new self.now.definability.now self.now.may_ask row log.old log.new }
        ensures stopped { IsStoppedAs self.now.f.now database.now log.new result }
    {
        turns_leave_searches();
        outputs_are_supported();
        shown_outputs_decide();
        let f = self.f;
        let nodes = candidates.outputs.items();
        let suspects = known.definitions.suspects();
        match checker.turn(oracle, candidates.graph, f, nodes, suspects, log)? {
            Turn::Holds(id) => Ok(Judged::Hold(id)),
            Turn::Fails { row, values, j } => {
                let found = Failure { row, values, j };
                let failure = self.find_worse(candidates, database, known, found);
                self.log_failure(oracle, candidates, database, checker, &failure, log)?;
                Ok(Judged::Fail(failure.row))
            }
        }
    }
}
