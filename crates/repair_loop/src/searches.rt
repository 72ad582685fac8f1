//! The loop that decides a formula.

ghost use Rattle.std.specs.Prelude.{◌≡◌, ℕ, true, IfOk, IsErrOf, None, Some, Ok, Err};
ghost use Rattle.aig_graph.specs.Made.{Extends};
ghost use Rattle.hint_log.specs.Naming.{rows_of};
ghost use Rattle.oracle.specs.Limits.{IsAtSomeLimit};
ghost use Rattle.known_functions.specs.Forcing.{AreKnownIn};
ghost use Rattle.known_functions.specs.Guessing.{HasAsked, MayAsk};
ghost use Rattle.repair_loop.specs.SearchStates.{IsAnsweredFalse, IsAnsweredTrue};
ghost use Rattle.repair_loop.specs.Turning.{HasEnded, IsNextRound, IsSearch, IsStoppedAs, IsUnderWay};

use crate::candidates::Proposal;
use crate::decisions::Verdict;
use crate::false_rows::find_first_row;
use crate::judging::{Candidates, Judged};
use crate::premises::{Premise, find_premises};
use crate::preservation::{
    instances_leave_logs, instances_leave_searches, questions_leave_searches,
};
use aig_graph::Graph;
use candidate_functions::Trees;
use circuit_cnf::Checker;
use definability::Definability;
use dq_formula::Formula;
use dq_session::ClauseDatabase;
use hint_log::{Log, Stop};
use known_functions::{Definitions, find_definitions};
use oracle::Oracle;
use std::alloc::Global;

// What a search is about: the formula of the live clauses, and their copies. Questions may be asked
// where all the clauses have copies.
#[derive(Drop)]
pub(crate) struct Search<'f, 'p> {
    pub alloc: Global,
    pub f: &'f Formula,
    pub definability: &'p Definability,
    pub may_ask: bool,
}

// What a search knows of the existentials, and their trees.
#[derive(Drop)]
pub(crate) struct Known {
    pub definitions: Definitions,
    pub trees: Trees,
    /// Under which rows are drawn.
    pub premises: Vec<Premise>,
}

impl<'f, 'p> Search<'f, 'p> {
    // Decides the formula: by the rows of earlier searches where these refute it, else from the first
    // question on.
    pub(crate) fn run<O: Oracle>(
        &self,
        oracle: &mut O,
        graph: &mut Graph,
        database: &mut ClauseDatabase,
        checker: &mut Checker,
        log: &mut Log,
    ) -> Result<Verdict, Stop>
        requires fit { O.Fits oracle.old log.old }
        requires search { IsSearch self.now.f.now graph.old database.old checker.old self.now.definability.now
            self.now.may_ask log.old.entries }
        requires ready { self.now.may_ask ≡ true }
        ensures fit { O.Fits oracle.new log.new }
        ensures inputs { graph.new.inputs ≡ graph.old.inputs }
        ensures ended { HasEnded database.old database.new log.old log.new }
        ensures way { (result ≡ Err Stop.Memory → ⊥) → IsUnderWay self.now.f.now database.new checker.new
            self.now.definability.now self.now.may_ask log.new.entries }
        ensures rows { (result ≡ Err Stop.Memory → ⊥) → rows_of log.new.entries ≡ database.new.table.rows }
        ensures shown_true { (nodes : _) (id : ℕ) → result ≡ Ok (Verdict.True nodes id)
            → IsAnsweredTrue self.now.f.now graph.new nodes log.new id }
        ensures shown_false { (id : ℕ) → result ≡ Ok (Verdict.False id)
            → IsAnsweredFalse database.new log.new id }
        ensures stopped { IsStoppedAs self.now.f.now database.new log.new result }
    {
        match self.look_at_rows(oracle, database, log)? {
            Some(id) => Ok(Verdict::False(id)),
            None => self.run_on(oracle, graph, database, checker, log),
        }
    }

    // Decides the formula, from the first question on.
    fn run_on<O: Oracle>(
        &self,
        oracle: &mut O,
        graph: &mut Graph,
        database: &mut ClauseDatabase,
        checker: &mut Checker,
        log: &mut Log,
    ) -> Result<Verdict, Stop>
        requires fit { O.Fits oracle.old log.old }
        requires search { IsSearch self.now.f.now graph.old database.old checker.old self.now.definability.now
            self.now.may_ask log.old.entries }
        requires ready { self.now.may_ask ≡ true }
        ensures fit { O.Fits oracle.new log.new }
        ensures inputs { graph.new.inputs ≡ graph.old.inputs }
        ensures ended { HasEnded database.old database.new log.old log.new }
        ensures way { (result ≡ Err Stop.Memory → ⊥) → IsUnderWay self.now.f.now database.new checker.new
            self.now.definability.now self.now.may_ask log.new.entries }
        ensures rows { (result ≡ Err Stop.Memory → ⊥) → rows_of log.new.entries ≡ database.new.table.rows }
        ensures shown_true { (nodes : _) (id : ℕ) → result ≡ Ok (Verdict.True nodes id)
            → IsAnsweredTrue self.now.f.now graph.new nodes log.new id }
        ensures shown_false { (id : ℕ) → result ≡ Ok (Verdict.False id)
            → IsAnsweredFalse database.new log.new id }
        ensures stopped { IsStoppedAs self.now.f.now database.new log.new result }
    {
        questions_leave_searches();
        let mut known = self.find_known(oracle, graph, log)?;
        self.all_rounds(oracle, graph, database, checker, &mut known, log)
    }

    // What is known before the first candidates: a row to try, or definitions and guesses.
    pub(crate) fn find_known<O: Oracle>(
        &self,
        oracle: &mut O,
        graph: &mut Graph,
        log: &mut Log,
    ) -> Result<Known, Stop>
        requires fit { O.Fits oracle.old log.old }
        requires may { MayAsk self.now.f.now graph.old self.now.definability.now log.old.entries }
        ensures fit { O.Fits oracle.new log.new }
        ensures asked { HasAsked self.now.f.now graph.old graph.new self.now.definability.now log.old
            log.new }
        ensures known { IfOk result (λ k. AreKnownIn self.now.f.now graph.new k.definitions) }
        ensures limit { IsErrOf result Stop.Limit → IsAtSomeLimit log.new }
    {
        let definitions = self.find_definitions(oracle, graph, log)?;
        let premises = find_premises(self.alloc, self.f, graph, &definitions)?;
        Ok(Known {
            definitions,
            trees: Trees::new(self.alloc),
            premises,
        })
    }

    fn find_definitions<O: Oracle>(
        &self,
        oracle: &mut O,
        graph: &mut Graph,
        log: &mut Log,
    ) -> Result<Definitions, Stop>
        requires fit { O.Fits oracle.old log.old }
        requires may { MayAsk self.now.f.now graph.old self.now.definability.now log.old.entries }
        ensures fit { O.Fits oracle.new log.new }
        ensures asked { HasAsked self.now.f.now graph.old graph.new self.now.definability.now log.old
            log.new }
        ensures known { IfOk result (AreKnownIn self.now.f.now graph.new) }
        ensures limit { IsErrOf result Stop.Limit → IsAtSomeLimit log.new }
    {
        match find_first_row(self.alloc, self.f)? {
            Some(row) => Ok(Definitions::refuted(self.alloc, self.f, row)?),
            None => find_definitions(self.alloc, oracle, self.definability, graph, self.f, log),
        }
    }

    // Rounds until there is a verdict or a stop.
    fn all_rounds<O: Oracle>(
        &self,
        oracle: &mut O,
        graph: &mut Graph,
        database: &mut ClauseDatabase,
        checker: &mut Checker,
        known: &mut Known,
        log: &mut Log,
    ) -> Result<Verdict, Stop>
        requires fit { O.Fits oracle.old log.old }
        requires search { IsSearch self.now.f.now graph.old database.old checker.old self.now.definability.now
            self.now.may_ask log.old.entries }
        requires known { AreKnownIn self.now.f.now graph.old known.old.definitions }
        ensures fit { O.Fits oracle.new log.new }
        ensures inputs { graph.new.inputs ≡ graph.old.inputs }
        ensures ended { HasEnded database.old database.new log.old log.new }
        ensures way { (result ≡ Err Stop.Memory → ⊥) → IsUnderWay self.now.f.now database.new checker.new
            self.now.definability.now self.now.may_ask log.new.entries }
        ensures rows { (result ≡ Err Stop.Memory → ⊥) → rows_of log.new.entries ≡ database.new.table.rows }
        ensures shown_true { (nodes : _) (id : ℕ) → result ≡ Ok (Verdict.True nodes id)
            → IsAnsweredTrue self.now.f.now graph.new nodes log.new id }
        ensures shown_false { (id : ℕ) → result ≡ Ok (Verdict.False id)
            → IsAnsweredFalse database.new log.new id }
        ensures stopped { IsStoppedAs self.now.f.now database.new log.new result }
    {
        loop {
            if let Some(verdict) = self.round(oracle, graph, database, checker, known, log)? {
                return Ok(verdict);
            }
        }
    }

    // Candidates and their check: a verdict, or a row more.
    pub(crate) fn round<O: Oracle>(
        &self,
        oracle: &mut O,
        graph: &mut Graph,
        database: &mut ClauseDatabase,
        checker: &mut Checker,
        known: &mut Known,
        log: &mut Log,
    ) -> Result<Option<Verdict>, Stop>
        requires fit { O.Fits oracle.old log.old }
        requires search { IsSearch self.now.f.now graph.old database.old checker.old self.now.definability.now
            self.now.may_ask log.old.entries }
        requires known { AreKnownIn self.now.f.now graph.old known.old.definitions }
        ensures fit { O.Fits oracle.new log.new }
        ensures inputs { graph.new.inputs ≡ graph.old.inputs }
        ensures ended { HasEnded database.old database.new log.old log.new }
        ensures way { (result ≡ Err Stop.Memory → ⊥) → IsUnderWay self.now.f.now database.new checker.new
            self.now.definability.now self.now.may_ask log.new.entries }
        ensures rows { (result ≡ Err Stop.Memory → ⊥) → rows_of log.new.entries ≡ database.new.table.rows }
        ensures shown_true { (nodes : _) (id : ℕ) → result ≡ Ok (Some (Verdict.True nodes id))
            → IsAnsweredTrue self.now.f.now graph.new nodes log.new id }
        ensures shown_false { (id : ℕ) → result ≡ Ok (Some (Verdict.False id))
            → IsAnsweredFalse database.new log.new id }
        ensures open { result ≡ Ok None → IsNextRound self.now.f.now graph.new database.old database.new
            checker.old checker.new self.now.definability.now self.now.may_ask known.new.definitions
            log.old log.new }
        ensures stopped { IsStoppedAs self.now.f.now database.new log.new result }
    {
        instances_leave_logs();
        instances_leave_searches();
        let outputs = match self.find_candidates(oracle, graph, database, known, log)? {
            Proposal::Candidates(outputs) => outputs,
            Proposal::Refuted(id) => return Ok(Some(Verdict::False(id))),
        };
        let candidates = Candidates {
            graph,
            outputs: &outputs,
        };
        match self.judge(oracle, &candidates, database, checker, known, log)? {
            Judged::Hold(id) => Ok(Some(Verdict::True(outputs, id))),
            Judged::Fail(row) => {
                database.add_row(oracle, &row, log)?;
                Ok(None)
            }
        }
    }
}
