//! Candidates from a model of the expansion.

ghost use Rattle.std.specs.Prelude.{◌≡◌, ℕ, true, All, IsErrOf, Ok};
ghost use Rattle.aig_graph.specs.Made.{Extends};
ghost use Rattle.circuit_cnf.specs.declared.checkers.Checker.{Checker as CheckerState};
ghost use Rattle.hint_log.specs.Naming.{rows_of};
ghost use Rattle.dq_formula.specs.Rules.{IsRule};
ghost use Rattle.known_functions.specs.Forcing.{AreKnownIn, IsModelOf, MayForce};
ghost use Rattle.oracle.specs.Limits.{IsAtSomeLimit};
ghost use Rattle.repair_loop.specs.SearchStates.{IsAnsweredFalse};
ghost use Rattle.repair_loop.specs.Preservation.{IsLeft};
ghost use Rattle.repair_loop.specs.Forcing.{LeavesForced};
ghost use Rattle.repair_loop.specs.Turning.{AreProposed, HasGoneOn, IsModel, IsSearch, IsStoppedAs};

use crate::preservation::{instances_leave_searches, questions_leave_searches};
use crate::searches::{Known, Search};
use aig_graph::Graph;
use candidate_functions::{Outputs, build};
use circuit_cnf::Checker;
use dq_session::ClauseDatabase;
use expansion::{Exp, Points};
use hint_log::{Log, Stop};
use known_functions::{Definitions, TableModel};
use oracle::Oracle;

// Candidates, or the id of the answer that refutes the rows.
#[derive(Drop)]
pub(crate) enum Proposal {
    Candidates(Outputs),
    Refuted(u64),
}

impl<'f, 'p> Search<'f, 'p> {
    // Candidates from a model of the instances, what it forces at the newest row, and the
    // definitions that there are.
    pub(crate) fn find_candidates<O: Oracle>(
        &self,
        oracle: &mut O,
        graph: &mut Graph,
        database: &mut ClauseDatabase,
        known: &mut Known,
        log: &mut Log,
    ) -> Result<Proposal, Stop>
        requires fit { O.Fits oracle.old log.old }
        requires search { (c : CheckerState)
            × IsSearch self.now.f.now graph.old database.old c self.now.definability.now self.now.may_ask log.old.entries }
        requires known { AreKnownIn self.now.f.now graph.old known.old.definitions }
        ensures fit { O.Fits oracle.new log.new }
        ensures extends { Extends graph.old graph.new }
        ensures went { (c : CheckerState)
            → IsSearch self.now.f.now graph.old database.old c self.now.definability.now self.now.may_ask log.old.entries
            → HasGoneOn self.now.f.now database.old database.new c c self.now.definability.now self.now.may_ask log.old log.new }
        ensures rows { rows_of log.new.entries ≡ database.new.table.rows }
        ensures refuted { (id : ℕ) → result ≡ Ok (Proposal.Refuted id)
            → IsAnsweredFalse database.new log.new id }
        ensures proposed { (c : CheckerState) (outputs : _)
            → IsSearch self.now.f.now graph.old database.old c self.now.definability.now self.now.may_ask log.old.entries
            → result ≡ Ok (Proposal.Candidates outputs)
            → AreProposed self.now.f.now graph.new database.new c self.now.definability.now self.now.may_ask
            known.new.definitions outputs log.new.entries }
        ensures stopped { IsStoppedAs self.now.f.now database.new log.new result }
    {
        instances_leave_searches();
        match database.solve(oracle, log)? {
            Exp::Refuted(id) => Ok(Proposal::Refuted(id)),
            Exp::Model(points) => {
                let outputs = self.propose(oracle, graph, database, &points, known, log)?;
                Ok(Proposal::Candidates(outputs))
            }
        }
    }

    // Candidates from this model.
    fn propose<O: Oracle>(
        &self,
        oracle: &mut O,
        graph: &mut Graph,
        database: &ClauseDatabase,
        points: &Points,
        known: &mut Known,
        log: &mut Log,
    ) -> Result<Outputs, Stop>
        requires fit { O.Fits oracle.old log.old }
        requires search { (c : CheckerState)
            × IsSearch self.now.f.now graph.old database.now c self.now.definability.now self.now.may_ask log.old.entries }
        requires known { AreKnownIn self.now.f.now graph.old known.old.definitions }
        requires model { IsModel self.now.f.now database.now.table points.now }
        ensures fit { O.Fits oracle.new log.new }
        ensures extends { Extends graph.old graph.new }
        ensures left { (c : CheckerState)
            → IsSearch self.now.f.now graph.old database.now c self.now.definability.now self.now.may_ask log.old.entries
            → IsLeft self.now.f.now database.now database.now c c self.now.definability.now self.now.may_ask true log.old log.new }
        ensures proposed { (c : CheckerState) (outputs : _)
            → IsSearch self.now.f.now graph.old database.now c self.now.definability.now self.now.may_ask log.old.entries
            → result ≡ Ok outputs
            → AreProposed self.now.f.now graph.new database.now c self.now.definability.now self.now.may_ask
            known.new.definitions outputs log.new.entries }
        ensures limit { IsErrOf result Stop.Limit → IsAtSomeLimit log.new }
    {
        questions_leave_searches();
        let model = TableModel {
            table: database.table(),
            points,
        };
        let definitions = &mut known.definitions;
        self.force(oracle, definitions, &model, log)?;
        let outputs = build(
            self.alloc,
            self.f,
            database.table(),
            points,
            definitions.samples(),
            &mut known.trees,
            &definitions.rules,
            &definitions.ranks,
            &definitions.nodes,
            &definitions.guesses,
            graph,
        )?;
        Ok(outputs)
    }

    // Asks what the newest row forces, where questions may be asked.
    fn force<O: Oracle>(
        &self,
        oracle: &mut O,
        definitions: &mut Definitions,
        model: &TableModel,
        log: &mut Log,
    ) -> Result<(), Stop>
        requires fit { O.Fits oracle.old log.old }
        requires may { self.now.may_ask ≡ true
            → MayForce self.now.f.now definitions.old self.now.definability.now log.old.entries }
        requires forced { All (IsRule self.now.f.now) definitions.old.rules.items }
        requires model { IsModelOf self.now.f.now model.now }
        ensures fit { O.Fits oracle.new log.new }
        ensures left { LeavesForced self.now.f.now self.now.definability.now self.now.may_ask
            definitions.old definitions.new log.old log.new }
        ensures limit { IsErrOf result Stop.Limit → IsAtSomeLimit log.new }
    {
        if !self.may_ask {
            return Ok(());
        }
        definitions.force_all(oracle, self.definability, self.f, model, log)
    }
}
