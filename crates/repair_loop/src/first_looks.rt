//! What the rows of earlier searches tell before a search asks anything.

ghost use Rattle.std.specs.Prelude.{◌≡◌, ℕ, None, Some, Ok};
ghost use Rattle.aig_graph.specs.Graph.{AigGraph};
ghost use Rattle.circuit_cnf.specs.declared.checkers.Checker.{Checker as CheckerState};
ghost use Rattle.hint_log.specs.Naming.{rows_of};
ghost use Rattle.repair_loop.specs.SearchStates.{IsAnsweredFalse};
ghost use Rattle.repair_loop.specs.Turning.{HasGoneOn, IsSearch, IsStoppedAs};

use crate::preservation::instances_leave_searches;
use crate::searches::Search;
use dq_session::ClauseDatabase;
use expansion::Exp;
use hint_log::{Log, Stop};
use oracle::Oracle;

impl<'f, 'p> Search<'f, 'p> {
    // The id of the answer that refutes the rows of earlier searches, if they refute the formula:
    // definitions and guesses, which take most of a search, are spared then. A first search has no
    // rows, and looks at nothing.
    pub(crate) fn look_at_rows<O: Oracle>(
        &self,
        oracle: &mut O,
        database: &mut ClauseDatabase,
        log: &mut Log,
    ) -> Result<Option<u64>, Stop>
        requires fit { O.Fits oracle.old log.old }
        requires search { (graph : AigGraph) × (c : CheckerState)
            × IsSearch self.now.f.now graph database.old c self.now.definability.now self.now.may_ask log.old.entries }
        ensures fit { O.Fits oracle.new log.new }
        ensures went { (graph : AigGraph) (c : CheckerState)
            → IsSearch self.now.f.now graph database.old c self.now.definability.now self.now.may_ask log.old.entries
            → HasGoneOn self.now.f.now database.old database.new c c self.now.definability.now self.now.may_ask log.old log.new }
        ensures rows { rows_of log.new.entries ≡ database.new.table.rows }
        ensures refuted { (id : ℕ) → result ≡ Ok (Some id) → IsAnsweredFalse database.new log.new id }
        ensures search { (graph : AigGraph) (c : CheckerState)
            → IsSearch self.now.f.now graph database.old c self.now.definability.now self.now.may_ask log.old.entries
            → result ≡ Ok None
            → IsSearch self.now.f.now graph database.new c self.now.definability.now self.now.may_ask log.new.entries }
        ensures stopped { IsStoppedAs self.now.f.now database.new log.new result }
    {
        instances_leave_searches();
        if database.table().rows() == 0 {
            return Ok(None);
        }
        match database.solve(oracle, log)? {
            Exp::Refuted(id) => Ok(Some(id)),
            Exp::Model(_) => Ok(None),
        }
    }
}
