//! A round before any question: where candidates that are at hand hold there is nothing to ask.
//!
//! The gates that the clauses state make their own clauses true. Where constants of the other
//! existentials make all further clauses true (B. Monien, E. Speckenmeyer, "Solving satisfiability in
//! less than 2^n steps", 1985, call these an autarky), or there are no others, these are the
//! candidates. A large formula has a round from constants otherwise, as two copies were half of what
//! a clause costs: unless most clauses are gates, where constants fail at once. A smaller one goes
//! without it, as a row that constants fail at is a worse row than one found beside definitions.

ghost use Rattle.std.specs.Prelude.{◌≡◌, ℕ, IfOk, IfSome, None, Some, Ok, Err};
ghost use Rattle.aig_graph.specs.Made.{Extends};
ghost use Rattle.hint_log.specs.Naming.{rows_of};
ghost use Rattle.known_functions.specs.Forcing.{AreKnownIn};
ghost use Rattle.known_functions.specs.Searching.{HasInputs};
ghost use Rattle.repair_loop.specs.SearchStates.{IsAnsweredFalse, IsAnsweredTrue};
ghost use Rattle.repair_loop.specs.Turning.{HasEnded, HasGoneOn, IsSearch, IsStoppedAs, IsUnderWay};

use crate::decisions::Verdict;
use crate::false_rows::find_false_row;
use crate::searches::{Known, Search};
use crate::signs::Signs;
use aig_graph::Graph;
use candidate_functions::Trees;
use circuit_cnf::Checker;
use dq_lits::{Memory, Row};
use dq_session::ClauseDatabase;
use hint_log::{Log, Stop};
use known_functions::Definitions;
use oracle::Oracle;

// From so many clauses on a formula is large.
const LARGE: usize = 1 << 16;

// What the first round has for candidates.
#[derive(Clone, Copy)]
enum FirstCandidates {
    Gates,
    Constants,
    Nothing,
}

impl<'f, 'p> Search<'f, 'p> {
    /// A round from candidates that are at hand, and a look at its row's instances: a verdict, if it
    /// comes to one.
    pub(crate) fn first_round<O: Oracle>(
        &self,
        oracle: &mut O,
        graph: &mut Graph,
        database: &mut ClauseDatabase,
        checker: &mut Checker,
        log: &mut Log,
    ) -> Result<Option<Verdict>, Stop>
        requires fit { O.Fits oracle.old log.old }
        requires search { IsSearch self.now.f.now graph.old database.old checker.old self.now.definability.now
            self.now.may_ask log.old.entries }
        ensures fit { O.Fits oracle.new log.new }
        ensures inputs { graph.new.inputs ≡ graph.old.inputs }
        ensures ended { HasEnded database.old database.new log.old log.new }
        ensures way { (result ≡ Err Stop.Memory → ⊥) → IsUnderWay self.now.f.now database.new checker.new
            self.now.definability.now self.now.may_ask log.new.entries }
        ensures rows { (result ≡ Err Stop.Memory → ⊥) → rows_of log.new.entries ≡ database.new.table.rows }
        ensures shown_true { (nodes : _) (id : ℕ) → result ≡ Ok (Some (Verdict.True nodes id))
            → IsAnsweredTrue self.now.f.now graph.new nodes log.new id }
        ensures shown_false { (id : ℕ) → result ≡ Ok (Some (Verdict.False id))
            → IsAnsweredFalse database.new log.new id }
        ensures open { result ≡ Ok None → IsSearch self.now.f.now graph.new database.new checker.new
            self.now.definability.now self.now.may_ask log.new.entries }
        ensures stopped { IsStoppedAs self.now.f.now database.new log.new result }
    {
        match self.first_known(graph)? {
            Some(mut known) => {
                let found = self.try_known(oracle, graph, database, checker, &mut known, log);
                drop(known);
                found
            }
            None => Ok(None),
        }
    }

    // The same, from what is to be tried.
    fn try_known<O: Oracle>(
        &self,
        oracle: &mut O,
        graph: &mut Graph,
        database: &mut ClauseDatabase,
        checker: &mut Checker,
        known: &mut Known,
        log: &mut Log,
    ) -> Result<Option<Verdict>, Stop>
        requires fit { O.Fits oracle.old log.old }
        requires search { IsSearch self.now.f.now graph.old database.old checker.old self.now.definability.now
            self.now.may_ask log.old.entries }
        requires known { AreKnownIn self.now.f.now graph.old known.old.definitions }
        ensures fit { O.Fits oracle.new log.new }
        ensures inputs { graph.new.inputs ≡ graph.old.inputs }
        ensures ended { HasEnded database.old database.new log.old log.new }
        ensures way { (result ≡ Err Stop.Memory → ⊥) → IsUnderWay self.now.f.now database.new checker.new
            self.now.definability.now self.now.may_ask log.new.entries }
        ensures rows { (result ≡ Err Stop.Memory → ⊥) → rows_of log.new.entries ≡ database.new.table.rows }
        ensures shown_true { (nodes : _) (id : ℕ) → result ≡ Ok (Some (Verdict.True nodes id))
            → IsAnsweredTrue self.now.f.now graph.new nodes log.new id }
        ensures shown_false { (id : ℕ) → result ≡ Ok (Some (Verdict.False id))
            → IsAnsweredFalse database.new log.new id }
        ensures open { result ≡ Ok None → IsSearch self.now.f.now graph.new database.new checker.new
            self.now.definability.now self.now.may_ask log.new.entries }
        ensures stopped { IsStoppedAs self.now.f.now database.new log.new result }
    {
        match self.round(oracle, graph, database, checker, known, log)? {
            Some(verdict) => Ok(Some(verdict)),
            None => self.look_again(oracle, graph, database, checker, log),
        }
    }

    // What the instances of the row tell that was found.
    fn look_again<O: Oracle>(
        &self,
        oracle: &mut O,
        graph: &Graph,
        database: &mut ClauseDatabase,
        checker: &Checker,
        log: &mut Log,
    ) -> Result<Option<Verdict>, Stop>
        requires fit { O.Fits oracle.old log.old }
        requires search { IsSearch self.now.f.now graph.now database.old checker.now self.now.definability.now
            self.now.may_ask log.old.entries }
        ensures fit { O.Fits oracle.new log.new }
        ensures went { HasGoneOn self.now.f.now database.old database.new checker.now checker.now
            self.now.definability.now self.now.may_ask log.old log.new }
        ensures rows { rows_of log.new.entries ≡ database.new.table.rows }
        ensures none_true { (nodes : _) (id : ℕ) → result ≡ Ok (Some (Verdict.True nodes id)) → ⊥ }
        ensures shown_false { (id : ℕ) → result ≡ Ok (Some (Verdict.False id))
            → IsAnsweredFalse database.new log.new id }
        ensures open { result ≡ Ok None → IsSearch self.now.f.now graph.now database.new checker.now
            self.now.definability.now self.now.may_ask log.new.entries }
        ensures stopped { IsStoppedAs self.now.f.now database.new log.new result }
    {
        match self.look_at_rows(oracle, database, log)? {
            Some(id) => Ok(Some(Verdict::False(id))),
            None => Ok(None),
        }
    }

    // What is tried before any question, if something is worth it.
    fn first_known(&self, graph: &mut Graph) -> Result<Option<Known>, Memory>
        requires { HasInputs self.now.f.now graph.old }
        ensures extends { Extends graph.old graph.new }
        ensures known { IfOk result
            (λ found. IfSome found (λ k. AreKnownIn self.now.f.now graph.new k.definitions)) }
    {
        let signs = Signs::of(self.alloc, self.f)?;
        let gates = self.known_gates(graph, &signs)?;
        match self.first_candidates(&signs, &gates.definitions) {
            FirstCandidates::Gates => Ok(Some(gates)),
            FirstCandidates::Constants => {
                drop(gates);
                self.known_constants(&signs)
            }
            FirstCandidates::Nothing => Ok(None),
        }
    }

    // Which candidates are worth a round: no contract speaks of it.
    fn first_candidates(&self, signs: &Signs, gates: &Definitions) -> FirstCandidates {
        let f = self.f;
        let suspects = gates.suspects();
        if gates.nodes.iter().all(|node| node.is_some())
            || signs.settle(f, &gates.nodes, suspects)
        {
            return FirstCandidates::Gates;
        }
        if f.clauses() >= LARGE && (signs.agree(f) || suspects.len() >= f.clauses() / 2) {
            return FirstCandidates::Constants;
        }
        FirstCandidates::Nothing
    }

    // The gates that the clauses state, and a constant for each other existential.
    fn known_gates(&self, graph: &mut Graph, signs: &Signs) -> Result<Known, Memory>
        requires { HasInputs self.now.f.now graph.old }
        ensures extends { Extends graph.old graph.new }
        ensures known { IfOk result (λ k. AreKnownIn self.now.f.now graph.new k.definitions) }
    {
        let constants = signs.constants(self.alloc)?;
        let mut gates = Definitions::stated(self.alloc, graph, self.f)?;
        gates.guesses = constants;
        Ok(self.known(gates))
    }

    // A row at which clauses are likely to be false, and a constant for each existential.
    fn known_constants(&self, signs: &Signs) -> Result<Option<Known>, Memory>
        ensures { (graph : _) → IfOk result
            (λ found. IfSome found (λ k. AreKnownIn self.now.f.now graph k.definitions)) }
    {
        let row = self.first_row(signs)?;
        let mut definitions = Definitions::refuted(self.alloc, self.f, row)?;
        definitions.guesses = signs.constants(self.alloc)?;
        Ok(Some(self.known(definitions)))
    }

    fn known(&self, definitions: Definitions) -> Known
        ensures { result.definitions ≡ definitions }
    {
        Known {
            definitions,
            trees: Trees::new(self.alloc),
            premises: Vec::new(self.alloc),
        }
    }

    // The row that is tried first.
    fn first_row(&self, signs: &Signs) -> Result<Row, Memory> {
        match find_false_row(self.alloc, self.f)? {
            Some(row) => Ok(row),
            None => signs.row(self.alloc),
        }
    }
}
