//! Rows that refute a formula, found where a guess was asked for: an existential has to have
//! different bits at them, and can't tell them apart.

ghost use Rattle.std.specs.Prelude.{◌≡◌, length, IfOk, IfSome, IsErrOf, IsSome, Some};
ghost use Rattle.dq_lits.specs.Formula.{Existential, IsWellFormed, existential_of};
ghost use Rattle.aig_graph.specs.Made.{Extends};
ghost use Rattle.hint_log.specs.Growth.{Grew};
ghost use Rattle.oracle.specs.Limits.{IsAtSomeLimit};
ghost use Rattle.definability.specs.Copies.{IsDefinability};
ghost use Rattle.candidate_functions.specs.Candidates.{IsGuess};
ghost use Rattle.known_functions.specs.Searching.{HasInputs, IsAsked};
ghost use Rattle.known_functions.specs.Guessing.{AreConditions, HasAsked, LeavesKnown, MayAsk};

use crate::definitions::Definitions;
use crate::lawful_conditions::row_conditions;
use aig_graph::{Graph, Node};
use definability::{Definability, Guess, Pair};
use dq_formula::Formula;
use dq_lits::{Lit, Row};
use hint_log::{Log, Stop};
use oracle::Oracle;

impl Definitions {
    // A guess of an existential under conditions; where there is none, what its samples tell is
    // learned.
    pub(crate) fn guess_or_learn<O: Oracle>(
        &mut self,
        oracle: &mut O,
        definability: &Definability,
        graph: &mut Graph,
        f: &Formula,
        y: u64,
        conditions: &[Lit],
        log: &mut Log,
    ) -> Result<Option<Node>, Stop>
        requires fit { O.Fits oracle.old log.old }
        requires may { MayAsk f.now graph.old definability.now log.old.entries }
        requires existential { IsSome (existential_of f.now y) }
        requires conditions { AreConditions f.now y conditions.now }
        ensures fit { O.Fits oracle.new log.new }
        ensures asked { HasAsked f.now graph.old graph.new definability.now log.old log.new }
        ensures left { LeavesKnown self.old self.new }
        ensures guess { (e : Existential) → existential_of f.now y ≡ Some e
            → IfOk result (λ guess. IfSome guess (IsGuess f.now graph.new e)) }
        ensures limit { IsErrOf result Stop.Limit → IsAtSomeLimit log.new }
    {
        match definability.guess(oracle, graph, f, y, conditions, log)? {
            Guess::Node(node) => Ok(Some(node)),
            Guess::Pair(pair) => {
                self.learn_clash(oracle, definability, graph, f, y, &pair, log)?;
                Ok(None)
            }
        }
    }

    // Keeps the rows of two samples if the existential, which has different bits in them, has to
    // have these there.
    fn learn_clash<O: Oracle>(
        &mut self,
        oracle: &mut O,
        definability: &Definability,
        graph: &mut Graph,
        f: &Formula,
        y: u64,
        pair: &Pair,
        log: &mut Log,
    ) -> Result<(), Stop>
        requires fit { O.Fits oracle.old log.old }
        requires may { MayAsk f.now graph.old definability.now log.old.entries }
        requires existential { IsSome (existential_of f.now y) }
        ensures fit { O.Fits oracle.new log.new }
        ensures asked { HasAsked f.now graph.old graph.new definability.now log.old log.new }
        ensures left { LeavesKnown self.old self.new }
        ensures limit { IsErrOf result Stop.Limit → IsAtSomeLimit log.new }
    {
        if !self.is_fixed(oracle, definability, graph, f, y, &pair.row1, log)? {
            return Ok(());
        }
        if !self.is_fixed(oracle, definability, graph, f, y, &pair.row2, log)? {
            return Ok(());
        }
        self.questions.conditions.keep(pair)?;
        Ok(())
    }

    // Whether the clauses leave an existential one bit at a row.
    fn is_fixed<O: Oracle>(
        &mut self,
        oracle: &mut O,
        definability: &Definability,
        graph: &mut Graph,
        f: &Formula,
        y: u64,
        row: &Row,
        log: &mut Log,
    ) -> Result<bool, Stop>
        requires fit { O.Fits oracle.old log.old }
        requires may { MayAsk f.now graph.old definability.now log.old.entries }
        requires existential { IsSome (existential_of f.now y) }
        ensures fit { O.Fits oracle.new log.new }
        ensures asked { HasAsked f.now graph.old graph.new definability.now log.old log.new }
        ensures left { LeavesKnown self.old self.new }
        ensures limit { IsErrOf result Stop.Limit → IsAtSomeLimit log.new }
    {
        if row.len() != f.universals().len() {
            return Ok(false);
        }
        let conditions = row_conditions(self.questions.alloc, f, y, row)?;
        let found = definability.guess(oracle, graph, f, y, &conditions, log)?;
        Ok(is_node(&found))
    }
}

fn is_node(found: &Guess) -> bool {
    match found {
        Guess::Node(_) => true,
        Guess::Pair(_) => false,
    }
}
