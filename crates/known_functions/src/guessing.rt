//! Guesses: nodes that existentials without a definition equal under conditions. They are asked for
//! before the first candidates, and candidates take them where neither a row nor a rule says a bit.
//!
//! A question learns at most 8,000 clauses, and 1,000 where the existential before has no guess: it
//! may be as hard as the formula, and nothing is lost without its answer. One that is cut off gives
//! no guess. No guess is asked for at a failing row: what the box before has to give isn't in the
//! conditions there.

ghost use Rattle.std.specs.Prelude.{◌≡◌, ◌≤◌, ◌<◌, ℕ, true, length, None, Some, IfOk, IfSome, IsErrOf, IsSome, Ok, OnOk, slice_get};
ghost use Rattle.dq_lits.specs.Formula.{Existential, IsWellFormed, existential_of};
ghost use Rattle.aig_graph.specs.Made.{Extends};
ghost use Rattle.hint_log.specs.Entries.{steps_of};
ghost use Rattle.oracle.specs.Limits.{IsAtSomeLimit};
ghost use Rattle.definability.specs.Copies.{IsDefinability};
ghost use Rattle.candidate_functions.specs.Candidates.{IsGuess};
ghost use Rattle.known_functions.specs.Searching.{HasInputs, IsAsked};
ghost use Rattle.known_functions.specs.Forcing.{AreKnownIn};
ghost use Rattle.known_functions.specs.Guessing.{AreConditions, HasAsked, LeavesKnown, MayAsk};

use crate::conditions::MOST_SETS;
use crate::definitions::{Definitions, ExistentialAt, no_nodes};
use crate::lawful_conditions::lawful_conditions;
use crate::suspects::Defined;
use aig_graph::{Graph, Node};
use definability::Definability;
use dq_formula::Formula;
use dq_lits::{Lit, Memory};
use hint_log::{Log, Stop};
use oracle::Oracle;

impl Definitions {
    // Asks for guesses of the existentials without a definition, and keeps them.
    pub(crate) fn guess_all<O: Oracle>(
        &mut self,
        oracle: &mut O,
        definability: &Definability,
        graph: &mut Graph,
        f: &Formula,
        log: &mut Log,
    ) -> Result<(), Stop>
        requires fit { O.Fits oracle.old log.old }
        requires may { MayAsk f.now graph.old definability.now log.old.entries }
        requires known { AreKnownIn f.now graph.old self.old }
        ensures fit { O.Fits oracle.new log.new }
        ensures asked { HasAsked f.now graph.old graph.new definability.now log.old log.new }
        ensures known { OnOk result (AreKnownIn f.now graph.new self.new) }
        ensures limit { IsErrOf result Stop.Limit → IsAtSomeLimit log.new }
    {
        self.guesses = no_nodes(self.questions.alloc, f.existentials().len())?;
        self.find_conditions(f, graph)?;
        self.guess_each(oracle, definability, graph, f, log)
    }

    // The conditions that are tried.
    fn find_conditions(&mut self, f: &Formula, graph: &Graph) -> Result<(), Memory>
        ensures left { LeavesKnown self.old self.new }
    {
        let defined = Defined {
            f,
            graph,
            nodes: &self.nodes,
        };
        self.questions
            .conditions
            .put_all(self.questions.alloc, &defined)
    }

    fn guess_each<O: Oracle>(
        &mut self,
        oracle: &mut O,
        definability: &Definability,
        graph: &mut Graph,
        f: &Formula,
        log: &mut Log,
    ) -> Result<(), Stop>
        requires fit { O.Fits oracle.old log.old }
        requires may { MayAsk f.now graph.old definability.now log.old.entries }
        requires known { AreKnownIn f.now graph.old self.old }
        requires many { length self.old.guesses.items ≡ length f.now.existentials }
        ensures fit { O.Fits oracle.new log.new }
        ensures asked { HasAsked f.now graph.old graph.new definability.now log.old log.new }
        ensures known { OnOk result (AreKnownIn f.now graph.new self.new) }
        ensures limit { IsErrOf result Stop.Limit → IsAtSomeLimit log.new }
    {
        f.every_formula_is_lawful();
        for place in 0..f.existentials().len() {
            let existential = ExistentialAt {
                f,
                definability,
                place,
            };
            self.guesses[place] = self.guess(oracle, graph, &existential, log)?;
        }
        Ok(())
    }

    // A guess of an existential, if it has no definition.
    fn guess<O: Oracle>(
        &mut self,
        oracle: &mut O,
        graph: &mut Graph,
        existential: &ExistentialAt,
        log: &mut Log,
    ) -> Result<Option<Node>, Stop>
        requires fit { O.Fits oracle.old log.old }
        requires may { MayAsk existential.now.f.now graph.old existential.now.definability.now
            log.old.entries }
        requires place { existential.now.place < length existential.now.f.now.existentials }
        ensures fit { O.Fits oracle.new log.new }
        ensures asked { HasAsked existential.now.f.now graph.old graph.new
            existential.now.definability.now log.old log.new }
        ensures left { LeavesKnown self.old self.new }
        ensures guess { (e : Existential)
            → slice_get existential.now.f.now.existentials existential.now.place ≡ Some e
            → IfOk result (λ guess. IfSome guess (IsGuess existential.now.f.now graph.new e)) }
        ensures limit { IsErrOf result Stop.Limit → IsAtSomeLimit log.new }
    {
        if !self.is_undefined(existential.place) {
            return Ok(None);
        }
        let guess = self.first_guess(oracle, graph, existential, log)?;
        self.questions.conditions.learn(guess.is_some());
        Ok(guess)
    }

    // Whether the existential at a place has no definition.
    fn is_undefined(&self, place: usize) -> bool {
        match self.nodes.get(place) {
            Some(node) => node.is_none(),
            None => false,
        }
    }

    // A guess of an existential under the first of the conditions that give one.
    fn first_guess<O: Oracle>(
        &mut self,
        oracle: &mut O,
        graph: &mut Graph,
        existential: &ExistentialAt,
        log: &mut Log,
    ) -> Result<Option<Node>, Stop>
        requires fit { O.Fits oracle.old log.old }
        requires may { MayAsk existential.now.f.now graph.old existential.now.definability.now
            log.old.entries }
        requires place { existential.now.place < length existential.now.f.now.existentials }
        ensures fit { O.Fits oracle.new log.new }
        ensures asked { HasAsked existential.now.f.now graph.old graph.new
            existential.now.definability.now log.old log.new }
        ensures left { LeavesKnown self.old self.new }
        ensures guess { (e : Existential)
            → slice_get existential.now.f.now.existentials existential.now.place ≡ Some e
            → IfOk result (λ guess. IfSome guess (IsGuess existential.now.f.now graph.new e)) }
        ensures limit { IsErrOf result Stop.Limit → IsAtSomeLimit log.new }
    {
        for number in 0..MOST_SETS {
            let guess = self.guess_under(oracle, graph, existential, number, log)?;
            if let Some(node) = guess {
                return Ok(Some(node));
            }
        }
        Ok(None)
    }

    // A guess of an existential under the conditions of a number, if there are any.
    fn guess_under<O: Oracle>(
        &mut self,
        oracle: &mut O,
        graph: &mut Graph,
        existential: &ExistentialAt,
        number: usize,
        log: &mut Log,
    ) -> Result<Option<Node>, Stop>
        requires fit { O.Fits oracle.old log.old }
        requires may { MayAsk existential.now.f.now graph.old existential.now.definability.now
            log.old.entries }
        requires place { existential.now.place < length existential.now.f.now.existentials }
        ensures fit { O.Fits oracle.new log.new }
        ensures asked { HasAsked existential.now.f.now graph.old graph.new
            existential.now.definability.now log.old log.new }
        ensures left { LeavesKnown self.old self.new }
        ensures guess { (e : Existential)
            → slice_get existential.now.f.now.existentials existential.now.place ≡ Some e
            → IfOk result (λ guess. IfSome guess (IsGuess existential.now.f.now graph.new e)) }
        ensures limit { IsErrOf result Stop.Limit → IsAtSomeLimit log.new }
    {
        let f = existential.f;
        f.every_formula_is_lawful();
        let y = f.existentials()[existential.place];
        let Some(set) = self.questions.conditions.set(number) else {
            return Ok(None);
        };
        let conditions = lawful_conditions(self.questions.alloc, f, y, set)?;
        self.guess_within(
            oracle,
            existential.definability,
            graph,
            f,
            y,
            &conditions,
            log,
        )
    }

    // A guess of an existential under conditions, if so many steps suffice. Where all that are left
    // don't, it stops.
    fn guess_within<O: Oracle>(
        &mut self,
        oracle: &mut O,
        definability: &Definability,
        graph: &mut Graph,
        f: &Formula,
        y: u64,
        conditions: &[Lit],
        log: &mut Log,
    ) -> Result<Option<Node>, Stop>
        requires fit { O.Fits oracle.old log.old }
        requires may { MayAsk f.now graph.old definability.now log.old.entries }
        requires existential { IsSome (existential_of f.now y) }
        requires conditions { AreConditions f.now y conditions.now }
        ensures fit { O.Fits oracle.new log.new }
        ensures asked { HasAsked f.now graph.old graph.new definability.now log.old log.new }
        ensures left { LeavesKnown self.old self.new }
        ensures guess { (e : Existential) → existential_of f.now y ≡ Some e
            → IfOk result (λ guess. IfSome guess (IsGuess f.now graph.new e)) }
        ensures limit { IsErrOf result Stop.Limit → IsAtSomeLimit log.new }
    {
        let whole = log.limit();
        let most = most_steps(log, self.questions.conditions.most_steps());
        log.set_limit(most);
        let found = self.guess_or_learn(oracle, definability, graph, f, y, conditions, log);
        // The call shows the log's invariant.
        let _ = log.steps();
        log.set_limit(whole);
        within(found, most == whole)
    }
}

// How many steps a log may have behind a question that may take so many.
fn most_steps(log: &Log, further: u64) -> u64
    ensures steps { steps_of log.now.entries ≤ result }
    ensures limit { result ≤ log.now.limit }
{
    log.limit().min(log.steps().saturating_add(further))
}

// What was found, or none where the question's own limit cut it off.
fn within(found: Result<Option<Node>, Stop>, is_whole: bool) -> Result<Option<Node>, Stop>
    ensures node { (node : _) → result ≡ Ok (Some node) → found ≡ Ok (Some node) }
    ensures limit { IsErrOf result Stop.Limit → (is_whole ≡ true) × IsErrOf found Stop.Limit }
{
    match found {
        Ok(node) => Ok(node),
        Err(Stop::Memory) => Err(Stop::Memory),
        Err(Stop::Limit) => { if is_whole { Err(Stop::Limit) } else { Ok(None) } }
    }
}
