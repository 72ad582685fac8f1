//! Definitions of existentials under conditions.

ghost use Rattle.std.specs.Prelude.{◌≡◌, ◌≢◌, ◌+◌, ℕ, true, false, All, Contains, length, IfOk, IsErrOf, IsSome, Some};
ghost use Rattle.dq_lits.specs.Derivation.{is_tautology};
ghost use Rattle.dq_lits.specs.Formula.{Existential, IsWellFormed, declared, existential_of};
ghost use Rattle.dq_lits.specs.Literal.{variable_of};
ghost use Rattle.hint_log.specs.Growth.{Grew};
ghost use Rattle.aig_graph.specs.Made.{Extends};
ghost use Rattle.log_laws.specs.Engines.{copies, IsAddedBy};
ghost use Rattle.oracle.specs.Limits.{IsAtSomeLimit};
ghost use Rattle.definability.specs.Copies.{IsDefinability};
ghost use Rattle.definability.specs.Growing.{HasSameGivens};
ghost use Rattle.definability.specs.Guessing.{IsGuess};

use crate::asking::Question;
use crate::conditions::bits_of;
use crate::definability::Definability;
use crate::defining::Pair;
use aig_graph::{Graph, Node};
use dq_formula::Formula;
use dq_lits::Lit;
use hint_log::{Log, Stop};
use oracle::Oracle;

/// What a question under conditions found.
#[derive(Drop)]
pub enum Guess {
    /// A node over what the existential sees, which it equals wherever the matrix and the
    /// conditions are true.
    Node(Node),
    /// Two samples in which the conditions are true: they agree on what the existential sees, and
    /// it is true in the first and false in the second.
    Pair(Pair),
}

impl Definability {
    /// A definition of an existential over the universals that it sees, where these conditions are
    /// true, or values that show that there is none. The conditions don't contradict one another,
    /// and say nothing of the existential itself. It stops for want of memory or at the log's
    /// limit, and may be called again then.
    pub fn guess<O: Oracle>(
        &self,
        oracle: &mut O,
        graph: &mut Graph,
        f: &Formula,
        y: u64,
        conditions: &[Lit],
        log: &mut Log,
    ) -> Result<Guess, Stop>
        requires fit { O.Fits oracle.old log.old }
        requires formula { IsWellFormed f.now }
        requires definability { IsDefinability f.now self.now log.old.entries }
        requires existential { IsSome (existential_of f.now y) }
        requires inputs { graph.old.inputs ≡ length f.now.universals + length f.now.existentials }
        requires declared { All (λ l. Contains (declared f.now) (variable_of l)) conditions.now }
        requires consistent { is_tautology conditions.now ≡ false }
        requires others { All (λ l. variable_of l ≢ y) conditions.now }
        ensures fit { O.Fits oracle.new log.new }
        ensures definability { IsDefinability f.now self.now log.new.entries }
        ensures grew { (group : ℕ)
            → Grew (IsAddedBy f.now copies group true log.old.entries) log.old log.new }
        ensures same_givens { HasSameGivens log.old.entries log.new.entries }
        ensures extends { Extends graph.old graph.new }
        ensures guess { (e : Existential) → existential_of f.now y ≡ Some e
            → IfOk result (IsGuess f.now graph.new e conditions.now) }
        ensures limit { IsErrOf result Stop.Limit → IsAtSomeLimit log.new }
    {
        f.every_formula_is_lawful();
        let places = self.seen_copies(f, y)?;
        let kept = self.copied_conditions(f, conditions)?;
        let others = bits_of(self.alloc, f, conditions)?;
        let question = Question {
            f,
            places: &places,
            y,
            conditions: &kept,
            others: &others,
        };
        let answer = self.ask(oracle, graph, &question, log)?;
        Ok(answer)
    }
}
