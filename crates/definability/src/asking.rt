//! A question to both copies at once, and its answer.

ghost use Rattle.std.specs.Prelude.{◌≡◌, ◌+◌, ◌++◌, ◌∷◌, [], ℕ, Bool, List, true, All, Contains, length, IfOk, IsErrOf, Some};
ghost use Rattle.dq_lits.specs.Formula.{IsWellFormed, declared};
ghost use Rattle.dq_lits.specs.Literal.{variable_of};
ghost use Rattle.dq_formula.specs.Prefix.{existential_variables};
ghost use Rattle.hint_log.specs.Entries.{Entry};
ghost use Rattle.hint_log.specs.Naming.{NamedLiteral, name_literal, AreNamedAs};
ghost use Rattle.aig_graph.specs.Made.{Extends};
ghost use Rattle.oracle.specs.Limits.{IsAtSomeLimit};
ghost use Rattle.definability.specs.Copies.{AreCopies, AreCopiesOf, IsCopied, IsDefinability, copy_names};
ghost use Rattle.definability.specs.Growing.{HasSearched};
ghost use Rattle.definability.specs.Dividing.{IsQuestion, IsAsked, IsAnswerAt};

use crate::copies::{MatrixCopy, copied_clause, copied_variable};
use crate::definability::Definability;
use crate::guessing::Guess;
use aig_graph::Graph;
use dq_formula::Formula;
use dq_lits::{Lit, Memory, Row};
use hint_log::laws::names_are_unique;
use hint_log::{Log, Stop};
use oracle::{Answer, Oracle};
use std::alloc::Global;

/// Whether the declared variables at these places, universals first, determine an existential where
/// the matrix and the conditions are true. All these variables have copies; the universals that have
/// none are to have the bits of a row where values show that it isn't determined.
#[derive(Drop)]
pub(crate) struct Question<'f, 'p, 'c, 'o> {
    pub f: &'f Formula,
    pub places: &'p [usize],
    pub y: u64,
    pub conditions: &'c [Lit],
    pub others: &'o Row,
}

/// What a question asks of each copy: the conditions, and that the existential is true in the first
/// and false in the second.
#[derive(Drop)]
pub(crate) struct Asked {
    pub first: Vec<Lit>,
    pub second: Vec<Lit>,
}

impl Definability {
    /// A node over the variables at the question's places, which the existential equals wherever
    /// the matrix and the conditions are true, or values that show that there is none.
    pub(crate) fn ask<O: Oracle>(
        &self,
        oracle: &mut O,
        graph: &mut Graph,
        question: &Question,
        log: &mut Log,
    ) -> Result<Guess, Stop>
        requires fit { O.Fits oracle.old log.old }
        requires formula { IsWellFormed question.now.f.now }
        requires definability { IsDefinability question.now.f.now self.now log.old.entries }
        requires posed { IsQuestion question.now.f.now self.now.copied.items
            question.now.places.now question.now.y question.now.conditions.now }
        requires others { length question.now.others.now ≡ length question.now.f.now.universals }
        requires inputs { graph.old.inputs ≡ length question.now.f.now.universals
            + length question.now.f.now.existentials }
        ensures fit { O.Fits oracle.new log.new }
        ensures searched { HasSearched question.now.f.now self.now log.old log.new }
        ensures extends { Extends graph.old graph.new }
        ensures answer { IfOk result (IsAnswerAt question.now.f.now self.now.copied.items
            question.now.others.now question.now.places.now question.now.y
            question.now.conditions.now graph.new) }
        ensures limit { IsErrOf result Stop.Limit → IsAtSomeLimit log.new }
    {
        names_are_unique();
        let asked = self.asked(question)?;
        match self.search(oracle, question, &asked, log)? {
            Answer::Unsat(id) => {
                let node = self.definition(graph, question, &asked, id, log)?;
                Ok(Guess::Node(node))
            }
            Answer::Sat => {
                let pair = self.pair(oracle, question.others)?;
                Ok(Guess::Pair(pair))
            }
        }
    }

    // The copies of what is asked.
    fn asked(&self, question: &Question) -> Result<Asked, Memory>
        requires posed { IsQuestion question.now.f.now self.now.copied.items
            question.now.places.now question.now.y question.now.conditions.now }
        requires first_universals { length self.now.first.universals.items
            ≡ length question.now.f.now.universals }
        requires first_existentials { length self.now.first.existentials.items
            ≡ length question.now.f.now.existentials }
        requires second_universals { length self.now.second.universals.items
            ≡ length question.now.f.now.universals }
        requires second_existentials { length self.now.second.existentials.items
            ≡ length question.now.f.now.existentials }
        ensures { (entries : List Entry) → IsDefinability question.now.f.now self.now entries
            → IfOk result (λ asked. IsAsked entries question.now.y question.now.conditions.now asked) }
    {
        let f = question.f;
        let one = copied_variable(&self.first, f, question.y);
        let first = asked_literals(self.alloc, &self.first, f, question.conditions, one)?;
        let other = copied_variable(&self.second, f, question.y).not();
        let second = asked_literals(self.alloc, &self.second, f, question.conditions, other)?;
        Ok(Asked { first, second })
    }
}

// The copies of conditions, and then a literal.
fn asked_literals(
    alloc: Global,
    copy: &MatrixCopy,
    f: &Formula,
    conditions: &[Lit],
    last: Lit,
) -> Result<Vec<Lit>, Memory>
    requires bound { All (λ l. Contains (declared f.now) (variable_of l)) conditions.now }
    requires universals { length copy.now.universals.items ≡ length f.now.universals }
    requires existentials { length copy.now.existentials.items ≡ length f.now.existentials }
    ensures { (entries : List Entry) (side : ℕ) (flags : List Bool) (n : NamedLiteral)
        → AreCopies entries side flags f.now.universals copy.now.universals.items
        → AreCopiesOf entries side (existential_variables f.now) copy.now.existentials.items
        → All (λ l. IsCopied f.now flags (variable_of l)) conditions.now
        → name_literal entries last ≡ Some n
        → IfOk result
        (λ lits. AreNamedAs entries lits.items (copy_names side conditions.now ++ n ∷ [])) }
{
    let mut lits = copied_clause(alloc, copy, f, conditions)?;
    lits.push(last)?;
    Ok(lits)
}
