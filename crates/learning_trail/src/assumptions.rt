//! What was assumed, against the trail.
//!
//! An assumption that is false answers from its reason. Those that are true are counted from the
//! first on, until a conflict takes the trail back.

ghost use Rattle.std.specs.Prelude.{◌≡◌, ◌≤◌, ◌<◌, ◌+◌, ◌-◌, ◌^◌, true, false, All, Some, IfSome, MatchOption, slice_get, length, take};
ghost use Rattle.std.specs.List.{list_any};
ghost use Rattle.dq_lits.specs.Literal.{Literal, variable_of, same_literal};
ghost use Rattle.dq_lits.specs.Derivation.{holds};
ghost use Rattle.oracle.specs.Calls.{assumed};
ghost use Rattle.learning_trail.specs.Steps.{literals_of, decision_of};
ghost use Rattle.learning_trail.specs.Sound.{AreTrue};
ghost use Rattle.learning_trail.specs.Lessons.{IsNext};

use crate::levels::last_decision;
use crate::trails::Trail;
use dq_lits::{Lit, TruthValue};
use oracle::Group;
use std::marker::Model;

/// What is to be true: the selectors of active groups, and literals. They stay where they are, so
/// that a search takes no memory for them.
#[derive(Drop)]
pub struct Assumptions<'a> {
    active: &'a [Group],
    literals: &'a [Lit],
}

impl<'a> Model for Assumptions<'a> {
    ghost use Rattle.std.specs.Prelude.{List};
    ghost use Rattle.dq_lits.specs.Literal.{Literal};
    ghost use Rattle.oracle.specs.Calls.{assumed};

    ghost Value = { List Literal };

    ghost view = { λ s. assumed s.active.now s.literals.now };
}

impl<'a> Assumptions<'a> {
    pub fn new(active: &'a [Group], literals: &'a [Lit]) -> Assumptions<'a>
        ensures { result ≡ assumed active.now literals.now }
    {
        Assumptions { active, literals }
    }

    /// The one at a place, from 0; the selectors come first.
    fn get(&self, at: usize) -> Option<Lit>
        ensures value { slice_get self.now at ≡ result }
        ensures few { IfSome result (λ l. at + 1 < 2 ^ 64) }
    {
        if at < self.active.len() {
            Some(self.active[at].selector)
        } else {
            literal_at(self.literals, at - self.active.len())
        }
    }

    /// Whether a literal is among them.
    fn has(&self, l: Lit) -> bool
        ensures { result ≡ holds self.now l }
    {
        is_selector_of(self.active, l) || holds(self.literals, l)
    }
}

fn is_selector_of(active: &[Group], l: Lit) -> bool
    ensures { result ≡ list_any (λ g. same_literal l g.selector) active.now }
{
    active.iter().any(|g| l == g.selector)
}

fn literal_at(literals: &[Lit], at: usize) -> Option<Lit>
    ensures value { slice_get literals.now at ≡ result }
    ensures within { IfSome result (λ l. at < length literals.now) }
{
    if at < literals.len() {
        Some(literals[at])
    } else {
        None
    }
}

/// The first assumption that isn't true.
#[derive(Clone, Copy)]
pub enum Next {
    AllTrue,
    False(Lit),
    Free(Lit),
}

/// The first assumption that isn't true, where so many are, whose number is brought up to date.
pub fn next_assumption(trail: &Trail, assumptions: &Assumptions, made: &mut usize) -> Next
    requires in_range { All (λ l. variable_of l ≤ trail.now.room) assumptions.now }
    requires made { AreTrue (take made.old assumptions.now) (literals_of trail.now.steps) }
    ensures next { IsNext assumptions.now (literals_of trail.now.steps) result }
    ensures made { AreTrue (take made.new assumptions.now) (literals_of trail.now.steps) }
{
    while let Some(l) = assumptions.get(*made) {
        match trail.value(l) {
            TruthValue::True => *made += 1,
            TruthValue::False => return Next::False(l),
            TruthValue::Unassigned => return Next::Free(l),
        }
    }
    Next::AllTrue
}

/// The decision that the newest level began with, unless it was assumed.
pub fn free_decision(trail: &Trail, assumptions: &Assumptions) -> Option<Lit>
    ensures { MatchOption result
        ((d : Literal) → decision_of trail.now.steps ≡ Some d → holds assumptions.now d ≡ true)
        (λ d. (decision_of trail.now.steps ≡ Some d) × (holds assumptions.now d ≡ false)) }
{
    match last_decision(trail.steps()) {
        Some(l) => { if assumptions.has(l) { None } else { Some(l) } }
        None => None,
    }
}

/// Whether a literal is among others.
pub fn holds(lits: &[Lit], l: Lit) -> bool
    ensures { result ≡ holds lits.now l }
{
    lits.iter().any(|k| l == *k)
}
