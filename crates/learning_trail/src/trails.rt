//! A trail of literals that were made true, with reasons and levels.
//!
//! A trail's room is taken at once, with an eighth more, as propagation takes no memory; a variable
//! beyond it has no value. It notes where each level begins, so that a level that stays isn't
//! passed.

ghost use Rattle.std.specs.Prelude.{◌≡◌, ◌+◌, ◌<◌, ◌≤◌, ◌++◌, [], ◌∷◌, ℕ, Some, length, reverse, vec_capacity, OnErr, OnOk, IfSome, MatchOption, All};
ghost use Rattle.dq_lits.specs.Literal.{Literal, variable_of};

use crate::codes::Code;
use crate::starts::{newest_start, put_start, take_start};
use crate::values::Values;
use dq_lits::{Lit, Memory, TruthValue, truth_value};
use std::alloc::Global;
use std::marker::Model;

/// A literal that was made true: by a clause, its reason, or by decision.
#[derive(Clone, Copy)]
pub struct Step {
    pub literal: Lit,
    /// The id of a clause.
    pub reason: Option<u64>,
}

/// The literals that were made true, in order.
#[derive(Drop)]
pub struct Trail {
    values: Values,
    // Where the literal of variable v stands, if it is true or false, at place v - 1.
    places: Vec<usize>,
    steps: Vec<Step>,
    // Where each level begins.
    starts: Vec<usize>,
}

impl Model for Trail {
    ghost use Rattle.learning_trail.specs.Steps.{Trailed};

    ghost Value = { Trailed };

    ghost use Rattle.learning_trail.specs.TrailInside.{trailed_in, IsTrail};

    ghost view = { trailed_in };

    ghost invariant = { IsTrail };
}

impl Trail {
    ghost use Rattle.learning_trail.specs.Steps.{literals_of, level_start, IsAt};
    ghost use Rattle.dq_lits.specs.Truth.{literal_value, IsFree};

    pub fn new(alloc: Global) -> Trail
        ensures { result ≡ record { room = 0; steps = [] } }
    {
        Trail {
            values: Values::new(alloc),
            places: Vec::new(alloc),
            steps: Vec::new(alloc),
            starts: Vec::new(alloc),
        }
    }

    /// Room for one variable more.
    pub fn grow(&mut self) -> Result<(), Memory>
        ensures ok { OnOk result
            (self.new ≡ record { room = self.old.room + 1; steps = self.old.steps }) }
        ensures err { OnErr result (self.new ≡ self.old) }
    {
        self.steps.reserve(self.values.len() + 1)?;
        self.places.reserve(1)?;
        self.starts.reserve(self.values.len() + 1)?;
        self.values.grow()?;
        put_place(&mut self.places);
        Ok(())
    }

    /// Room for so many variables. It takes no memory where there is as much.
    pub fn cover(&mut self, variables: usize) -> Result<(), Memory>
        ensures ok { OnOk result (variables ≤ self.new.room) }
        ensures steps { self.new.steps ≡ self.old.steps }
    {
        if variables > self.steps.capacity() {
            self.make_room(variables)?;
        }
        while self.room() < variables {
            self.grow()?;
        }
        Ok(())
    }

    // Room at once for steps on so many variables and an eighth more: a list that grows is copied
    // with what it has room for, and memory that nothing was written to isn't taken before.
    fn make_room(&mut self, variables: usize) -> Result<(), Memory>
        ensures { self.new ≡ self.old }
    {
        let room = variables.saturating_add(variables / 8);
        self.steps.reserve(room)?;
        self.starts.reserve(room)?;
        Ok(())
    }

    /// The value of a literal. A variable that there is no room for has none.
    pub fn value(&self, l: Lit) -> TruthValue
        ensures { result ≡ literal_value (literals_of self.now.steps) l }
    {
        if l.var() as usize > self.values.len() {
            return TruthValue::Unassigned;
        }
        self.code_value(Code::of(l))
    }

    /// The value of the literal that a code stands for.
    pub fn code_value(&self, l: Code) -> TruthValue
        requires { variable_of l ≤ self.now.room }
        ensures { result ≡ literal_value (literals_of self.now.steps) l }
    {
        self.values.of(l)
    }

    /// Makes an unassigned literal true.
    pub fn push(&mut self, step: Step)
        requires in_range { variable_of step.literal ≤ self.old.room }
        requires free { IsFree (literals_of self.old.steps) step.literal }
        ensures is { self.new ≡ record { room = self.old.room; steps = step ∷ self.old.steps } }
        ensures few { length self.new.steps ≤ self.new.room }
    {
        self.values.set(place_of(step.literal), truth_value(!step.literal.is_neg()));
        self.places[place_of(step.literal)] = self.steps.len();
        put_start(&mut self.starts, &step, self.steps.len());
        self.steps.push_reserved(step);
    }

    /// Takes the newest literal back.
    pub fn pop(&mut self) -> Option<Step>
        ensures room { self.new.room ≡ self.old.room }
        ensures steps { MatchOption result ((self.old.steps ≡ []) × (self.new.steps ≡ []))
            (λ s. self.old.steps ≡ s ∷ self.new.steps) }
        ensures in_range { IfSome result (λ s. variable_of s.literal ≤ self.old.room) }
    {
        let step = self.steps.pop()?;
        self.values
            .set(place_of(step.literal), TruthValue::Unassigned);
        take_start(&mut self.starts, &step);
        Some(step)
    }

    /// How many variables there is room for.
    pub fn room(&self) -> usize
        ensures { result ≡ self.now.room }
    {
        self.values.len()
    }

    /// How many literals were made true.
    pub fn len(&self) -> usize
        ensures { result ≡ length self.now.steps }
    {
        self.steps.len()
    }

    /// Where the newest level begins; 0, where nothing was decided.
    pub(crate) fn level_start(&self) -> usize
        ensures { result ≡ level_start self.now.steps }
    {
        newest_start(&self.starts)
    }

    /// The literal at a place, the oldest one at 0.
    pub fn literal_at(&self, at: usize) -> Option<Lit>
        ensures at { MatchOption result (length self.now.steps ≤ at)
            (λ l. IsAt self.now.steps at l) }
        ensures in_range { IfSome result (λ l. variable_of l ≤ self.now.room) }
    {
        if at < self.steps.len() {
            Some(self.steps[at].literal)
        } else {
            None
        }
    }

    /// The place of a variable's literal, the oldest one at 0. There may be one where the variable
    /// has no value.
    pub(crate) fn place(&self, v: usize) -> Option<usize>
        ensures { (at : ℕ) (k : Literal) → IsAt self.now.steps at k → variable_of k ≡ v
            → result ≡ Some at }
    {
        if v > self.places.len() {
            return None;
        }
        if v == 0 {
            return None;
        }
        Some(self.places[v - 1])
    }

    /// The literals that were made true, with their reasons, the oldest first.
    pub fn steps(&self) -> &[Step]
        ensures value { reverse result.now ≡ self.now.steps }
        ensures in_range { All (λ s. variable_of s.literal ≤ self.now.room) result.now }
    {
        &self.steps
    }
}

fn put_place(places: &mut Vec<usize>)
    requires { length places.old.items < vec_capacity places.old }
    ensures { places.new.items ≡ places.old.items ++ 0 ∷ [] }
{
    if places.push(0).is_err() {
        unreachable!();
    }
}

// The place of a literal's variable in the table of values.
fn place_of(l: Lit) -> usize
    ensures { result + 1 ≡ variable_of l }
{
    l.var() as usize - 1
}
