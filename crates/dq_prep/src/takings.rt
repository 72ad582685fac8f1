//! Units, taken one after another.

ghost use Rattle.std.specs.Prelude.{◌≡◌, ◌<◌, false, [], ◌∷◌, slice_index_or, length, map, replicate, Contains, All, IsSome, IfOk, OnOk};
ghost use Rattle.dq_lits.specs.Literal.{variable_of, opposite};
ghost use Rattle.dq_lits.specs.Formula.{declared, existential_of, IsWellFormed};
ghost use Rattle.dq_lits.specs.Derivation.{is_tautology, holds};
ghost use Rattle.dq_prep.specs.Units.{taken_literals, is_satisfied, without_false, IsUnit};
ghost use Rattle.dq_prep.specs.Roles.{role_of, AreOpen};
ghost use Rattle.dq_prep.specs.Takings.{IsTaking, IsRemainder, IsFound, unit_at, keeps_more, remainder_of_none, remainder_of_one};

use crate::roles::{Opens, Role, role_by, with_role};
use crate::sights::sees_any;
use crate::traces::{Taken, Trace};
use dq_formula::Formula;
use dq_lits::{Lit, Memory, TruthValue, truth_value};
use std::alloc::Global;

/// The units that were taken of a formula.
#[derive(Drop)]
pub(crate) struct Taking<'f> {
    pub formula: &'f Formula,
    /// By clause, whether it holds a literal beside its negation.
    pub tautologies: &'f [bool],
    pub trace: Trace,
    // By the place of an existential.
    pub values: Vec<TruthValue>,
}

/// What is left of a clause.
#[derive(Clone, Copy)]
pub(crate) enum Remainder {
    /// This literal alone, on an existential.
    Alone(Lit),
    /// Nothing.
    Empty,
    /// Something else, or the clause has a literal that was taken.
    Other,
}

/// What came of a clause that was looked at.
#[derive(Clone, Copy)]
pub(crate) enum Found {
    /// It isn't a unit.
    NoUnit,
    /// It was a unit, and this literal was taken.
    Took(Lit),
    /// Nothing is left of it.
    Emptied,
}

fn unassigned(alloc: Global, n: usize) -> Result<Vec<TruthValue>, Memory>
    ensures { IfOk result (λ values. values.items ≡ replicate n TruthValue.Unassigned) }
{
    Ok(vec![in alloc; TruthValue::Unassigned; n]?)
}

impl<'f> Taking<'f> {
    /// No unit is taken.
    pub(crate) fn new(
        alloc: Global,
        formula: &'f Formula,
        tautologies: &'f [bool],
    ) -> Result<Taking<'f>, Memory>
        requires well { IsWellFormed formula.now }
        requires tautologies { tautologies.now ≡ map is_tautology formula.now.matrix }
        ensures right { IfOk result IsTaking }
        ensures formula { IfOk result (λ t. t.formula.now ≡ formula.now) }
    {
        formula.every_formula_is_lawful();
        let values = unassigned(alloc, formula.existentials().len())?;
        Ok(Taking {
            formula,
            tautologies,
            trace: Trace::new(alloc),
            values,
        })
    }

    /// The role of a literal.
    pub(crate) fn role(&self, l: Lit) -> Role
        requires right { IsTaking self.now }
        requires bound { Contains (declared self.now.formula.now) (variable_of l) }
        ensures { result ≡ role_of self.now.formula.now (taken_literals self.now.trace) l }
    {
        match self.formula.existential_place(l.var()) {
            Some(place) => role_by(self.values[place], l.is_neg()),
            None => Role::Universal,
        }
    }

    // Whether a literal was taken.
    fn is_true(&self, l: Lit) -> bool
        requires right { IsTaking self.now }
        requires bound { Contains (declared self.now.formula.now) (variable_of l) }
        ensures { result ≡ holds (taken_literals self.now.trace) l }
    {
        self.role(l).is_true()
    }

    // Whether a literal that wasn't taken is false.
    fn is_false(&self, l: Lit) -> bool
        requires right { IsTaking self.now }
        requires bound { Contains (declared self.now.formula.now) (variable_of l) }
        requires untaken { holds (taken_literals self.now.trace) l ≡ false }
        ensures { result ≡ holds (taken_literals self.now.trace) (opposite l) }
    {
        self.role(l).is_false()
    }

    /// Whether a literal of the clause at a place was taken.
    pub(crate) fn is_satisfied(&self, place: usize) -> bool
        requires right { IsTaking self.now }
        requires within { place < length self.now.formula.now.matrix }
        ensures { result ≡ is_satisfied (taken_literals self.now.trace)
            (slice_index_or self.now.formula.now.matrix place []) }
    {
        for l in self.formula.clause(place) {
            if self.is_true(*l) {
                return true;
            }
        }
        false
    }

    /// Writes the literals of the clause at a place that aren't false, in place of what the buffer
    /// holds. None of them was taken.
    pub(crate) fn write_open(&self, place: usize, rest: &mut Vec<Lit>) -> Result<(), Memory>
        requires right { IsTaking self.now }
        requires within { place < length self.now.formula.now.matrix }
        requires unsatisfied { is_satisfied (taken_literals self.now.trace)
            (slice_index_or self.now.formula.now.matrix place []) ≡ false }
        ensures { OnOk result (rest.new.items ≡ without_false (taken_literals self.now.trace)
            (slice_index_or self.now.formula.now.matrix place [])) }
    {
        rest.clear();
        for l in self.formula.clause(place) {
            if !self.is_false(*l) {
                rest.push(*l)?;
            }
        }
        Ok(())
    }

    // What the literals of a clause are.
    fn opens(&self, clause: &[Lit]) -> Opens
        requires right { IsTaking self.now }
        requires bound { All (λ l. Contains (declared self.now.formula.now) (variable_of l))
            clause.now }
        ensures { AreOpen self.now.formula.now (taken_literals self.now.trace) clause.now result }
    {
        let mut opens = Opens::Nothing;
        for l in clause {
            opens = with_role(opens, self.role(*l), *l);
        }
        opens
    }

    // Whether more stays of the clause at a place than this literal, which alone is open.
    fn keeps_more(&self, place: usize, l: Lit) -> bool
        requires right { IsTaking self.now }
        requires within { place < length self.now.formula.now.matrix }
        requires existential { IsSome (existential_of self.now.formula.now (variable_of l)) }
        ensures { result ≡ keeps_more self.now.formula.now
            (slice_index_or self.now.formula.now.matrix place []) l }
    {
        self.tautologies[place] || sees_any(self.formula, l.var(), self.formula.clause(place))
    }

    // What is left of the clause at a place.
    fn remainder(&self, place: usize) -> Remainder
        requires right { IsTaking self.now }
        requires within { place < length self.now.formula.now.matrix }
        ensures { IsRemainder self.now.formula.now self.now.trace place result }
    {
        let clause = self.formula.clause(place);
        match self.opens(clause) {
            Opens::Satisfied => Remainder::Other,
            Opens::Nothing => remainder_of_none(self.tautologies[place]),
            Opens::One(l) => remainder_of_one(l, self.keeps_more(place, l)),
            Opens::More => Remainder::Other,
        }
    }

    // Takes the literal that is left of the clause at a place.
    fn take(&mut self, place: usize, literal: Lit) -> Result<(), Memory>
        requires right { IsTaking self.old }
        requires is_unit { IsUnit self.old.formula.now self.old.trace
            (unit_at place literal) }
        ensures right { OnOk result (IsTaking self.new) }
        ensures formula { self.new.formula.now ≡ self.old.formula.now }
        ensures taken { OnOk result
            (self.new.trace ≡ unit_at place literal ∷ self.old.trace) }
    {
        let Some(at) = self.formula.existential_place(literal.var()) else {
            unreachable!()
        };
        self.trace.push(Taken { place, literal })?;
        self.values[at] = truth_value(!literal.is_neg());
        Ok(())
    }

    /// Takes the literal that is left of the clause at a place, where it is a unit.
    pub(crate) fn try_take(&mut self, place: usize) -> Result<Found, Memory>
        requires right { IsTaking self.old }
        requires within { place < length self.old.formula.now.matrix }
        ensures right { OnOk result (IsTaking self.new) }
        ensures formula { self.new.formula.now ≡ self.old.formula.now }
        ensures found { IfOk result
            (IsFound self.old.formula.now self.old.trace self.new.trace place) }
    {
        match self.remainder(place) {
            Remainder::Alone(l) => {
                self.take(place, l)?;
                Ok(Found::Took(l))
            }
            Remainder::Empty => Ok(Found::Emptied),
            Remainder::Other => Ok(Found::NoUnit),
        }
    }
}

// Where no literal of a clause is open.
fn remainder_of_none(is_tautology: bool) -> Remainder
    ensures { result ≡ remainder_of_none is_tautology }
{
    if is_tautology {
        Remainder::Other
    } else {
        Remainder::Empty
    }
}

// Where one literal of a clause is open, and whether more stays of it.
fn remainder_of_one(l: Lit, more: bool) -> Remainder
    ensures { result ≡ remainder_of_one l more }
{
    if more {
        Remainder::Other
    } else {
        Remainder::Alone(l)
    }
}
