//! The values of literals: a table by literals, so that a look at one costs no look at its sign.

ghost use Rattle.std.specs.Prelude.{◌≡◌, ◌+◌, ◌≤◌, ◌<◌, ◌++◌, ◌∷◌, [], ℕ, suc, List, length, set, slice_index_or, vec_capacity, OnOk, OnErr};
ghost use Rattle.dq_lits.specs.Literal.{variable_of, is_negative};
ghost use Rattle.dq_lits.specs.declared.truth_values.TruthValue.TheVariants.{Unassigned};
ghost use Rattle.learning_trail.specs.Valued.{signed, negated, plain, ArePaired};

use crate::codes::Code;
use dq_lits::{Memory, TruthValue};
use std::alloc::Global;
use std::marker::Model;

/// The values of variables, which a contract sees in order: variable v at place v - 1.
#[derive(Drop)]
pub(crate) struct Values {
    // The value of variable v at place 2v - 2, and behind it that of its negation.
    values: Vec<TruthValue>,
}

impl Model for Values {
    ghost use Rattle.std.specs.Prelude.{List};
    ghost use Rattle.dq_lits.specs.declared.truth_values.TruthValue.{TruthValue};
    ghost use Rattle.learning_trail.specs.Valued.{plain, ArePaired};

    ghost Value = { List TruthValue };

    ghost view = { λ v. plain v.values.items };

    ghost invariant = { λ v. ArePaired v.values.items };
}

impl Values {
    /// No variables. It takes no memory.
    pub(crate) fn new(alloc: Global) -> Values
        ensures { result ≡ [] }
    {
        Values {
            values: Vec::new(alloc),
        }
    }

    /// How many variables there are.
    pub(crate) fn len(&self) -> usize
        ensures { result ≡ length self.now }
    {
        self.values.len() / 2
    }

    /// One variable more, without a value.
    pub(crate) fn grow(&mut self) -> Result<(), Memory>
        ensures ok { OnOk result (self.new ≡ self.old ++ Unassigned ∷ []) }
        ensures err { OnErr result (self.new ≡ self.old) }
    {
        self.values.reserve(2)?;
        put_pair(&mut self.values);
        Ok(())
    }

    /// The value of a literal.
    pub(crate) fn of(&self, l: Code) -> TruthValue
        requires { variable_of l ≤ length self.now }
        ensures from_one { 1 ≤ variable_of l }
        ensures value { (i : ℕ) → variable_of l ≡ suc i
            → result ≡ signed (is_negative l) (slice_index_or self.now i Unassigned) }
    {
        self.values[l.place() - 2]
    }

    /// Sets the value of the variable at a place.
    pub(crate) fn set(&mut self, place: usize, value: TruthValue)
        requires { place < length self.old }
        ensures { self.new ≡ set self.old place value }
    {
        set_pair(&mut self.values, place, value);
    }
}

// Two values more, of a variable without a value and its negation.
fn put_pair(values: &mut Vec<TruthValue>)
    requires room { length values.old.items + 2 ≤ vec_capacity values.old }
    ensures { values.new.items ≡ values.old.items ++ Unassigned ∷ Unassigned ∷ [] }
{
    if values.push(TruthValue::Unassigned).is_err() {
        unreachable!();
    }
    if values.push(TruthValue::Unassigned).is_err() {
        unreachable!();
    }
}

// Sets the values of the variable at a place and of its negation.
fn set_pair(values: &mut Vec<TruthValue>, place: usize, value: TruthValue)
    requires paired { ArePaired values.old.items }
    requires in_range { place < length (plain values.old.items) }
    ensures paired { ArePaired values.new.items }
    ensures plain { plain values.new.items ≡ set (plain values.old.items) place value }
{
    values[place * 2] = value;
    values[place * 2 + 1] = negated(value);
}

fn negated(value: TruthValue) -> TruthValue
    ensures { result ≡ negated value }
{
    match value {
        TruthValue::True => TruthValue::False,
        TruthValue::False => TruthValue::True,
        TruthValue::Unassigned => TruthValue::Unassigned,
    }
}
