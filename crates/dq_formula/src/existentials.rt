//! The existentials of a formula with their dependency sets, in order of declaration.

ghost use Rattle.std.specs.Prelude.{◌≡◌, ◌++◌, ◌∷◌, ◌+◌, ◌<◌, ◌≤◌, [], nat_eq, false, length, map, replicate, slice_get, vec_capacity, IfOk, OnOk, OnErr, Some};
ghost use Rattle.std.specs.List.{IsDistinct};
ghost use Rattle.std.specs.Map.{keys_of, values_of, lookup};
ghost use Rattle.std.specs.Option.{option_copied};
ghost use Rattle.number_tables.specs.Numbers.{has_number, place_of};
ghost use Rattle.dq_formula.specs.Layout.{unseeing_entry};

use crate::dependencies::Deps;
use dq_lits::Memory;
use number_tables::NumberSet;
use std::alloc::Global;
use std::marker::Model;

// Existentials, each with its dependency set. A text chooses their numbers, so no hash finds them.
#[derive(Drop)]
pub(crate) struct Existentials {
    variables: NumberSet,
    sets: Vec<Deps>,
}

impl Model for Existentials {
    ghost use Rattle.std.specs.Prelude.{◌≡◌, ℕ, List, length};
    ghost use Rattle.std.specs.List.{zip};
    ghost use Rattle.dq_formula.specs.declared.dependencies.Deps.{Deps};

    ghost Value = { List (ℕ × Deps) };

    ghost view = { λ e. zip e.variables e.sets.items };

    ghost invariant = { λ e. length e.sets.items ≡ length e.variables };
}

impl Existentials {
    // There are none. It takes no memory.
    pub(crate) fn new(alloc: Global) -> Existentials
        ensures { result ≡ [] }
    {
        Existentials {
            variables: NumberSet::new(alloc),
            sets: Vec::new(alloc),
        }
    }

    // Their variables, in order.
    pub(crate) fn variables(&self) -> &[u64]
        ensures { result.now ≡ keys_of self.now }
    {
        self.variables.items()
    }

    // The place of one, counted from 0.
    pub(crate) fn place(&self, y: u64) -> Option<usize>
        ensures { result ≡ place_of (keys_of self.now) y }
    {
        self.variables.place(y)
    }

    // Whether a variable is one of them.
    pub(crate) fn contains(&self, y: u64) -> bool
        ensures { result ≡ has_number (keys_of self.now) y }
    {
        self.variables.contains(y)
    }

    // The dependency set of one.
    pub(crate) fn set_of(&self, y: u64) -> Option<&Deps>
        ensures { option_copied result ≡ lookup (nat_eq y) self.now }
    {
        match self.place(y) {
            Some(place) => Some(self.set_at(place)),
            None => None,
        }
    }

    // The dependency set of the one at a place.
    pub(crate) fn set_at(&self, place: usize) -> &Deps
        requires { place < length self.now }
        ensures { slice_get (values_of self.now) place ≡ Some result.now }
    {
        &self.sets[place]
    }

    // Puts one that isn't there behind the others.
    #[inline(always)]
    pub(crate) fn push(&mut self, y: u64, set: Deps) -> Result<(), Memory>
        requires { has_number (keys_of self.old) y ≡ false }
        ensures ok { OnOk result (self.new ≡ self.old ++ (y, set) ∷ []) }
        ensures err { OnErr result (self.new ≡ self.old) }
    {
        self.sets.reserve(1)?;
        self.variables.insert(y)?;
        self.sets.push(set).unwrap();
        Ok(())
    }

    // Puts variables that aren't there behind the others, without dependencies.
    pub(crate) fn push_unseeing(&mut self, alloc: Global, ys: &[u64]) -> Result<(), Memory>
        requires { IsDistinct nat_eq (keys_of self.old ++ ys.now) }
        ensures ok { OnOk result (self.new ≡ self.old ++ map unseeing_entry ys.now) }
        ensures err { OnErr result (self.new ≡ self.old) }
    {
        let variables = joined(alloc, self.variables.items(), ys)?;
        self.sets.reserve(ys.len())?;
        push_empty_sets(&mut self.sets, ys.len());
        self.variables = variables;
        Ok(())
    }
}

// Two lists of numbers as a set.
fn joined(alloc: Global, xs: &[u64], ys: &[u64]) -> Result<NumberSet, Memory>
    requires { IsDistinct nat_eq (xs.now ++ ys.now) }
    ensures { IfOk result (λ numbers. numbers ≡ xs.now ++ ys.now) }
{
    let mut numbers = NumberSet::new(alloc);
    insert_all(&mut numbers, xs)?;
    insert_all(&mut numbers, ys)?;
    Ok(numbers)
}

// Adds numbers that aren't there.
fn insert_all(numbers: &mut NumberSet, more: &[u64]) -> Result<(), Memory>
    requires { IsDistinct nat_eq (numbers.old ++ more.now) }
    ensures { OnOk result (numbers.new ≡ numbers.old ++ more.now) }
{
    for number in more {
        numbers.insert(*number)?;
    }
    Ok(())
}

// Adds empty sets to a list that has room for them.
fn push_empty_sets(sets: &mut Vec<Deps>, count: usize)
    requires { length sets.old.items + count ≤ vec_capacity sets.old }
    ensures { sets.new.items ≡ sets.old.items ++ replicate count (Deps.FirstOf 0) }
{
    for _ in 0..count {
        sets.push(Deps::FirstOf(0)).unwrap();
    }
}
