//! The names of variables, as a log keeps them.
//!
//! A solver names its variables in order, from 1 on without gaps, so that a name stands at its
//! variable's place. A variable that comes out of that order, and each one that is named since, is
//! found by a table.

ghost use Rattle.std.specs.Prelude.{◌≡◌, ℕ, List, [], ◌∷◌, ◌++◌, false, eqb, length, slice_get, None, Some, IfSome, IfNone, OnOk, OnErr};
ghost use Rattle.std.specs.List.{AllByRecursion};
ghost use Rattle.std.specs.Map.{lookup};
ghost use Rattle.hint_log.specs.Kept.{names_from};
ghost use Rattle.hint_log.specs.declared.names.Name.{Name};

use crate::names::Name;
use dq_lits::Memory;
use indexmap::IndexMap;
use std::alloc::Global;
use std::marker::Model;

/// Variables and their names, in the order in which they were named.
#[derive(Drop)]
pub(crate) struct Names {
    // The name of variable v at place v - 1.
    ordered: Vec<Name>,
    // Those of the variables that were named behind them.
    others: IndexMap<u64, Name>,
}

impl Model for Names {
    ghost use Rattle.std.specs.Prelude.{ℕ, List, ◌++◌};
    ghost use Rattle.hint_log.specs.declared.names.Name.{Name};
    ghost use Rattle.hint_log.specs.Kept.{names_from};

    ghost Value = { List (ℕ × Name) };

    ghost view = { λ n. names_from 1 n.ordered.items ++ n.others.entries };
}

impl Names {
    /// No variable has a name. It takes no memory.
    pub(crate) fn new(alloc: Global) -> Names
        ensures { result ≡ [] }
    {
        Names {
            ordered: Vec::new(alloc),
            others: IndexMap::new(alloc),
        }
    }

    /// Takes all names away.
    pub(crate) fn clear(&mut self)
        ensures { self.new ≡ [] }
    {
        self.ordered.clear();
        self.others.clear();
    }

    /// Names a variable that has no name.
    pub(crate) fn insert(&mut self, var: u64, name: Name) -> Result<(), Memory>
        requires { AllByRecursion (λ e. eqb var e.0 ≡ false) self.old }
        ensures ok { OnOk result (self.new ≡ self.old ++ (var, name) ∷ []) }
        ensures err { OnErr result (self.new ≡ self.old) }
    {
        if self.others.is_empty() && var == self.ordered.len() as u64 + 1 {
            self.ordered.push(name)?;
        } else {
            self.others.insert(var, name)?;
        }
        Ok(())
    }

    /// The name of a variable, if it has one.
    pub(crate) fn get(&self, var: u64) -> Option<Name>
        ensures { result ≡ lookup (eqb var) self.now }
    {
        if var >= 1 && var <= self.ordered.len() as u64 {
            return Some(self.ordered[var as usize - 1]);
        }
        match self.others.get(&var) {
            Some(name) => Some(*name),
            None => None,
        }
    }

    /// The place of a variable, from 0, if it has a name.
    pub(crate) fn place(&self, var: u64) -> Option<usize>
        ensures some { IfSome result
            (λ place. (name : Name) × (slice_get self.now place ≡ Some (var, name))) }
        ensures none { IfNone result (lookup (eqb var) self.now ≡ None) }
    {
        if var >= 1 && var <= self.ordered.len() as u64 {
            return Some(var as usize - 1);
        }
        match self.others.get_index_of(&var) {
            Some(behind) => Some(self.len() - (self.others.len() - behind)),
            None => None,
        }
    }

    /// The variable that was named at a place, from 0, and its name.
    pub(crate) fn at(&self, place: usize) -> Option<(u64, Name)>
        ensures { result ≡ slice_get self.now place }
    {
        if place < self.ordered.len() {
            return Some((place as u64 + 1, self.ordered[place]));
        }
        match self.others.get_index(place - self.ordered.len()) {
            Some((variable, name)) => Some((*variable, *name)),
            None => None,
        }
    }

    /// How many variables have names.
    pub(crate) fn len(&self) -> usize
        ensures { result ≡ length self.now }
    {
        self.ordered.len() + self.others.len()
    }
}
