//! New names of variables.

ghost use Rattle.std.specs.Prelude.{◌≡◌, ◌≤◌, ◌<◌, ◌^◌, ℕ, None, Some, IfSome, IfOk, OnOk, IsSome, ◌⊎◌};
ghost use Rattle.cert_export.specs.Names.{renaming, IsVariable};
ghost use Rattle.cert_export.specs.Renaming.{renamed_literal, renamed_clause};

use dq_lits::{Lit, Memory};
use number_tables::NumberSet;
use std::alloc::Global;
use std::marker::Model;

/// New names for some variables, each found by the variable.
#[derive(Drop)]
pub struct Names {
    variables: NumberSet,
    names: Vec<u64>,
}

impl Model for Names {
    ghost use Rattle.cert_export.specs.Names.{NameTable, IsNameTable};

    ghost Value = { NameTable };

    ghost view = { λ n. record { variables = n.variables; names = n.names.items } };

    ghost invariant = { λ n.
        IsNameTable (record { variables = n.variables; names = n.names.items }) };
}

impl Names {
    /// No variable has a new name. It takes no memory.
    pub fn new(alloc: Global) -> Names
        ensures { (v : ℕ) → renaming result v ≡ None }
    {
        Names {
            variables: NumberSet::new(alloc),
            names: Vec::new(alloc),
        }
    }

    /// The new name of a variable, if it has one.
    pub fn get(&self, variable: u64) -> Option<u64>
        ensures value { result ≡ renaming self.now variable }
        ensures range { IfSome result IsVariable }
    {
        match self.variables.place(variable) {
            Some(place) => Some(self.names[place]),
            None => None,
        }
    }

    /// Gives a variable its new name, unless it has one.
    pub fn insert(&mut self, variable: u64, name: u64) -> Result<(), Memory>
        requires from_one { 1 ≤ name }
        requires in_range { name < 2 ^ 62 }
        ensures kept { OnOk result
            ((v n : ℕ) → renaming self.old v ≡ Some n → renaming self.new v ≡ Some n) }
        ensures there { OnOk result (IsSome (renaming self.new variable)) }
        ensures only { OnOk result
            ((v n : ℕ) → renaming self.new v ≡ Some n
            → (renaming self.old v ≡ Some n) ⊎ ((v ≡ variable) × (n ≡ name))) }
    {
        if self.variables.contains(variable) {
            return Ok(());
        }
        self.names.reserve(1)?;
        self.variables.insert(variable)?;
        self.names.push(name).unwrap();
        Ok(())
    }

    /// A literal on its variable's new name, if it has one.
    pub fn literal(&self, l: &Lit) -> Option<Lit>
        ensures { result ≡ renamed_literal (renaming self.now) l.now }
    {
        match self.get(l.var()) {
            Some(name) => Some(if l.is_neg() {
                Lit::neg(name)
            } else {
                Lit::pos(name)
            }),
            None => None,
        }
    }

    /// The literals on new names.
    pub fn clause(&self, alloc: Global, lits: &[Lit]) -> Result<Vec<Lit>, Memory>
        ensures { IfOk result
            (λ clause. clause.items ≡ renamed_clause (renaming self.now) lits.now) }
    {
        let mut clause = Vec::new(alloc);
        for l in lits {
            if let Some(renamed) = self.literal(l) {
                clause.push(renamed)?;
            }
        }
        Ok(clause)
    }
}
