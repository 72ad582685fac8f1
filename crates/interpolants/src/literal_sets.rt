//! A set of literals.

ghost use Rattle.std.specs.Prelude.{◌≡◌, ◌||◌, [], OnOk};
ghost use Rattle.dq_lits.specs.Literal.{Literal, same_literal};
ghost use Rattle.dq_lits.specs.Derivation.{holds, AreSame};

use dq_lits::{Lit, Memory};
use indexmap::IndexSet;
use std::alloc::Global;
use std::marker::Model;

/// A set of literals.
#[derive(Drop)]
pub(crate) struct LiteralSet {
    positives: IndexSet<u64>,
    negatives: IndexSet<u64>,
}

impl Model for LiteralSet {
    ghost use Rattle.std.specs.Prelude.{List, ◌++◌, map};
    ghost use Rattle.dq_lits.specs.Literal.{Literal, positive, negative};

    ghost Value = { List Literal };

    ghost view = { λ s. map positive s.positives.keys ++ map negative s.negatives.keys };
}

impl LiteralSet {
    /// No literal. It takes no memory.
    pub(crate) fn new(alloc: Global) -> LiteralSet
        ensures { result ≡ [] }
    {
        LiteralSet {
            positives: IndexSet::new(alloc),
            negatives: IndexSet::new(alloc),
        }
    }

    pub(crate) fn add(&mut self, l: Lit) -> Result<(), Memory>
        ensures { OnOk result
            ((k : Literal) → holds self.new k ≡ (same_literal k l || holds self.old k)) }
    {
        if l.is_neg() {
            self.negatives.insert(l.var())?;
        } else {
            self.positives.insert(l.var())?;
        }
        Ok(())
    }

    pub(crate) fn has(&self, l: Lit) -> bool
        ensures { result ≡ holds self.now l }
    {
        if l.is_neg() {
            self.negatives.contains(&l.var())
        } else {
            self.positives.contains(&l.var())
        }
    }

    /// Puts these literals into an empty set.
    pub(crate) fn fill(&mut self, lits: &[Lit]) -> Result<(), Memory>
        requires empty { self.old ≡ [] }
        ensures { OnOk result (AreSame self.new lits.now) }
    {
        for l in lits {
            self.add(*l)?;
        }
        Ok(())
    }
}
