//! The units that were taken, in order.

ghost use Rattle.std.specs.Prelude.{◌≡◌, [], ◌∷◌, reverse, OnOk, OnErr};

use dq_lits::{Lit, Memory};
use std::alloc::Global;
use std::marker::Model;

/// A unit that was taken.
#[derive(Clone, Copy)]
pub struct Taken {
    /// The place of its clause in the matrix, from 0.
    pub place: usize,
    /// The literal that was left of the clause.
    pub literal: Lit,
}

/// The units that were taken. A contract sees the newest one first. What became of each clause
/// follows from them.
#[derive(Drop)]
pub struct Trace {
    units: Vec<Taken>,
}

impl Model for Trace {
    ghost use Rattle.std.specs.Prelude.{List, reverse};
    ghost use Rattle.dq_prep.specs.declared.traces.Taken.{Taken};

    ghost Value = { List Taken };

    ghost view = { λ t. reverse t.units.items };
}

impl Trace {
    /// No unit. It takes no memory.
    pub(crate) fn new(alloc: Global) -> Trace
        ensures { result ≡ [] }
    {
        Trace {
            units: Vec::new(alloc),
        }
    }

    /// The units, the one that was taken first in front.
    pub fn units(&self) -> &[Taken]
        ensures { result.now ≡ reverse self.now }
    {
        &self.units
    }

    /// Adds a unit that is taken after the others.
    pub(crate) fn push(&mut self, unit: Taken) -> Result<(), Memory>
        ensures ok { OnOk result (self.new ≡ unit ∷ self.old) }
        ensures err { OnErr result (self.new ≡ self.old) }
    {
        self.units.push(unit)?;
        Ok(())
    }
}
