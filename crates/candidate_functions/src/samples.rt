//! Values that make the matrix true, which guide trees where points don't: what a tree is before the
//! first row, and which of tests that part the points equally well it takes.
//!
//! They are the pairs that show existentials free, at most 64 values.

ghost use Rattle.std.specs.Prelude.{◌≡◌, ◌++◌, ◌∷◌, [], length, OnErr, OnOk};

use crate::counts::BranchCounts;
use dq_lits::{Memory, Row};
use std::alloc::Global;
use std::marker::Model;

/// A row, and values of the existentials in order of declaration.
#[derive(Drop)]
pub struct Sample {
    pub row: Row,
    pub values: Row,
}

/// Rows with values under which the matrix is true, as questions for definitions find them. They
/// only guide trees: no contract rests on what they are.
#[derive(Drop)]
pub struct Samples {
    samples: Vec<Sample>,
}

impl Model for Samples {
    ghost use Rattle.std.specs.Prelude.{List};
    ghost use Rattle.candidate_functions.specs.declared.samples.Sample.{Sample};

    ghost Value = { List Sample };

    ghost view = { λ s. s.samples.items };
}

impl Samples {
    /// None. It takes no memory.
    pub fn new(alloc: Global) -> Samples
        ensures { result ≡ [] }
    {
        Samples {
            samples: Vec::new(alloc),
        }
    }

    /// How many there are.
    pub fn len(&self) -> usize
        ensures { result ≡ length self.now }
    {
        self.samples.len()
    }

    /// Adds a copy of a row with values behind the others. A refused call adds nothing.
    pub fn add(&mut self, row: &Row, values: &Row) -> Result<(), Memory>
        ensures ok { OnOk result (self.new
            ≡ self.old ++ record { row = row.now; values = values.now } ∷ []) }
        ensures err { OnErr result (self.new ≡ self.old) }
    {
        let row = row.copy()?;
        let values = values.copy()?;
        self.samples.push(Sample { row, values })?;
        Ok(())
    }

    // Whether the existential at a place is true in more of them than it is false in.
    pub(crate) fn majority(&self, existential: usize) -> bool {
        let mut ones = 0usize;
        for sample in &self.samples {
            if bit_at(&sample.values, existential) {
                ones = ones.saturating_add(1);
            }
        }
        ones > self.samples.len().saturating_sub(ones)
    }

    // How mixed the existential's bits are where the universal at a place is true, and where it is
    // false.
    pub(crate) fn impurity(&self, universal: usize, existential: usize) -> u64 {
        let mut counts = BranchCounts::none();
        for sample in &self.samples {
            counts.add(
                bit_at(&sample.row, universal),
                bit_at(&sample.values, existential),
            );
        }
        counts.impurity()
    }
}

fn bit_at(row: &Row, place: usize) -> bool {
    place < row.len() && row.get(place)
}
