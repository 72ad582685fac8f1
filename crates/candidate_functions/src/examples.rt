//! A model's points as examples of one existential: rows, with the bit that it has there.

ghost use Rattle.std.specs.Prelude.{◌≡◌, length, Contains};
ghost use Rattle.dq_formula.specs.Prefix.{existential_variables};

use crate::counts::BranchCounts;
use crate::outputs::Known;
use crate::samples::Samples;
use crate::values::bit_at;
use dq_formula::Formula;
use dq_lits::Memory;
use expansion::{Points, Table};
use std::alloc::Global;

// The most universals that are compared for a test: for those of a hostile formula all would be the
// product of two counts.
const MOST_TESTS: usize = 64;

// Rows, each with the bit of the existential at a place, and the universals that it sees there; behind
// them the same rows with the bits of its twin, and what that sees, if it has one; and samples, which
// say something where these don't.
#[derive(Drop)]
pub(crate) struct Examples<'a> {
    pub f: &'a Formula,
    pub table: &'a Table,
    pub place: usize,
    pub bits: &'a [bool],
    pub seen: &'a [u64],
    pub twin_seen: &'a [u64],
    pub samples: &'a Samples,
}

// A test, by where the universal stands in the rows that an existential, and its twin, sees there.
#[derive(Clone, Copy)]
struct Test {
    own: usize,
    twin: usize,
}

// The bits of the existential at a place in the rounds of a table; behind them those of its twin.
pub(crate) fn bits_of(
    alloc: Global,
    known: &Known,
    place: usize,
    twin: Option<usize>,
) -> Result<Vec<bool>, Memory>
    requires variables { known.now.points.now.variables ≡ existential_variables known.now.f.now }
    requires as_many { length known.now.points.now.rows ≡ length known.now.table.now.rows }
{
    let mut bits = Vec::new(alloc);
    add_bits(&mut bits, known, place)?;
    if let Some(twin) = twin {
        add_bits(&mut bits, known, twin)?;
    }
    Ok(bits)
}

// Adds the bits of the existential at a place, if there is one.
fn add_bits(bits: &mut Vec<bool>, known: &Known, place: usize) -> Result<(), Memory>
    requires variables { known.now.points.now.variables ≡ existential_variables known.now.f.now }
    requires as_many { length known.now.points.now.rows ≡ length known.now.table.now.rows }
{
    if place < known.f.existentials().len() {
        let y = known.f.existentials()[place];
        add_bits_of(bits, known.table, known.points, y)?;
    }
    Ok(())
}

fn add_bits_of(bits: &mut Vec<bool>, table: &Table, points: &Points, y: u64) -> Result<(), Memory>
    requires as_many { length points.now.rows ≡ length table.now.rows }
    requires existential { Contains points.now.variables y }
{
    for k in 0..table.rows() {
        bits.push(points.bit(y, k + 1))?;
    }
    Ok(())
}

impl Examples<'_> {
    /// The numbers of all examples.
    pub(crate) fn numbers(&self, alloc: Global) -> Result<Vec<usize>, Memory> {
        let mut numbers = Vec::new(alloc);
        for number in 0..self.bits.len() {
            numbers.push(number)?;
        }
        Ok(numbers)
    }

    /// Those of some examples at which a universal has a bit.
    pub(crate) fn with(
        &self,
        alloc: Global,
        some: &[usize],
        tested: usize,
        bit: bool,
    ) -> Result<Vec<usize>, Memory> {
        let test = self.test(tested);
        let mut found = Vec::new(alloc);
        for number in some {
            if self.is_one(*number, test) == bit {
                found.push(*number)?;
            }
        }
        Ok(found)
    }

    /// The bit of the first of some examples.
    pub(crate) fn first_bit(&self, some: &[usize]) -> bool {
        match some.first() {
            Some(number) => self.bit(*number),
            None => false,
        }
    }

    /// What most samples say of the existential, or false.
    pub(crate) fn likely_bit(&self) -> bool {
        self.samples.majority(self.place)
    }

    /// The universal that parts some examples by their bits best, by its place among those that are
    /// seen: of those in which two examples with other bits differ. Where two part them equally
    /// well, the samples choose. None where all examples have one bit.
    pub(crate) fn best_test(&self, some: &[usize]) -> Option<usize> {
        let one = some.first()?;
        let bit = self.bit(*one);
        let other = some.iter().find(|number| self.bit(**number) != bit)?;
        let mut best = None;
        let mut least = u64::MAX;
        let mut tests = 0usize;
        for tested in 0..self.seen.len() {
            let test = self.test(tested);
            if tests < MOST_TESTS && self.is_one(*one, test) != self.is_one(*other, test) {
                tests += 1;
                let impurity = self.impurity(some, test);
                if impurity < least || impurity == least && self.is_purer(tested, best) {
                    least = impurity;
                    best = Some(tested);
                }
            }
        }
        best
    }

    // How mixed the bits of examples are at both branches of a test.
    fn impurity(&self, some: &[usize], test: Test) -> u64 {
        let mut counts = BranchCounts::none();
        for number in some {
            counts.add(self.is_one(*number, test), self.bit(*number));
        }
        counts.impurity()
    }

    // Whether a test parts the samples better than the best one up to now.
    fn is_purer(&self, tested: usize, best: Option<usize>) -> bool {
        match best {
            None => true,
            Some(other) => self.samples_impurity(tested) < self.samples_impurity(other),
        }
    }

    fn samples_impurity(&self, tested: usize) -> u64 {
        self.samples.impurity(self.test(tested).own, self.place)
    }

    fn bit(&self, number: usize) -> bool {
        match self.bits.get(number) {
            Some(bit) => *bit,
            None => false,
        }
    }

    // A test by the place of its universal among those that are seen.
    fn test(&self, tested: usize) -> Test {
        Test {
            own: self.universal(self.seen, tested),
            twin: self.universal(self.twin_seen, tested),
        }
    }

    // Where a universal stands in the rows, by its place among others; behind all where there is none.
    fn universal(&self, seen: &[u64], tested: usize) -> usize {
        match seen.get(tested) {
            Some(x) => self.f.place_of(*x),
            None => self.f.universals().len(),
        }
    }

    // Whether the universal of a test is true in an example.
    fn is_one(&self, number: usize, test: Test) -> bool {
        match number.checked_sub(self.table.rows() as usize) {
            Some(number) => bit_at(self.table, number as u64, test.twin),
            None => bit_at(self.table, number as u64, test.own),
        }
    }
}
