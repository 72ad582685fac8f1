//! Walks from values that make the matrix true to others, an existential turned at each step. One
//! that was turned has no definition, if what was turned with it may not be read by a definition.
//!
//! A turn takes along at most eight others, looks for them in clauses of at most 64 literals and at
//! 16 times the occurrences at most: an at-most-one constraint over thousands would else be walked
//! once for each of its literals.

use crate::occurrences::Occurrences;
use crate::samples::Sample;
use dq_formula::Formula;
use dq_lits::{Lit, Memory};
use std::alloc::Global;

// How many others are turned with an existential at most, and in clauses of how many literals they
// are looked for.
const MOST_REPAIRS: usize = 8;

const MOST_LITERALS: usize = 64;
// How many occurrences and literals a walk looks at for each existential at most.
const WORK: usize = 16;

/// A walk. No contract speaks of it: an existential that is wrongly said to have no definition isn't
/// asked for one.
#[derive(Drop)]
pub(crate) struct Walk<'f, 'o, 'n> {
    f: &'f Formula,
    occurrences: &'o Occurrences,
    numbers: &'n [usize],
    sample: Sample,
    // What was turned in the last step, and clauses that may be false since.
    turned: Vec<usize>,
    broken: Vec<u32>,
    // How many occurrences and literals may still be looked at.
    left: usize,
}

impl<'f, 'o, 'n> Walk<'f, 'o, 'n> {
    /// From the values of a sample. The numbers are those of the existentials in the order in which
    /// they are asked for.
    pub(crate) fn new(
        alloc: Global,
        f: &'f Formula,
        occurrences: &'o Occurrences,
        numbers: &'n [usize],
        sample: Sample,
    ) -> Walk<'f, 'o, 'n> {
        Walk {
            f,
            occurrences,
            numbers,
            sample,
            turned: Vec::new(alloc),
            broken: Vec::new(alloc),
            left: occurrences.count().saturating_mul(WORK),
        }
    }

    /// Turns the existential at a place if it can be turned alone.
    pub(crate) fn turn_alone(&mut self, place: usize) {
        if self.sample.is_loose(self.occurrences, place) {
            self.sample.turn(self.occurrences, place);
        }
    }

    /// Turns the existential at a place, and where clauses need that, others that come after it,
    /// which its definition may not read; or none, where that takes too many.
    pub(crate) fn turn(&mut self, place: usize) -> Result<bool, Memory> {
        self.turned.clear();
        self.broken.clear();
        self.turn_one(place)?;
        for _ in 0..MOST_REPAIRS {
            if !self.repair(place)? {
                break;
            }
        }
        Ok(self.keep_or_go_back())
    }

    // Turns one that comes after the existential at a place, for a clause that is false, and says
    // whether it did.
    fn repair(&mut self, place: usize) -> Result<bool, Memory> {
        let Some(number) = self.next_false() else {
            return Ok(false);
        };
        let Some(other) = self.best_in(number, place) else {
            return Ok(false);
        };
        self.turn_one(other)?;
        Ok(true)
    }

    // Whether no clause is false. What was turned is turned back, where one is.
    fn keep_or_go_back(&mut self) -> bool {
        if self.next_false().is_none() {
            return true;
        }
        self.go_back();
        false
    }

    // Turns an existential, and notes the clauses that needed its bit.
    fn turn_one(&mut self, place: usize) -> Result<(), Memory> {
        let numbers = self.occurrences.with(place, self.sample.bit(place));
        self.left = self.left.saturating_sub(numbers.len());
        for number in numbers {
            if self.sample.count(*number) < 2 {
                self.broken.push(*number)?;
            }
        }
        self.turned.push(place)?;
        self.sample.turn(self.occurrences, place);
        Ok(())
    }

    // A clause that is false; the ones behind it that aren't are dropped.
    fn next_false(&mut self) -> Option<u32> {
        for _ in 0..self.broken.len() {
            match self.broken.last() {
                Some(number) if self.sample.count(*number) == 0 => return Some(*number),
                _ => drop_last(&mut self.broken),
            }
        }
        None
    }

    // The existential of a clause, by its place, that comes after another one and whose bit the
    // fewest clauses need.
    fn best_in(&mut self, number: u32, place: usize) -> Option<usize> {
        let at = number as usize;
        if at >= self.f.clauses() || self.f.clause(at).len() > MOST_LITERALS {
            return None;
        }
        let mut best: Option<(usize, usize)> = None;
        for l in self.f.clause(at) {
            best = self.better(best, *l, place);
        }
        match best {
            Some((_, other)) => Some(other),
            None => None,
        }
    }

    fn better(
        &mut self,
        best: Option<(usize, usize)>,
        l: Lit,
        place: usize,
    ) -> Option<(usize, usize)> {
        let Some(other) = self.f.existential_place(l.var()) else {
            return best;
        };
        if self.left == 0 || !self.is_after(other, place) || self.turned.contains(&other) {
            return best;
        }
        let needs = self.needs(other);
        match best {
            Some((fewest, _)) if fewest <= needs => best,
            _ => Some((needs, other)),
        }
    }

    // How many clauses need the bit of an existential.
    fn needs(&mut self, other: usize) -> usize {
        let cost = self.occurrences.with(other, self.sample.bit(other)).len();
        self.left = self.left.saturating_sub(cost.saturating_add(1));
        self.sample.needs(self.occurrences, other)
    }

    fn is_after(&self, other: usize, place: usize) -> bool {
        match (self.numbers.get(other), self.numbers.get(place)) {
            (Some(after), Some(before)) => before < after,
            _ => false,
        }
    }

    // Turns back what was turned in this step.
    fn go_back(&mut self) {
        for k in 0..self.turned.len() {
            if let Some(place) = self.turned.get(k) {
                self.sample.turn(self.occurrences, *place);
            }
        }
    }
}

fn drop_last(numbers: &mut Vec<u32>) {
    let _ = numbers.pop();
}
