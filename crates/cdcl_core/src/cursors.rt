//! Where clauses are looked at next: a policy that no contract speaks of.
//!
//! What was false where a clause was looked at last is mostly false still, so that a look goes on
//! from there. A clause that some of very many clauses are false is the longest of a search, and
//! each of its literals becomes false in its turn: to look at all of them anew each time would take
//! a time that grows with the square of their number.

use dq_lits::{Lit, Memory};
use learning_trail::Code;
use std::alloc::Global;

// Clauses of more literals that were put to the solver have a place to decide from.
const LONG: usize = 48;

// Clauses of no more literals are looked at from their beginning.
const SHORT: usize = 4;

const MOST_NOTED: usize = u32::MAX as usize;

// Where a literal of a long clause to decide was found last.
#[derive(Clone, Copy)]
struct Cursor {
    clause: u64,
    decided: usize,
}

/// Where clauses were looked at last.
#[derive(Drop)]
pub(crate) struct Cursors {
    // Where a literal to watch was found in the clause with id i, at place i - 1.
    watched: Vec<u32>,
    // Of each long clause, in the order of the clauses' ids.
    cursors: Vec<Cursor>,
}

/// Whether a clause has so many literals that it is looked at from a place on, for one to watch.
pub(crate) fn has_place(lits: &[Code]) -> bool {
    lits.len() > SHORT
}

// Whether a clause has so many literals that one to decide is looked for from a place on.
fn is_long(literals: usize) -> bool {
    literals > LONG
}

impl Cursors {
    pub(crate) fn new(alloc: Global) -> Cursors {
        Cursors {
            watched: Vec::new(alloc),
            cursors: Vec::new(alloc),
        }
    }

    /// A place in each of so many clauses, which are one more than those up to now.
    pub(crate) fn grow(&mut self, clauses: u64) -> Result<(), Memory> {
        if (self.watched.len() as u64) < clauses {
            self.watched.push(0)?;
        }
        Ok(())
    }

    /// A place to decide from for a clause of an id larger than all up to now, if it is long.
    pub(crate) fn add(&mut self, clause: u64, lits: &[Lit]) -> Result<(), Memory> {
        if is_long(lits.len()) {
            self.cursors.push(Cursor { clause, decided: 0 })?;
        }
        Ok(())
    }

    /// Where a literal to watch was found last.
    pub(crate) fn watched(&self, clause: u64) -> usize {
        match self.watched.get(clause.wrapping_sub(1) as usize) {
            Some(place) => *place as usize,
            None => 0,
        }
    }

    /// Where a literal to decide was found last, if the clause has a place.
    pub(crate) fn decided(&self, clause: u64, lits: &[Code]) -> Option<usize> {
        let cursor = self.get(clause, lits)?;
        Some(cursor.decided)
    }

    /// Notes where a literal to watch was found.
    pub(crate) fn watch(&mut self, clause: u64, place: usize) {
        if place > MOST_NOTED {
            return;
        }
        if let Some(old) = self.watched.get_mut(clause.wrapping_sub(1) as usize) {
            *old = place as u32;
        }
    }

    /// Notes where a literal to decide was found.
    pub(crate) fn decide(&mut self, clause: u64, place: usize) {
        if let Some(at) = self.place_of(clause)
            && let Some(cursor) = self.cursors.get_mut(at)
        {
            cursor.decided = place;
        }
    }

    fn get(&self, clause: u64, lits: &[Code]) -> Option<&Cursor> {
        if !is_long(lits.len()) {
            return None;
        }
        self.cursors.get(self.place_of(clause)?)
    }

    fn place_of(&self, clause: u64) -> Option<usize> {
        match self.cursors.binary_search_by_key(&clause, |c| c.clause) {
            Ok(at) => Some(at),
            Err(_) => None,
        }
    }
}
