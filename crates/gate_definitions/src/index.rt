//! Which clauses have a literal on an existential.

use dq_formula::Formula;
use dq_lits::{Lit, Memory};
use std::alloc::Global;

/// The numbers of the clauses on each existential, by its place, end to end. Whoever takes a clause
/// from here reads it, so that no contract speaks of what is in the index: a number that is missing
/// costs a gate that isn't found.
#[derive(Drop)]
pub(crate) struct Index {
    // Where each existential's numbers begin.
    starts: Vec<usize>,
    numbers: Vec<u32>,
    // The number of an empty clause, if there is one: then the matrix is never true, so that a constant
    // is right for every existential, and no other clause is to be looked at.
    empty: Vec<u32>,
}

impl Index {
    /// The index of a formula's clauses.
    pub(crate) fn new(alloc: Global, f: &Formula) -> Result<Index, Memory> {
        let mut starts = counts(alloc, f)?;
        let total = add_up(&mut starts);
        let mut numbers = zeros(alloc, total)?;
        fill(f, &mut starts, &mut numbers);
        Ok(Index {
            starts,
            numbers,
            empty: first_empty(alloc, f)?,
        })
    }

    /// The numbers of the clauses on an existential; that of an empty clause, if there is one.
    pub(crate) fn on(&self, f: &Formula, y: u64) -> &[u32] {
        if !self.empty.is_empty() {
            return &self.empty;
        }
        let Some(place) = f.existential_place(y) else {
            return &[];
        };
        let start = self.start(place);
        let end = self.start(place.saturating_add(1));
        if start <= end && end <= self.numbers.len() {
            &self.numbers[start..end]
        } else {
            &[]
        }
    }

    // Where the numbers at a place begin; the end of all behind the last place.
    fn start(&self, place: usize) -> usize {
        match self.starts.get(place) {
            Some(start) => *start,
            None => self.numbers.len(),
        }
    }
}

// The number of the first clause without literals.
fn first_empty(alloc: Global, f: &Formula) -> Result<Vec<u32>, Memory> {
    let mut found = Vec::new(alloc);
    for number in 0..f.clauses() {
        if f.clause(number).is_empty() {
            found.push(number as u32)?;
            return Ok(found);
        }
    }
    Ok(found)
}

fn zeros(alloc: Global, count: usize) -> Result<Vec<u32>, Memory> {
    Ok(vec![in alloc; 0u32; count]?)
}

// How many literals there are on each existential.
fn counts(alloc: Global, f: &Formula) -> Result<Vec<usize>, Memory> {
    let mut counts = vec![in alloc; 0usize; f.existentials().len()]?;
    for number in 0..f.clauses() {
        count(f, f.clause(number), &mut counts);
    }
    Ok(counts)
}

fn count(f: &Formula, clause: &[Lit], counts: &mut [usize]) {
    for l in clause {
        let place = place_of(f, *l);
        if place < counts.len() {
            counts[place] = counts[place].saturating_add(1);
        }
    }
}

// The place of a literal's existential; behind all of them for a universal.
fn place_of(f: &Formula, l: Lit) -> usize {
    match f.existential_place(l.var()) {
        Some(place) => place,
        None => f.existentials().len(),
    }
}

// Makes the counts to where each existential's numbers end.
pub(crate) fn add_up(counts: &mut [usize]) -> usize {
    let mut end = 0usize;
    for place in 0..counts.len() {
        end = end.saturating_add(counts[place]);
        counts[place] = end;
    }
    end
}

// Writes the numbers from the last one on, which moves each existential's end to its start.
fn fill(f: &Formula, ends: &mut [usize], numbers: &mut [u32]) {
    for number in (0..f.clauses()).rev() {
        put(f, f.clause(number), number as u32, ends, numbers);
    }
}

fn put(f: &Formula, clause: &[Lit], number: u32, ends: &mut [usize], numbers: &mut [u32]) {
    for l in clause {
        let place = place_of(f, *l);
        if place < ends.len() {
            let at = ends[place].saturating_sub(1);
            ends[place] = at;
            if at < numbers.len() {
                numbers[at] = number;
            }
        }
    }
}
