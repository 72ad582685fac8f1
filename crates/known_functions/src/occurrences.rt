//! Which clauses have each literal on an existential.

use dq_formula::Formula;
use dq_lits::{Lit, Memory};
use std::alloc::Global;

/// The numbers of the clauses with each literal on an existential, end to end. No contract speaks
/// of what is in it: a number that is missing costs a question, or a definition or a rule that isn't
/// asked for.
#[derive(Drop)]
pub(crate) struct Occurrences {
    // Where each literal's numbers begin.
    starts: Vec<usize>,
    numbers: Vec<u32>,
}

impl Occurrences {
    /// None. It takes no memory.
    pub(crate) fn none(alloc: Global) -> Occurrences {
        Occurrences {
            starts: Vec::new(alloc),
            numbers: Vec::new(alloc),
        }
    }

    /// The occurrences in a formula's clauses.
    pub(crate) fn new(alloc: Global, f: &Formula) -> Result<Occurrences, Memory> {
        let mut starts = counts(alloc, f)?;
        let total = add_up(&mut starts);
        let mut numbers = vec![in alloc; 0u32; total]?;
        fill(f, &mut starts, &mut numbers);
        Ok(Occurrences { starts, numbers })
    }

    /// The clauses that are true where the existential at a place has this bit.
    pub(crate) fn with(&self, place: usize, bit: bool) -> &[u32] {
        let slot = slot(place, bit);
        let start = self.start(slot);
        let end = self.start(slot.saturating_add(1));
        if start <= end && end <= self.numbers.len() {
            &self.numbers[start..end]
        } else {
            &[]
        }
    }

    /// Whether the existential at a place occurs in a clause.
    pub(crate) fn has(&self, place: usize) -> bool {
        !self.with(place, true).is_empty() || !self.with(place, false).is_empty()
    }

    /// How many occurrences there are.
    pub(crate) fn count(&self) -> usize {
        self.numbers.len()
    }

    // Where the numbers of a literal begin; the end of all behind the last one.
    fn start(&self, slot: usize) -> usize {
        match self.starts.get(slot) {
            Some(start) => *start,
            None => self.numbers.len(),
        }
    }
}

// Where a literal stands: that by which the existential at a place has a bit.
fn slot(place: usize, bit: bool) -> usize {
    let first = place.saturating_mul(2);
    if bit { first } else { first.saturating_add(1) }
}

// Where a literal stands; behind all of them for one on a universal.
fn slot_of(f: &Formula, l: Lit) -> usize {
    match f.existential_place(l.var()) {
        Some(place) => slot(place, !l.is_neg()),
        None => slot(f.existentials().len(), true),
    }
}

// How many clauses there are with each literal.
fn counts(alloc: Global, f: &Formula) -> Result<Vec<usize>, Memory> {
    let mut counts = vec![in alloc; 0usize; slot(f.existentials().len(), true)]?;
    for number in 0..f.clauses() {
        count(f, f.clause(number), &mut counts);
    }
    Ok(counts)
}

fn count(f: &Formula, clause: &[Lit], counts: &mut [usize]) {
    for l in clause {
        let slot = slot_of(f, *l);
        if slot < counts.len() {
            counts[slot] = counts[slot].saturating_add(1);
        }
    }
}

// Makes the counts to where each literal's numbers end.
fn add_up(counts: &mut [usize]) -> usize {
    let mut end = 0usize;
    for slot in 0..counts.len() {
        end = end.saturating_add(counts[slot]);
        counts[slot] = end;
    }
    end
}

// Writes the numbers from the last one on, which moves each literal's end to its start.
fn fill(f: &Formula, ends: &mut [usize], numbers: &mut [u32]) {
    for number in (0..f.clauses()).rev() {
        put(f, f.clause(number), number as u32, ends, numbers);
    }
}

fn put(f: &Formula, clause: &[Lit], number: u32, ends: &mut [usize], numbers: &mut [u32]) {
    for l in clause {
        let slot = slot_of(f, *l);
        if slot < ends.len() {
            let at = ends[slot].saturating_sub(1);
            ends[slot] = at;
            if at < numbers.len() {
                numbers[at] = number;
            }
        }
    }
}
