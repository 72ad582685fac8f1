//! The clauses that may have become units.
//!
//! Behind the queue one pass over all clauses looks for a unit; it is the pass that the contract
//! rests on.

use dq_formula::Formula;
use dq_lits::{Lit, Memory};
use std::alloc::Global;

/// Clauses that wait to be looked at. No contract speaks of what stands here: each clause is tested
/// before a unit is taken of it.
#[derive(Drop)]
pub(crate) struct Waiting {
    // By clause, how many of its literals are on existentials and weren't noted as false.
    counts: Vec<usize>,
    // For each existential, by its place, and each sign, where in `clauses` those with this literal
    // end; they begin where those before end.
    ends: Vec<usize>,
    clauses: Vec<usize>,
    queue: Vec<usize>,
}

impl Waiting {
    /// The clauses with at most one literal on an existential wait.
    pub(crate) fn of(alloc: Global, f: &Formula) -> Result<Waiting, Memory> {
        let mut waiting = Waiting {
            counts: zeros(alloc, f.clauses())?,
            ends: zeros(alloc, f.existentials().len().saturating_mul(2))?,
            clauses: Vec::new(alloc),
            queue: Vec::new(alloc),
        };
        waiting.count_all(f);
        let total = begin_all(&mut waiting.ends);
        waiting.clauses.resize(total, 0)?;
        waiting.list_all(f);
        waiting.queue_short()?;
        Ok(waiting)
    }

    /// Takes a clause that waits, where there is one.
    pub(crate) fn pop(&mut self) -> Option<usize> {
        self.queue.pop()
    }

    /// Notes that a literal is false: clauses that are left with at most one wait from now on.
    pub(crate) fn note_false(&mut self, f: &Formula, l: Lit) -> Result<(), Memory> {
        let Some(slot) = slot_of(f, l) else {
            return Ok(());
        };
        for k in self.start_of(slot)..self.end_of(slot) {
            let clause = self.listed(k);
            self.shorten(clause)?;
        }
        Ok(())
    }

    fn start_of(&self, slot: usize) -> usize {
        if slot == 0 { 0 } else { self.end_of(slot - 1) }
    }

    fn end_of(&self, slot: usize) -> usize {
        at(&self.ends, slot)
    }

    fn listed(&self, k: usize) -> usize {
        at(&self.clauses, k)
    }

    fn count_of(&self, clause: usize) -> usize {
        at(&self.counts, clause)
    }

    fn shorten(&mut self, clause: usize) -> Result<(), Memory> {
        let left = self.count_of(clause).saturating_sub(1);
        put(&mut self.counts, clause, left);
        if left <= 1 {
            self.queue.push(clause)?;
        }
        Ok(())
    }

    fn queue_short(&mut self) -> Result<(), Memory> {
        for clause in 0..self.counts.len() {
            if self.counts[clause] <= 1 {
                self.queue.push(clause)?;
            }
        }
        Ok(())
    }

    // Counts the literals of each clause, and the clauses of each literal.
    fn count_all(&mut self, f: &Formula) {
        for j in 0..f.clauses() {
            for l in f.clause(j) {
                if let Some(slot) = slot_of(f, *l) {
                    add_one(&mut self.ends, slot);
                    add_one(&mut self.counts, j);
                }
            }
        }
    }

    // Lists the clauses of each literal from where they begin on.
    fn list_all(&mut self, f: &Formula) {
        for j in 0..f.clauses() {
            for l in f.clause(j) {
                if let Some(slot) = slot_of(f, *l) {
                    let place = self.end_of(slot);
                    put(&mut self.clauses, place, j);
                    add_one(&mut self.ends, slot);
                }
            }
        }
    }
}

// A number for each literal on an existential.
fn slot_of(f: &Formula, l: Lit) -> Option<usize> {
    let place = f.existential_place(l.var())?;
    Some(
        place
            .saturating_mul(2)
            .saturating_add(usize::from(l.is_neg())),
    )
}

fn zeros(alloc: Global, n: usize) -> Result<Vec<usize>, Memory> {
    Ok(vec![in alloc; 0usize; n]?)
}

// Writes in place of each count the sum of those before it, and gives the sum of all.
fn begin_all(counts: &mut Vec<usize>) -> usize {
    let mut sum: usize = 0;
    for i in 0..counts.len() {
        let count = counts[i];
        counts[i] = sum;
        sum = sum.saturating_add(count);
    }
    sum
}

fn at(xs: &[usize], i: usize) -> usize {
    match xs.get(i) {
        Some(x) => *x,
        None => 0,
    }
}

fn put(xs: &mut Vec<usize>, i: usize, x: usize) {
    if i < xs.len() {
        xs[i] = x;
    }
}

fn add_one(xs: &mut Vec<usize>, i: usize) {
    let more = at(xs, i).saturating_add(1);
    put(xs, i, more);
}
