//! Tables: clauses that decide an output's bit for each row of few inputs.
//!
//! No contract speaks of what is found here: whoever takes a clause from a table reads it.
//!
//! A table's inputs are the ten variables that decide most rows (a clause with k others decides
//! 2^-k of them). Each clause is looked at 64 times at most on average, and the tree is found
//! before a node is made.

use crate::clauses::clause_at;
use crate::outputs::Output;
use definition_order::may_read;
use dq_formula::Formula;
use dq_lits::{Lit, Memory};
use std::alloc::Global;
use std::collections::BTreeMap;

/// A table has at most so many inputs.
pub(crate) const MOST_INPUTS: usize = 10;

/// The rows of ten inputs.
pub(crate) const MOST_ROWS: usize = 1 << MOST_INPUTS;

/// A clause on an output whose other literals are on the table's inputs: at the rows where these
/// are all false it decides the output's bit. Bit i stands for the input at place i.
#[derive(Clone, Copy)]
pub(crate) struct Line {
    pub(crate) number: u32,
    pub(crate) read: u64,
    pub(crate) negated: u64,
}

/// The clauses on an output over inputs that its definition may read, a positive literal for each.
#[derive(Drop)]
pub(crate) struct Table {
    pub(crate) inputs: Vec<Lit>,
    pub(crate) lines: Vec<Line>,
}

// A variable beside an output in its short clauses. The weight is how many rows these clauses
// decide, each counted alone (R. G. Jeroslow, J. Wang, "Solving propositional satisfiability
// problems", 1990).
#[derive(Clone, Copy)]
struct Candidate {
    positive: Lit,
    is_readable: bool,
    weight: usize,
}

type Candidates = BTreeMap<u64, Candidate>;

impl Table {
    /// The table over the variables of most weight, the heaviest first.
    pub(crate) fn new(alloc: Global, output: &Output) -> Result<Table, Memory> {
        let mut table = Table {
            inputs: Vec::new(alloc),
            lines: Vec::new(alloc),
        };
        table.choose_inputs(alloc, output)?;
        table.take_lines(output)?;
        Ok(table)
    }

    // Takes the heaviest variables as inputs.
    fn choose_inputs(&mut self, alloc: Global, output: &Output) -> Result<(), Memory> {
        let mut candidates = BTreeMap::new(alloc);
        note_each(output, &mut candidates)?;
        weigh_all(output, &mut candidates);
        self.choose_among(alloc, &candidates)
    }

    fn choose_among(&mut self, alloc: Global, candidates: &Candidates) -> Result<(), Memory> {
        let mut order = Vec::new(alloc);
        put_weights(candidates, &mut order)?;
        order.sort_unstable();
        for (_, v) in order.iter().take(MOST_INPUTS) {
            if let Some(candidate) = candidates.get(v) {
                self.inputs.push(candidate.positive)?;
            }
        }
        Ok(())
    }

    // Takes the clauses over the inputs.
    fn take_lines(&mut self, output: &Output) -> Result<(), Memory> {
        for number in output.numbers {
            if let Some(clause) = short_clause(output.f, *number) {
                if let Some(line) = line_over(output, *number, clause, &self.inputs) {
                    self.lines.push(line)?;
                }
            }
        }
        Ok(())
    }

    /// Whether the lines decide as many rows as there are, were each row decided by one line.
    pub(crate) fn may_be_whole(&self) -> bool {
        let mut rows = 0usize;
        for line in &self.lines {
            rows = rows.saturating_add(rows_of(line.read.count_ones() as usize));
        }
        rows >= MOST_ROWS
    }
}

/// Whether an output's short clauses would decide as many rows as there are, were each row decided
/// by one of them. It only looks at their lengths.
pub(crate) fn may_have_table(output: &Output) -> bool {
    let mut rows = 0usize;
    for number in output.numbers {
        if let Some(clause) = clause_at(output.f, *number) {
            rows = rows.saturating_add(rows_of(clause.len().saturating_sub(1)));
        }
    }
    rows >= MOST_ROWS
}

/// How many rows a clause decides that has so many literals on inputs; none where these are too
/// many.
pub(crate) fn rows_of(others: usize) -> usize {
    if others <= MOST_INPUTS {
        MOST_ROWS >> others
    } else {
        0
    }
}

// A clause that has no more literals than a line may have.
fn short_clause(f: &Formula, number: u32) -> Option<&[Lit]> {
    let clause = clause_at(f, number)?;
    if clause.len() <= MOST_INPUTS + 1 {
        Some(clause)
    } else {
        None
    }
}

// Notes each variable beside the output in a short clause, without weight.
fn note_each(output: &Output, candidates: &mut Candidates) -> Result<(), Memory> {
    for number in output.numbers {
        if let Some(clause) = short_clause(output.f, *number) {
            note_all(output, clause, candidates)?;
        }
    }
    Ok(())
}

fn note_all(output: &Output, clause: &[Lit], candidates: &mut Candidates) -> Result<(), Memory> {
    for l in clause {
        let v = l.var();
        if v != output.y && !candidates.contains_key(&v) {
            let candidate = Candidate {
                positive: if l.is_neg() { l.not() } else { *l },
                is_readable: may_read(output.f, output.ranks, output.y, v),
                weight: 0,
            };
            candidates.insert(v, candidate)?;
        }
    }
    Ok(())
}

fn weigh_all(output: &Output, candidates: &mut Candidates) {
    for number in output.numbers {
        if let Some(clause) = short_clause(output.f, *number) {
            if is_readable(output, clause, candidates) {
                weigh(clause, candidates);
            }
        }
    }
}

fn is_readable(output: &Output, clause: &[Lit], candidates: &Candidates) -> bool {
    clause.iter().all(|l| {
        l.var() == output.y
            || match candidates.get(&l.var()) {
                Some(candidate) => candidate.is_readable,
                None => false,
            }
    })
}

fn weigh(clause: &[Lit], candidates: &mut Candidates) {
    let rows = rows_of(clause.len().saturating_sub(1));
    for l in clause {
        if let Some(candidate) = candidates.get_mut(&l.var()) {
            candidate.weight = candidate.weight.saturating_add(rows);
        }
    }
}

// The variables that have some weight, each behind what sorts the heaviest first.
fn put_weights(candidates: &Candidates, order: &mut Vec<(usize, u64)>) -> Result<(), Memory> {
    for (v, candidate) in candidates {
        if candidate.weight > 0 {
            order.push((usize::MAX - candidate.weight, *v))?;
        }
    }
    Ok(())
}

fn line_over(output: &Output, number: u32, clause: &[Lit], inputs: &[Lit]) -> Option<Line> {
    let mut line = Line {
        number,
        read: 0,
        negated: 0,
    };
    for l in clause {
        if l.var() != output.y {
            let here = bit(place_among(inputs, l.var())?);
            line.read = line.read | here;
            if l.is_neg() {
                line.negated = line.negated | here;
            }
        }
    }
    Some(line)
}

fn place_among(inputs: &[Lit], v: u64) -> Option<usize> {
    inputs.iter().position(|input| input.var() == v)
}

/// The bit of a place.
pub(crate) fn bit(place: usize) -> u64 {
    1 << (place % 64)
}
