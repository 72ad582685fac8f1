//! Conditions under which a definition is worth a question.
//!
//! Where a circuit with boxes is compared with its specification, the clauses that no definition
//! makes true say that outputs are equal wherever the boxes' inputs are as they should be: they
//! share the literals that say that they aren't. Under the negations of these a box's output is
//! often defined, and what defines it there serves everywhere.
//!
//! Four sets of conditions are tried, those of the last clauses first, of 1,024 literals at most;
//! after 32 existentials in a row without a guess none is asked for. Conditions on existentials
//! without a definition would give functions of what isn't known yet.

use crate::suspects::Defined;
use definability::Pair;
use dq_lits::{Lit, Memory, Row};
use std::alloc::Global;

// How many clauses share a literal at least that is a condition.
const FEWEST: u32 = 2;

// How many sets of conditions are tried, and how many conditions one of them has at most.
pub(crate) const MOST_SETS: usize = 4;

const MOST_CONDITIONS: usize = 1024;

// After so many existentials in a row for which no guess was found none is asked for.
const MOST_IN_VAIN: usize = 32;

// How many clauses are learned for a question at most: while guesses are found, and where the
// existential before has none.
const MOST_STEPS: u64 = 8000;

const FEW_STEPS: u64 = 1000;

/// Sets of conditions, and what was learned from asking for definitions under them. No contract
/// speaks of it.
#[derive(Drop)]
pub(crate) struct Conditions {
    sets: Vec<Vec<Lit>>,
    // For how many existentials in a row none of them gave a guess.
    in_vain: usize,
    // The numbers of the clauses that no definition makes true, where they were looked for.
    suspects: Vec<usize>,
    // Two rows that an existential can't tell apart, at which it has to have different bits: they
    // refute the formula.
    rows: Vec<Row>,
}

impl Conditions {
    /// No conditions yet.
    pub(crate) fn none(alloc: Global) -> Conditions {
        Conditions {
            sets: Vec::new(alloc),
            in_vain: 0,
            suspects: Vec::new(alloc),
            rows: Vec::new(alloc),
        }
    }

    /// The set of a number, if there is one and it is worth a question.
    pub(crate) fn set(&self, number: usize) -> Option<&[Lit]> {
        if self.in_vain >= MOST_IN_VAIN || !self.rows.is_empty() {
            return None;
        }
        match self.sets.get(number) {
            Some(set) => Some(set),
            None => None,
        }
    }

    /// Rows that refute the formula, if some were found.
    pub(crate) fn rows(&self) -> &[Row] {
        &self.rows
    }

    /// Learns two rows that refute the formula.
    pub(crate) fn keep(&mut self, pair: &Pair) -> Result<(), Memory> {
        self.rows.push(pair.row1.copy()?)?;
        self.rows.push(pair.row2.copy()?)?;
        Ok(())
    }

    /// Learns a row that refutes the formula.
    pub(crate) fn keep_row(&mut self, row: Row) -> Result<(), Memory> {
        self.rows.push(row)?;
        Ok(())
    }

    /// How many clauses may be learned for a question.
    pub(crate) fn most_steps(&self) -> u64 {
        if self.in_vain == 0 {
            MOST_STEPS
        } else {
            FEW_STEPS
        }
    }

    /// Learns whether they gave a guess.
    pub(crate) fn learn(&mut self, is_guessed: bool) {
        self.in_vain = if is_guessed {
            0
        } else {
            self.in_vain.saturating_add(1)
        };
    }

    /// Puts some sets, each the conditions that a clause gives which no definition makes true; those
    /// of the last clauses first. Time follows the literals.
    pub(crate) fn put_all(&mut self, alloc: Global, defined: &Defined) -> Result<(), Memory> {
        let suspects = defined.suspects(alloc)?;
        self.put_of(alloc, defined, &suspects)?;
        self.suspects = suspects;
        Ok(())
    }

    /// Looks for the clauses that no definition makes true.
    pub(crate) fn find_suspects(&mut self, alloc: Global, defined: &Defined) -> Result<(), Memory> {
        self.suspects = defined.suspects(alloc)?;
        Ok(())
    }

    /// The numbers of these clauses, ascending from 0 on; none, where it wasn't looked for them.
    pub(crate) fn suspects(&self) -> &[usize] {
        &self.suspects
    }

    fn put_of(
        &mut self,
        alloc: Global,
        defined: &Defined,
        suspects: &[usize],
    ) -> Result<(), Memory> {
        let counts = LiteralCounts::new(alloc, defined, suspects)?;
        self.put_each(alloc, defined, suspects, &counts)
    }

    fn put_each(
        &mut self,
        alloc: Global,
        defined: &Defined,
        suspects: &[usize],
        counts: &LiteralCounts,
    ) -> Result<(), Memory> {
        for number in suspects.iter().rev() {
            if self.sets.len() >= MOST_SETS {
                return Ok(());
            }
            if *number < defined.f.clauses() {
                self.put(conditions_of(alloc, defined, counts, defined.f.clause(*number))?)?;
            }
        }
        Ok(())
    }

    // Puts a set that isn't empty and isn't there.
    fn put(&mut self, set: Vec<Lit>) -> Result<(), Memory> {
        if !set.is_empty() && !has_set(&self.sets, &set) {
            self.sets.push(set)?;
        }
        Ok(())
    }
}

// How many clauses have each literal on an existential, by place and sign.
#[derive(Drop)]
struct LiteralCounts {
    counts: Vec<u32>,
}

impl LiteralCounts {
    fn new(alloc: Global, defined: &Defined, suspects: &[usize]) -> Result<LiteralCounts, Memory> {
        let places = defined.nodes.len().saturating_mul(2);
        let mut counts = LiteralCounts {
            counts: vec![in alloc; 0u32; places]?,
        };
        for number in suspects {
            if *number < defined.f.clauses() {
                counts.add_all(defined, defined.f.clause(*number));
            }
        }
        Ok(counts)
    }

    fn add_all(&mut self, defined: &Defined, clause: &[Lit]) {
        for l in clause {
            if let Some(slot) = slot(defined, *l) {
                if slot < self.counts.len() {
                    self.counts[slot] = self.counts[slot].saturating_add(1);
                }
            }
        }
    }

    // Whether a literal is on a defined existential and shared.
    fn is_shared(&self, defined: &Defined, l: Lit) -> bool {
        if let None = defined.node_of(l.var()) {
            return false;
        }
        match slot(defined, l) {
            Some(slot) => match self.counts.get(slot) {
                Some(count) => *count >= FEWEST,
                None => false,
            },
            None => false,
        }
    }
}

fn slot(defined: &Defined, l: Lit) -> Option<usize> {
    match defined.f.existential_place(l.var()) {
        Some(place) => {
            let first = place.saturating_mul(2);
            Some(if l.is_neg() {
                first.saturating_add(1)
            } else {
                first
            })
        }
        None => None,
    }
}

// The conditions that a clause gives: that the literals on defined existentials are false which it
// shares with others. Where it shares none, as that of a circuit with one output does, they are
// those on defined existentials but for the one that is declared last, which tells whether the
// outputs agree.
fn conditions_of(
    alloc: Global,
    defined: &Defined,
    counts: &LiteralCounts,
    clause: &[Lit],
) -> Result<Vec<Lit>, Memory> {
    let shared = shared_literals(alloc, defined, counts, clause)?;
    if shared.is_empty() {
        return earlier_literals(alloc, defined, clause);
    }
    Ok(shared)
}

// The negations of a clause's literals on defined existentials that aren't declared last of its own;
// none where they are too many.
fn earlier_literals(alloc: Global, defined: &Defined, clause: &[Lit]) -> Result<Vec<Lit>, Memory> {
    let last = last_place(defined, clause);
    let mut set = Vec::new(alloc);
    if clause.len() > MOST_CONDITIONS {
        return Ok(set);
    }
    for l in clause {
        if let Some(place) = defined.f.existential_place(l.var()) {
            if place < last && defined.node_of(l.var()).is_some() {
                set.push(l.not())?;
            }
        }
    }
    Ok(set)
}

// The largest place of an existential of a clause, in order of declaration; 0 where it has none.
fn last_place(defined: &Defined, clause: &[Lit]) -> usize {
    let mut last = 0;
    for l in clause {
        if let Some(place) = defined.f.existential_place(l.var()) {
            last = last.max(place);
        }
    }
    last
}

// The negations of the shared literals of a clause; none where they are too many.
fn shared_literals(
    alloc: Global,
    defined: &Defined,
    counts: &LiteralCounts,
    clause: &[Lit],
) -> Result<Vec<Lit>, Memory> {
    let mut set = Vec::new(alloc);
    for l in clause {
        if counts.is_shared(defined, *l) {
            if set.len() >= MOST_CONDITIONS {
                set.clear();
                return Ok(set);
            }
            set.push(l.not())?;
        }
    }
    Ok(set)
}

fn has_set(sets: &[Vec<Lit>], set: &[Lit]) -> bool {
    for other in sets {
        if other.as_slice() == set {
            return true;
        }
    }
    false
}
