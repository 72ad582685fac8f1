//! Values that make the matrix true, in which existentials are turned one after another.

use crate::occurrences::Occurrences;
use dq_formula::Formula;
use dq_lits::{Lit, Memory, Row};
use std::alloc::Global;

/// A row with values of the existentials. No contract says that they make the matrix true: whoever
/// takes them asks less for it.
#[derive(Drop)]
pub(crate) struct Sample {
    values: Vec<bool>,
    // How many literals of each clause are true.
    trues: Vec<u32>,
}

impl Sample {
    /// The sample of a row and values. It takes time and memory by the matrix.
    pub(crate) fn new(
        alloc: Global,
        f: &Formula,
        row: &Row,
        values: Vec<bool>,
    ) -> Result<Sample, Memory> {
        let mut trues = Vec::new(alloc);
        for number in 0..f.clauses() {
            trues.push(count_true(f, f.clause(number), row, &values))?;
        }
        Ok(Sample { values, trues })
    }

    /// The bit of the existential at a place.
    pub(crate) fn bit(&self, place: usize) -> bool {
        bit_at(&self.values, place)
    }

    /// Whether no clause needs the bit of the existential at a place: it can be turned alone.
    pub(crate) fn is_loose(&self, occurrences: &Occurrences, place: usize) -> bool {
        for number in occurrences.with(place, self.bit(place)) {
            if self.count(*number) < 2 {
                return false;
            }
        }
        true
    }

    /// How many clauses need the bit of the existential at a place.
    pub(crate) fn needs(&self, occurrences: &Occurrences, place: usize) -> usize {
        let mut needs = 0usize;
        for number in occurrences.with(place, self.bit(place)) {
            if self.count(*number) < 2 {
                needs = needs.saturating_add(1);
            }
        }
        needs
    }

    /// How many literals of a clause are true.
    pub(crate) fn count(&self, number: u32) -> u32 {
        match self.trues.get(number as usize) {
            Some(count) => *count,
            None => 0,
        }
    }

    /// Gives the existential at a place the other bit.
    pub(crate) fn turn(&mut self, occurrences: &Occurrences, place: usize) {
        let bit = self.bit(place);
        for number in occurrences.with(place, bit) {
            self.count_down(*number);
        }
        for number in occurrences.with(place, !bit) {
            self.count_up(*number);
        }
        if place < self.values.len() {
            self.values[place] = !bit;
        }
    }

    fn count_down(&mut self, number: u32) {
        let at = number as usize;
        if at < self.trues.len() {
            self.trues[at] = self.trues[at].saturating_sub(1);
        }
    }

    fn count_up(&mut self, number: u32) {
        let at = number as usize;
        if at < self.trues.len() {
            self.trues[at] = self.trues[at].saturating_add(1);
        }
    }
}

/// The bits of a row.
pub(crate) fn bits_of(alloc: Global, row: &Row) -> Result<Vec<bool>, Memory> {
    let mut bits = Vec::new(alloc);
    for place in 0..row.len() {
        bits.push(row.get(place))?;
    }
    Ok(bits)
}

fn count_true(f: &Formula, clause: &[Lit], row: &Row, values: &[bool]) -> u32 {
    let mut count = 0u32;
    for l in clause {
        if variable_bit(f, l.var(), row, values) != l.is_neg() {
            count = count.saturating_add(1);
        }
    }
    count
}

fn variable_bit(f: &Formula, v: u64, row: &Row, values: &[bool]) -> bool {
    if let Some(place) = f.universal_place(v) {
        return place < row.len() && row.get(place);
    }
    match f.existential_place(v) {
        Some(place) => bit_at(values, place),
        None => false,
    }
}

fn bit_at(bits: &[bool], place: usize) -> bool {
    place < bits.len() && bits[place]
}
