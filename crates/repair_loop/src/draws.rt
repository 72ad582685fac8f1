//! Rows that are drawn 64 at a time: the universals of which a premise says nothing have random bits,
//! or all that there are where they are few. Half of the draws are near rows that failed before, as
//! states of a plant lie near those that were reached.
//!
//! No contract speaks of it: candidates are evaluated at a row before it counts.

use crate::drawn_rows::has_bit;
use crate::premises::{FEW_UNIVERSALS, Premise};
use dq_formula::Formula;
use dq_lits::{Memory, Row};
use expansion::Table;
use std::alloc::Global;

// How often 64 rows are drawn, where not all are.
const DRAWS: usize = 32;
// How many rows stand side by side, and by how many universals they are told apart.
const ROWS: u64 = 64;

const ROW_BITS: usize = 6;
// A row is often near one of so many newest rows.
const NEWEST: u64 = 8;

/// What rows are drawn from.
#[derive(Drop)]
pub(crate) struct Draws<'t, 'p> {
    alloc: Global,
    table: &'t Table,
    pub premise: &'p Premise,
    // The universals of which the premise says nothing, by place.
    free: Vec<usize>,
    // How often 64 rows are drawn at most.
    most: usize,
    random: Random,
}

impl<'t, 'p> Draws<'t, 'p> {
    pub(crate) fn new(
        alloc: Global,
        f: &Formula,
        table: &'t Table,
        premise: &'p Premise,
        most: usize,
    ) -> Result<Draws<'t, 'p>, Memory> {
        let free = free_universals(alloc, f, premise)?;
        Ok(Draws {
            alloc,
            table,
            premise,
            free,
            most,
            random: Random::new(table.rows()),
        })
    }

    /// Whether all rows under the premise are drawn.
    pub(crate) fn are_all(&self) -> bool {
        self.free.len() <= FEW_UNIVERSALS
    }

    /// How often 64 rows are drawn.
    pub(crate) fn count(&self) -> usize {
        if !self.are_all() {
            return DRAWS.min(self.most);
        }
        let mut count = 1usize;
        for _ in ROW_BITS..self.free.len() {
            count = count.saturating_mul(2);
        }
        count.min(self.most)
    }

    /// Draws 64 rows into the words of the universals. The others are as the premise has them, or
    /// false where it says what they equal.
    pub(crate) fn draw(&mut self, number: usize, words: &mut Vec<u64>) -> Result<(), Memory> {
        for it in &self.premise.bits {
            put(words, it.place, if it.bit { u64::MAX } else { 0 });
        }
        for it in &self.premise.equalities {
            put(words, it.place, 0);
        }
        if self.are_all() {
            self.draw_all(number, words);
            Ok(())
        } else if number % 2 == 0 {
            self.draw_near(number, words)
        } else {
            self.draw_random(words);
            Ok(())
        }
    }

    // The rows of a number among all.
    fn draw_all(&self, number: usize, words: &mut Vec<u64>) {
        let mut rest = number;
        for (n, place) in self.free.iter().enumerate() {
            if n < ROW_BITS {
                put(words, *place, counting_word(n));
            } else {
                put(words, *place, if rest % 2 == 1 { u64::MAX } else { 0 });
                rest /= 2;
            }
        }
    }

    fn draw_random(&mut self, words: &mut Vec<u64>) {
        for place in &self.free {
            put(words, *place, self.random.next());
        }
    }

    // Rows of the table, with one bit of two, four or eight drawn anew.
    fn draw_near(&mut self, number: usize, words: &mut Vec<u64>) -> Result<(), Memory> {
        let rows = self.choose_rows()?;
        for place in &self.free {
            let mut mask = self.random.next();
            for _ in 0..number / 2 % 3 {
                mask &= self.random.next();
            }
            let word = word_of(self.table, &rows, *place);
            put(words, *place, word & !mask | self.random.next() & mask);
        }
        Ok(())
    }

    // 64 places of the table, half of them among its newest rows.
    fn choose_rows(&mut self) -> Result<Vec<u64>, Memory> {
        let count = self.table.rows().max(1);
        let newest = count.min(NEWEST);
        let mut rows = Vec::new(self.alloc);
        for b in 0..ROWS {
            let among = if b % 2 == 0 { newest } else { count };
            let back = self.random.next() % among.max(1);
            rows.push(count.saturating_sub(back.saturating_add(1)))?;
        }
        Ok(rows)
    }

    /// One of these rows, where there is one.
    pub(crate) fn choose(&mut self, rows: u64) -> Option<u64> {
        let first = self.random.next() % ROWS;
        for n in 0..ROWS {
            let b = (first + n) % ROWS;
            if has_bit(rows, b) {
                return Some(b);
            }
        }
        None
    }
}

fn free_universals(alloc: Global, f: &Formula, premise: &Premise) -> Result<Vec<usize>, Memory> {
    let mut bound = Row::new(alloc, f.universals().len())?;
    for it in &premise.bits {
        mark(&mut bound, it.place);
    }
    for it in &premise.equalities {
        mark(&mut bound, it.place);
    }
    let mut free = Vec::new(alloc);
    for place in 0..bound.len() {
        if !bound.get(place) {
            free.push(place)?;
        }
    }
    Ok(free)
}

fn mark(bound: &mut Row, place: usize) {
    if place < bound.len() {
        bound.set(place, true);
    }
}

fn put(words: &mut Vec<u64>, place: usize, word: u64) {
    if let Some(it) = words.get_mut(place) {
        *it = word;
    }
}

// The word whose bit b is the bit n of the number b.
fn counting_word(n: usize) -> u64 {
    match n {
        0 => 0xAAAA_AAAA_AAAA_AAAA,
        1 => 0xCCCC_CCCC_CCCC_CCCC,
        2 => 0xF0F0_F0F0_F0F0_F0F0,
        3 => 0xFF00_FF00_FF00_FF00,
        4 => 0xFFFF_0000_FFFF_0000,
        _ => 0xFFFF_FFFF_0000_0000,
    }
}

// The bits at a place in rows of a table.
fn word_of(table: &Table, rows: &[u64], place: usize) -> u64 {
    let mut word = 0u64;
    for k in rows.iter().rev() {
        word = word.wrapping_mul(2);
        if bit_at(table, *k, place) {
            word |= 1;
        }
    }
    word
}

fn bit_at(table: &Table, k: u64, place: usize) -> bool {
    if k >= table.rows() {
        return false;
    }
    let row = table.row(k + 1);
    place < row.len() && row.get(place)
}

// Bits in no order that shows, the same in each run (G. Marsaglia, "Xorshift RNGs", 2003).
#[derive(Clone, Copy)]
struct Random {
    state: u64,
}

impl Random {
    fn new(seed: u64) -> Random {
        let state = seed.wrapping_add(1).wrapping_mul(0x9E37_79B9_7F4A_7C15);
        Random { state: state | 1 }
    }

    fn next(&mut self) -> u64 {
        self.state ^= self.state << 13;
        self.state ^= self.state >> 7;
        self.state ^= self.state << 17;
        self.state.wrapping_mul(0x2545_F491_4F6C_DD1D)
    }
}
