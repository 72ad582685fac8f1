//! Rows of bits, 64 to a word.
//!
//! Rows are packed, 64 bits a word, behind a contract that sees a list of bits: searches keep them
//! by the thousand.

ghost use Rattle.std.specs.Prelude.{◌≡◌, ◌≢◌, ◌==◌, ◌<◌, ℕ, false, length, replicate, IfOk, slice_set};
ghost use Rattle.std.specs.Int.{bit_at};
ghost use Rattle.dq_lits.specs.Row.{bit_of};

use crate::memory::Memory;
use std::alloc::Global;
use std::marker::Model;

const WORD_BITS: usize = 64;

/// A row of bits, by place from 0. It takes a bit of memory for each.
#[derive(Drop)]
pub struct Row {
    len: usize,
    words: Vec<u64>,
}

impl Model for Row {
    ghost use Rattle.std.specs.Prelude.{List, Bool};

    ghost Value = { List Bool };

    ghost use Rattle.dq_lits.specs.PackedRow.{row_inside, HasRoom};

    ghost view = { row_inside };

    ghost invariant = { HasRoom };
}

impl Row {
    /// `n` bits, all false.
    pub fn new(alloc: Global, n: usize) -> Result<Row, Memory>
        ensures { IfOk result (λ row. row ≡ replicate n false) }
    {
        let words = vec![in alloc; 0u64; n.div_ceil(WORD_BITS)]?;
        Ok(Row { len: n, words })
    }

    /// A row of its own with the same bits.
    pub fn copy(&self) -> Result<Row, Memory>
        ensures { IfOk result (λ row. row ≡ self.now) }
    {
        Ok(Row {
            len: self.len,
            words: self.words.clone()?,
        })
    }

    /// How many bits there are.
    pub fn len(&self) -> usize
        ensures { result ≡ length self.now }
    {
        self.len
    }

    /// The bit at place `i`.
    pub fn get(&self, i: usize) -> bool
        requires { i < length self.now }
        ensures { result ≡ bit_of self.now i }
    {
        (self.words[i / WORD_BITS] >> (i % WORD_BITS)) % 2 == 1
    }

    /// Writes the bit at place `i`; the others stay.
    pub fn set(&mut self, i: usize, b: bool)
        requires { i < length self.old }
        ensures { self.new ≡ slice_set self.old i b }
    {
        let at = i / WORD_BITS;
        self.words[at] = with_bit(self.words[at], i % WORD_BITS, b);
    }
}

/// The word with this bit at place `k`.
fn with_bit(word: u64, k: usize, b: bool) -> u64
    requires { k < 64 }
    ensures here { (bit_at result k == 1) ≡ b }
    ensures others { (j : ℕ) → j < 64 → j ≢ k → bit_at result j ≡ bit_at word j }
{
    let mask = 1u64 << k;
    if b { word | mask } else { word & !mask }
}
