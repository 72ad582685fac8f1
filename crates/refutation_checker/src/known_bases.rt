//! Names of pairs by blocks of rows, so that a name is found without a walk.
//!
//! Names are kept by dependency set and block of 16 rows, so that a pair that occurred is one look-
//! up.

ghost use Rattle.std.specs.Prelude.{◌≡◌, ◌*◌, ◌+◌, ◌<◌, ◌++◌, ◌∷◌, [], length, replicate, OnOk, OnErr, IfOk, Some};
ghost use Rattle.number_tables.specs.Numbers.{place_of};
ghost use Rattle.refutation_checker.specs.KnownBases.{kept, AreSameKept, IsKeptOrNew};

use dq_lits::Memory;
use number_tables::NumberSet;
use std::alloc::Global;

// How many rows a block has. In larger ones a row that occurs alone takes more memory; in smaller
// ones rows that occur together do.
pub(crate) const BLOCK_ROWS: usize = 16;

/// The names of the first existentials' pairs, for some dependency sets and blocks of rows.
#[derive(Drop)]
pub(crate) struct KnownBases {
    numbers: NumberSet,
    // A name for each row of a block, 0 where none is kept.
    bases: Vec<u32>,
}

impl KnownBases {
    /// Nothing is kept. It takes no memory.
    pub(crate) fn new(alloc: Global) -> KnownBases
        ensures numbers { result.numbers ≡ [] }
        ensures bases { result.bases.items ≡ [] }
    {
        KnownBases {
            numbers: NumberSet::new(alloc),
            bases: Vec::new(alloc),
        }
    }

    /// What is kept for a place of a block; 0 where nothing is.
    #[inline(always)]
    pub(crate) fn get(&self, number: u64, place: usize) -> u64
        requires place { place < 16 }
        requires as_many { length self.now.bases.items ≡ length self.now.numbers * 16 }
        ensures { result ≡ kept self.now.numbers self.now.bases.items number place }
    {
        match self.numbers.place(number) {
            None => 0,
            Some(block) => self.bases[block * BLOCK_ROWS + place] as u64,
        }
    }

    /// Keeps a name, unless it is too large to be kept.
    pub(crate) fn put(&mut self, number: u64, place: usize, base: u64) -> Result<(), Memory>
        requires place { place < 16 }
        requires as_many { length self.old.bases.items ≡ length self.old.numbers * 16 }
        ensures as_many { length self.new.bases.items ≡ length self.new.numbers * 16 }
        ensures kept { IsKeptOrNew self.old.numbers self.old.bases.items self.new.numbers
            self.new.bases.items number place base }
    {
        if base > u32::MAX as u64 {
            return Ok(());
        }
        let block = self.block(number)?;
        self.bases[block * BLOCK_ROWS + place] = base as u32;
        Ok(())
    }

    // The place of a block, which is a new one where there is none.
    fn block(&mut self, number: u64) -> Result<usize, Memory>
        requires as_many { length self.old.bases.items ≡ length self.old.numbers * 16 }
        ensures as_many { length self.new.bases.items ≡ length self.new.numbers * 16 }
        ensures place { IfOk result (λ block. place_of self.new.numbers number ≡ Some block) }
        ensures within { IfOk result (λ block. block < length self.new.numbers) }
        ensures same { AreSameKept self.old.numbers self.old.bases.items self.new.numbers
            self.new.bases.items }
    {
        if let Some(block) = self.numbers.place(number) {
            return Ok(block);
        }
        let block = self.numbers.len();
        add_zeros(&mut self.bases)?;
        match self.numbers.insert(number) {
            Ok(_) => Ok(block),
            Err(Memory) => {
                self.bases.truncate(block * BLOCK_ROWS);
                Err(Memory)
            }
        }
    }
}

fn add_zeros(bases: &mut Vec<u32>) -> Result<(), Memory>
    ensures ok { OnOk result (bases.new.items ≡ bases.old.items ++ replicate 16 0) }
    ensures err { OnErr result (bases.new.items ≡ bases.old.items) }
{
    bases.resize(bases.len() + BLOCK_ROWS, 0)?;
    Ok(())
}
