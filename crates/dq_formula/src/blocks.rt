//! Clauses in blocks that don't move, so that growth copies no literal.
//!
//! A clause lies within one block, and a block is at least as large as the clause that begins it.
//! So what is left unused at a block's end is less than the clause that begins the next block: in
//! all blocks but the last less than there are literals.
//!
//! Where clauses begin is one vector that grows by an eighth, so that little more than twice its 8
//! bytes a clause is held while it is copied. Blocks of equal numbers of clauses would have no
//! bound for long ones.

ghost use Rattle.std.specs.Prelude.{◌≡◌, ◌≤◌, ◌<◌, ◌+◌, ℕ, true, ◌∷◌, [], length, map, drop, slice_index_or, OnOk, vec_capacity};
ghost use Rattle.dq_formula.specs.Blocks.{block_at, end_of, clauses_of, blocks_of, AreArranged, HasRoom, ArePut};

use crate::formula::MAX_CLAUSES;
use dq_lits::{Lit, Memory};
use std::alloc::Global;
use std::mem;

// How many literals a block has room for where no clause asks for more: 64 KiB.
const BLOCK: usize = 8192;

// No clause begins behind so many literals of a block.
const MOST_BEFORE: usize = 0x8000_0000;

// Where a clause begins: in which block, and behind how many of its literals.
#[derive(Clone, Copy)]
pub(crate) struct Place {
    block: u32,
    start: u32,
}

// Clauses, in order. It takes no memory while there are none.
#[derive(Drop)]
pub(crate) struct Blocks {
    // Where each clause begins; it ends where the next one begins in its block, or with the block.
    places: Vec<Place>,
    full: Vec<Vec<Lit>>,
    // The block that is being filled, behind the full ones.
    current: Vec<Lit>,
}

impl Blocks {
    pub(crate) fn new(alloc: Global) -> Blocks
        ensures clauses { clauses_of result ≡ [] }
        ensures arranged { AreArranged result }
    {
        Blocks {
            places: Vec::new(alloc),
            full: Vec::new(alloc),
            current: Vec::new(alloc),
        }
    }

    pub(crate) fn len(&self) -> usize
        ensures { result ≡ length (clauses_of self.now) }
    {
        self.places.len()
    }

    pub(crate) fn alloc(&self) -> Global {
        *self.places.allocator()
    }

    // The clause at `j`.
    #[tactic(auto, using(crate::proofs::ClauseBlocks::length_clauses_at, crate::proofs::ClauseBlocks::lies_within))]
    pub(crate) fn clause(&self, j: usize) -> &[Lit]
        requires within { j < length (clauses_of self.now) }
        requires arranged { AreArranged self.now }
        ensures { result.now ≡ slice_index_or (clauses_of self.now) j [] }
    {
        let places: &[Place] = &self.places;
        let place = places[j];
        let block = self.block(place.block as usize);
        let end = end_of(block, place, &places[j + 1..]);
        &block[place.start as usize..end]
    }

    // The literals of a block.
    fn block(&self, at: usize) -> &[Lit]
        requires { at < length (blocks_of self.now) }
        ensures { result.now ≡ block_at (blocks_of self.now) at }
    {
        match self.full.get(at) {
            Some(block) => block,
            None => &self.current,
        }
    }

    // Makes room for so many clauses, with so many literals in all. The clauses stay.
    #[inline(always)]
    pub(crate) fn make_room(&mut self, clauses: usize, literals: usize) -> Result<(), Memory>
        requires arranged { AreArranged self.old }
        ensures same { clauses_of self.new ≡ clauses_of self.old }
        ensures arranged { AreArranged self.new }
        ensures room { OnOk result
            ((before : ℕ) → before < MOST_BEFORE → HasRoom self.new clauses literals before) }
    {
        reserve_places(&mut self.places, clauses)?;
        if !has_room(&self.current, literals) {
            self.open(literals)?;
        }
        Ok(())
    }

    // Begins a block for so many literals, unless nothing stands in the current one: then this is
    // made as large.
    #[inline(never)]
    fn open(&mut self, literals: usize) -> Result<(), Memory>
        requires arranged { AreArranged self.old }
        ensures same { clauses_of self.new ≡ clauses_of self.old }
        ensures arranged { AreArranged self.new }
        ensures places { self.new.places ≡ self.old.places }
        ensures empty { OnOk result (self.new.current.items ≡ []) }
        ensures room { OnOk result (literals ≤ vec_capacity self.new.current) }
    {
        let size = literals.max(BLOCK);
        if self.current.is_empty() {
            self.current.reserve_exact(size)?;
            return Ok(());
        }
        self.full.reserve(1)?;
        let block = Vec::with_capacity(self.alloc(), size)?;
        let last = mem::replace(&mut self.current, block);
        self.full.push(last).unwrap();
        Ok(())
    }

    // Puts a clause behind the others, where there is room for it.
    #[inline(always)]
    pub(crate) fn put(&mut self, clause: &[Lit])
        requires arranged { AreArranged self.old }
        requires few { length (clauses_of self.old) < MAX_CLAUSES }
        requires room { HasRoom self.old 1 (length clause.now) 0 }
        ensures { ArePut self.old self.new (clause.now ∷ []) (length clause.now) }
    {
        let place = Place {
            block: self.full.len() as u32,
            start: self.current.len() as u32,
        };
        self.places.push(place).unwrap();
        self.current.extend_from_slice(clause).unwrap();
    }
}

// Where the clause at a place in this block ends.
fn end_of(block: &[Lit], place: Place, later: &[Place]) -> usize
    ensures { result ≡ end_of block.now place later.now }
{
    let Some(next) = later.first() else {
        return block.len();
    };
    if next.block == place.block {
        next.start as usize
    } else {
        block.len()
    }
}

// Whether a block has room for so many literals more, and a clause may begin there.
fn has_room(block: &Vec<Lit>, literals: usize) -> bool
    ensures { result ≡ true → (length block.now.items ≤ MOST_BEFORE)
        × (length block.now.items + literals ≤ vec_capacity block.now) }
{
    literals <= block.capacity() - block.len() && block.len() <= MOST_BEFORE
}

// Makes room for so many places. It grows by an eighth, so that little more is held than is needed
// while they are copied.
#[inline(always)]
fn reserve_places(places: &mut Vec<Place>, more: usize) -> Result<(), Memory>
    ensures same { places.new.items ≡ places.old.items }
    ensures room { OnOk result (length places.new.items + more ≤ vec_capacity places.new) }
{
    if more > places.capacity() - places.len() {
        return grow_places(places, more);
    }
    Ok(())
}

// The same where there is none. What calls it is to stay small.
#[inline(never)]
fn grow_places(places: &mut Vec<Place>, more: usize) -> Result<(), Memory>
    ensures same { places.new.items ≡ places.old.items }
    ensures room { OnOk result (length places.new.items + more ≤ vec_capacity places.new) }
{
    let eighth = places.len() / 8;
    places.reserve_exact(more.max(eighth))?;
    Ok(())
}
