//! Which of the lines that were read weren't deleted.
//!
//! A bit for each line, in rows of 4,096 that never move, so that no growth holds the bits twice.

ghost use Rattle.std.specs.Prelude.{◌≡◌, ◌<◌, ◌≤◌, ◌*◌, ◌^◌, ◌++◌, ◌∷◌, [], true, false, length, slice_index_or, slice_set, OnOk, OnErr};
ghost use Rattle.std.specs.List.{All};
ghost use Rattle.cert_text.specs.Marks.{IsBlock, mark_among, AreSameBelow, SetsMark};

use dq_lits::{Memory, Row};
use std::alloc::Global;
use std::marker::Model;

/// How many lines there are to a block of marks.
pub(crate) const BLOCK: u128 = 4096;

/// Which of the lines that were read weren't deleted, by their places from 0 on. Each takes a bit
/// of memory.
#[derive(Drop)]
pub struct LiveLines {
    // The marks of the lines, in blocks. Those behind the last line say nothing.
    blocks: Vec<Row>,
    count: u128,
}

impl Model for LiveLines {
    ghost use Rattle.std.specs.Prelude.{List, Bool};

    ghost Value = { List Bool };

    ghost use Rattle.cert_text.specs.LiveLinesInside.{marks_in, AreMarks};

    ghost view = { marks_in };

    ghost invariant = { AreMarks };
}

// Makes room for one mark behind so many.
fn make_room(blocks: &mut Vec<Row>, count: u128) -> Result<(), Memory>
    requires are { All IsBlock blocks.old.items }
    requires within { count ≤ length blocks.old.items * BLOCK }
    ensures are { All IsBlock blocks.new.items }
    ensures longer { length blocks.old.items ≤ length blocks.new.items }
    ensures room { OnOk result (count < length blocks.new.items * BLOCK) }
    ensures same { AreSameBelow count (mark_among blocks.old.items) (mark_among blocks.new.items) }
{
    if ((count / BLOCK) as usize) < blocks.len() {
        return Ok(());
    }
    let block = Row::new(*blocks.allocator(), BLOCK as usize)?;
    blocks.push(block)?;
    Ok(())
}

// Writes the mark at a place.
#[inline(always)]
fn set_mark(blocks: &mut Vec<Row>, place: u128, mark: bool)
    requires are { All IsBlock blocks.old.items }
    requires within { place < length blocks.old.items * BLOCK }
    ensures are { All IsBlock blocks.new.items }
    ensures as_many { length blocks.new.items ≡ length blocks.old.items }
    ensures sets { SetsMark (mark_among blocks.old.items) (mark_among blocks.new.items) place mark }
{
    blocks[(place / BLOCK) as usize].set((place % BLOCK) as usize, mark);
}

impl LiveLines {
    /// No line. It takes no memory.
    pub fn new(alloc: Global) -> LiveLines
        ensures { result ≡ [] }
    {
        LiveLines {
            blocks: Vec::new(alloc),
            count: 0,
        }
    }

    /// How many lines there are, live or not.
    pub fn len(&self) -> u128
        ensures count { result ≡ length self.now }
        ensures far { result < 2 ^ 76 }
    {
        self.count
    }

    /// Whether the line at a place wasn't deleted.
    pub fn get(&self, place: u128) -> bool
        requires { place < length self.now }
        ensures { result ≡ slice_index_or self.now place false }
    {
        self.blocks[(place / BLOCK) as usize].get((place % BLOCK) as usize)
    }

    /// One live line more. The only error is want of memory, and then nothing changed.
    #[inline(always)]
    pub fn push(&mut self) -> Result<(), Memory>
        ensures ok { OnOk result (self.new ≡ self.old ++ true ∷ []) }
        ensures err { OnErr result (self.new ≡ self.old) }
    {
        make_room(&mut self.blocks, self.count)?;
        set_mark(&mut self.blocks, self.count, true);
        self.count += 1;
        Ok(())
    }

    /// Deletes the line at a place.
    pub fn clear(&mut self, place: u128)
        requires { place < length self.old }
        ensures { self.new ≡ slice_set self.old place false }
    {
        set_mark(&mut self.blocks, place, false);
    }
}
