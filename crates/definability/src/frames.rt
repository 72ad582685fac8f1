//! Which clauses of a session have copies, and the groups of each frame's copies.

ghost use Rattle.std.specs.Prelude.{◌≡◌, ◌⊎◌, ◌≤◌, ◌<◌, ◌-◌, ◌++◌, ℕ, List, length, replicate, OnOk, None, Some, slice_get, slice_index_or};
ghost use Rattle.dq_lits.specs.Formula.{Dqbf};
ghost use Rattle.definability.specs.Following.{IsFollowing, CanGiveCopies};
ghost use Rattle.definability.specs.Store.{side_group, store_of};
ghost use Rattle.definability.specs.declared.frames.Sides.{Sides as SidesValue};

use crate::definability::Definability;
use dq_lits::Memory;
use hint_log::Log;
use oracle::{Group, Oracle};

/// The groups of a frame's clauses on both sides.
#[derive(Clone, Copy)]
pub(crate) struct Sides {
    pub first: Group,
    pub second: Group,
}

impl Sides {
    /// The group on a side.
    pub(crate) fn side(&self, side: u8) -> Group
        requires { (side ≡ 1) ⊎ (side ≡ 2) }
        ensures { side_group side self.now ≡ Some result }
    {
        if side == 1 { self.first } else { self.second }
    }
}

impl Definability {
    /// On how many sides a clause was given.
    pub(crate) fn sides_of(&self, number: u64) -> u8
        requires { 1 ≤ number }
        ensures { result ≡ slice_index_or self.now.given.items (number - 1) 0 }
    {
        match self.given.get(number as usize - 1) {
            Some(sides) => *sides,
            None => 0,
        }
    }

    /// Makes room for a clause, by its number, and for a frame.
    pub(crate) fn make_room(&mut self, number: u64, frame: u64) -> Result<(), Memory>
        ensures same { self.new ≡ record self.old {
          given = self.new.given;
          frames = self.new.frames;
        } }
        ensures given { (n : ℕ) × (self.new.given.items ≡ self.old.given.items ++ replicate n 0) }
        ensures frames { (n : ℕ) × (self.new.frames.items
            ≡ self.old.frames.items ++ replicate n None) }
        ensures clause { OnOk result (number ≤ length self.new.given.items) }
        ensures frame { OnOk result (frame < length self.new.frames.items) }
    {
        add_zeros(&mut self.given, number as usize)?;
        add_empty(&mut self.frames, frame as usize)?;
        Ok(())
    }

    /// Makes a frame's groups, where it has none.
    pub(crate) fn open_frame<O: Oracle>(
        &mut self,
        oracle: &mut O,
        frame: u64,
        log: &mut Log,
    ) -> Result<(), Memory>
        requires fit { O.Fits oracle.old log.old }
        requires frame { frame < length self.old.frames.items }
        ensures fit { O.Fits oracle.new log.new }
        ensures following { (all : Dqbf) (numbered : List ℕ) (f : Dqbf)
            → CanGiveCopies all numbered f (store_of self.old) log.old.entries
            → IsFollowing all numbered (store_of self.old) log.old (store_of self.new) log.new }
        ensures same { self.new ≡ record self.old { frames = self.new.frames } }
        ensures long { length self.new.frames.items ≡ length self.old.frames.items }
        ensures opened { OnOk result ((sides : SidesValue)
            × (slice_get self.new.frames.items frame ≡ Some (Some sides))) }
    {
        let place = frame as usize;
        if self.frames[place].is_some() {
            return Ok(());
        }
        let who = oracle.tenant()?;
        let first = oracle.group(&who, log)?;
        let second = oracle.group(&who, log)?;
        self.frames[place] = Some(Sides { first, second });
        Ok(())
    }
}

// Makes a list of numbers at least so long.
fn add_zeros(given: &mut Vec<u8>, wanted: usize) -> Result<(), Memory>
    ensures more { (n : ℕ) × (given.new.items ≡ given.old.items ++ replicate n 0) }
    ensures long { OnOk result (wanted ≤ length given.new.items) }
{
    for _ in given.len()..wanted {
        given.push(0)?;
    }
    Ok(())
}

// Makes a list of frames' groups longer than this.
fn add_empty(frames: &mut Vec<Option<Sides>>, place: usize) -> Result<(), Memory>
    ensures more { (n : ℕ) × (frames.new.items ≡ frames.old.items ++ replicate n None) }
    ensures long { OnOk result (place < length frames.new.items) }
{
    for _ in frames.len()..place {
        frames.push(None)?;
    }
    if frames.len() == place {
        frames.push(None)?;
    }
    Ok(())
}
