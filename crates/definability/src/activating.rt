//! The groups of the frames that are live.

ghost use Rattle.std.specs.Prelude.{◌≡◌, ◌⊎◌, ◌≤◌, ◌<◌, ◌+◌, ◌-◌, false, IfOk, OnOk, OnErr, Some, length, slice_get, slice_index_or};
ghost use Rattle.definability.specs.Following.{AreActiveGroups, AreActiveSoFar, AreOpen};
ghost use Rattle.definability.specs.Store.{side_group, store_of};
ghost use Rattle.definability.specs.declared.frames.Sides.{Sides as SidesValue};

use crate::definability::Definability;
use dq_lits::Memory;
use oracle::Group;

impl Definability {
    /// Makes the groups of these frames the active ones, which all have some. Where memory is
    /// wanting the active groups stay.
    pub(crate) fn activate(&mut self, frames: &[u64]) -> Result<(), Memory>
        requires { AreOpen (store_of self.old) frames.now }
        ensures same { self.new ≡ record self.old {
          first = record self.old.first { groups = self.new.first.groups };
          second = record self.old.second { groups = self.new.second.groups };
        } }
        ensures err { OnErr result (self.new ≡ self.old) }
        ensures first { OnOk result (AreActiveGroups (store_of self.old) 1 frames.now
            self.new.first.groups.items) }
        ensures second { OnOk result (AreActiveGroups (store_of self.old) 2 frames.now
            self.new.second.groups.items) }
    {
        let first = self.active_groups(frames, 1)?;
        let second = self.active_groups(frames, 2)?;
        self.first.groups = first;
        self.second.groups = second;
        Ok(())
    }

    // The groups of these frames on a side.
    fn active_groups(&self, frames: &[u64], side: u8) -> Result<Vec<Group>, Memory>
        requires open_frames { AreOpen (store_of self.now) frames.now }
        requires side { (side ≡ 1) ⊎ (side ≡ 2) }
        ensures { IfOk result (λ groups.
            AreActiveGroups (store_of self.now) side frames.now groups.items) }
    {
        let mut groups = Vec::new(self.alloc);
        for i in 0..frames.len() {
            self.push_group(frames, i, side, &mut groups)?;
        }
        Ok(groups)
    }

    // Puts the group of the frame at a place behind those of the frames before it, if it isn't the
    // last one's.
    fn push_group(
        &self,
        frames: &[u64],
        i: usize,
        side: u8,
        groups: &mut Vec<Group>,
    ) -> Result<(), Memory>
        requires open_frames { AreOpen (store_of self.now) frames.now }
        requires side { (side ≡ 1) ⊎ (side ≡ 2) }
        requires place { i < length frames.now }
        ensures { OnOk result (AreActiveSoFar (store_of self.now) side frames.now i groups.old.items
            → AreActiveSoFar (store_of self.now) side frames.now (i + 1) groups.new.items) }
    {
        if !begins_run(frames, i) {
            return Ok(());
        }
        groups.push(self.frame_group(frames[i], side))?;
        Ok(())
    }

    /// The group of a frame that has some, on a side.
    pub(crate) fn frame_group(&self, frame: u64, side: u8) -> Group
        requires opened { (sides : SidesValue)
            × (slice_get self.now.frames.items frame ≡ Some (Some sides)) }
        requires side { (side ≡ 1) ⊎ (side ≡ 2) }
        ensures { (sides : SidesValue) → slice_get self.now.frames.items frame ≡ Some (Some sides)
            → side_group side sides ≡ Some result }
    {
        let Some(sides) = self.frames[frame as usize] else {
            unreachable!();
        };
        sides.side(side)
    }
}

// Whether another number stands before a place, or none.
fn begins_run(frames: &[u64], i: usize) -> bool
    requires { i < length frames.now }
    ensures { result ≡ false → (1 ≤ i)
        × (slice_index_or frames.now i 0 ≡ slice_index_or frames.now (i - 1) 0) }
{
    if i == 0 {
        return true;
    }
    frames[i] != frames[i - 1]
}
