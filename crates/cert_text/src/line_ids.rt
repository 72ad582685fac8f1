//! Which lines of a proof may be deleted.

ghost use Rattle.std.specs.Prelude.{◌≡◌, ◌+◌, ◌<◌, ◌^◌, length, false, MatchOption, IsTrue, OnOk};
ghost use Rattle.cert_text.specs.LineIds.{numbering};
ghost use Rattle.cert_text.specs.Numbering.{numbered_from, are_live, with_next, without, without_all};

use crate::live_lines::LiveLines;
use dq_lits::Memory;
use std::alloc::Global;

/// The ids of the lines that were read, from the first one's on, with a mark for each line that
/// wasn't deleted. So a test takes the same time however many lines and deletions there are.
#[derive(Drop)]
pub struct LineIds {
    pub first: u128,
    pub live: LiveLines,
}

impl LineIds {
    /// No line yet. It takes no memory.
    pub fn new(alloc: Global, first: u128) -> LineIds
        ensures numbering { numbering result ≡ numbered_from first }
        ensures first { result.first ≡ first }
    {
        LineIds {
            first,
            live: LiveLines::new(alloc),
        }
    }

    /// The id of the next line.
    pub fn next(&self) -> u128
        requires { self.now.first < 2 ^ 127 }
        ensures { result ≡ (numbering self.now).next }
    {
        self.first + self.live.len()
    }

    /// One line more.
    #[inline(always)]
    pub fn push(&mut self) -> Result<(), Memory>
        ensures numbering { OnOk result (numbering self.new ≡ with_next (numbering self.old)) }
        ensures first { self.new.first ≡ self.old.first }
    {
        self.live.push()
    }

    /// Deletes ids one by one, up to the first that isn't live: whether all of them were.
    pub fn delete_all(&mut self, ids: &[u64]) -> bool
        ensures live { result ≡ are_live (numbering self.old) ids.now }
        ensures numbering { IsTrue result
            → numbering self.new ≡ without_all (numbering self.old) ids.now }
        ensures first { self.new.first ≡ self.old.first }
    {
        let mut rest = ids;
        while let Some((id, behind)) = rest.split_first() {
            if !self.delete(*id) {
                return false;
            }
            rest = behind;
        }
        true
    }

    // Deletes an id, if it is live: whether it was.
    fn delete(&mut self, id: u64) -> bool
        ensures live { result ≡ (numbering self.old).live id }
        ensures numbering { IsTrue result
            → numbering self.new ≡ without (numbering self.old) id }
        ensures first { self.new.first ≡ self.old.first }
    {
        let Some(place) = self.place(id) else {
            return false;
        };
        let was_live = self.live.get(place);
        self.live.clear(place);
        was_live
    }

    // The place of an id's mark.
    fn place(&self, id: u64) -> Option<u128>
        ensures { MatchOption result ((numbering self.now).live id ≡ false)
            (λ place. (place < length self.now.live) × (id ≡ self.now.first + place)) }
    {
        if (id as u128) < self.first {
            return None;
        }
        let place = id as u128 - self.first;
        if place < self.live.len() {
            Some(place)
        } else {
            None
        }
    }
}
