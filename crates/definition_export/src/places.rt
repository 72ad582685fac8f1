//! Places that are still to be looked at, the greatest first.

ghost use Rattle.std.specs.Prelude.{◌≡◌, ◌==◌, ℕ, if◌then◌else◌, true, false, IfSome, IfNone, OnOk};
ghost use Rattle.definition_export.specs.Closing.{is_waiting, Takes};

use dq_lits::Memory;
use std::alloc::Global;
use std::collections::BTreeSet;

/// A set of places.
#[derive(Drop)]
pub struct PlaceSet {
    pub places: BTreeSet<usize>,
}

impl PlaceSet {
    /// No place. It takes no memory.
    pub fn new(alloc: Global) -> PlaceSet
        ensures { (p : ℕ) → is_waiting result p ≡ false }
    {
        PlaceSet {
            places: BTreeSet::new(alloc),
        }
    }

    /// Takes the greatest place out.
    pub fn pop(&mut self) -> Option<usize>
        ensures some { IfSome result (λ p. Takes self.old self.new p) }
        ensures none { IfNone result ((p : ℕ) → is_waiting self.old p ≡ false) }
    {
        self.places.pop_last()
    }

    /// Adds a place.
    pub fn insert(&mut self, place: usize) -> Result<(), Memory>
        ensures { OnOk result
            ((p : ℕ) → is_waiting self.new p
            ≡ (if place == p then true else is_waiting self.old p)) }
    {
        self.places.insert(place)?;
        Ok(())
    }
}
