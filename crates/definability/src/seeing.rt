//! Where the variables stand that an existential sees, or that its definition may read, and which of
//! them have copies.

ghost use Rattle.std.specs.Prelude.{◌≡◌, ◌<◌, ◌+◌, ◌++◌, Contains, IsSome, IfOk, OnOk, Some, length, map, slice_get};
ghost use Rattle.std.specs.List.{All};
ghost use Rattle.definition_order.specs.Order.{MayRead};
ghost use Rattle.dq_lits.specs.Formula.{Existential, declared, existential_of};
ghost use Rattle.std.specs.List.{filter};
ghost use Rattle.definability.specs.Copies.{is_copied_at};
ghost use Rattle.definability.specs.Seeing.{ArePlaces, AreCopiedPlaces};

use crate::copies::is_copied;
use crate::definability::Definability;
use definition_order::shared_existentials;
use dq_formula::Formula;
use dq_lits::Memory;
use std::alloc::Global;

/// How many variables are declared.
pub(crate) fn declared_count(f: &Formula) -> usize
    ensures { result ≡ length (declared f.now) }
{
    f.every_formula_is_lawful();
    f.universals().len() + f.existentials().len()
}

/// The variable at a place, universals first.
pub(crate) fn declared_at(f: &Formula, place: usize) -> u64
    requires { place < length (declared f.now) }
    ensures { slice_get (declared f.now) place ≡ Some result }
{
    let universals = f.universals();
    if place < universals.len() {
        universals[place]
    } else {
        f.existentials()[place - universals.len()]
    }
}

impl Definability {
    /// The places of the variables with copies that a definition of an existential may read,
    /// universals first.
    pub(crate) fn shared_copies(
        &self,
        f: &Formula,
        ranks: &[usize],
        y: u64,
    ) -> Result<Vec<usize>, Memory>
        requires declared { IsSome (existential_of f.now y) }
        ensures { (e : Existential) → existential_of f.now y ≡ Some e
            → IfOk result (λ places. AreCopiedPlaces (declared f.now) (MayRead f.now ranks.now e)
            self.now.copied.items places.items) }
    {
        let all = shared_places(self.alloc, f, ranks, y)?;
        let places = copied_places(self.alloc, &self.copied, &all)?;
        Ok(places)
    }

    /// The places of the universals with copies that an existential sees.
    pub(crate) fn seen_copies(&self, f: &Formula, y: u64) -> Result<Vec<usize>, Memory>
        requires declared { IsSome (existential_of f.now y) }
        ensures { (e : Existential) → existential_of f.now y ≡ Some e
            → IfOk result (λ places. AreCopiedPlaces f.now.universals (Contains e.sees)
            self.now.copied.items places.items) }
    {
        let all = seen_places(self.alloc, f, y)?;
        let places = copied_places(self.alloc, &self.copied, &all)?;
        Ok(places)
    }
}

// Those of these places whose variables have copies.
fn copied_places(alloc: Global, flags: &[bool], places: &[usize]) -> Result<Vec<usize>, Memory>
    ensures { IfOk result (λ kept. kept.items ≡ filter (is_copied_at flags.now) places.now) }
{
    let mut kept = Vec::new(alloc);
    for place in places {
        if is_copied(flags, *place) {
            kept.push(*place)?;
        }
    }
    Ok(kept)
}

// The places of the variables that a definition of an existential may read, universals first.
fn shared_places(alloc: Global, f: &Formula, ranks: &[usize], y: u64) -> Result<Vec<usize>, Memory>
    requires declared { IsSome (existential_of f.now y) }
    ensures { (e : Existential) → existential_of f.now y ≡ Some e
        → IfOk result (λ places. ArePlaces (declared f.now) (MayRead f.now ranks.now e)
        places.items) }
{
    f.every_formula_is_lawful();
    let mut places = seen_places(alloc, f, y)?;
    let shared = shared_existentials(alloc, f, ranks, y)?;
    push_existentials(&mut places, f, &shared)?;
    Ok(places)
}

// Puts the places of existentials behind others, as places of declared variables.
fn push_existentials(places: &mut Vec<usize>, f: &Formula, more: &[usize]) -> Result<(), Memory>
    requires { All (λ k. k < length f.now.existentials) more.now }
    ensures { OnOk result
        (places.new.items ≡ places.old.items ++ map (λ k. length f.now.universals + k) more.now) }
{
    f.every_formula_is_lawful();
    let first = f.universals().len();
    for place in more {
        places.push(first + *place)?;
    }
    Ok(())
}

// The places of the universals that an existential sees.
fn seen_places(alloc: Global, f: &Formula, y: u64) -> Result<Vec<usize>, Memory>
    requires declared { IsSome (existential_of f.now y) }
    ensures { (e : Existential) → existential_of f.now y ≡ Some e
        → IfOk result (λ places. ArePlaces f.now.universals (Contains e.sees) places.items) }
{
    f.every_formula_is_lawful();
    let mut places = Vec::new(alloc);
    for x in f.seen(y) {
        places.push(f.place_of(*x))?;
    }
    Ok(places)
}
