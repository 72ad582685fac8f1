//! The order of the existentials by what they see and by ranks, and which of them a definition may
//! read. Whoever asks for definitions gives the ranks: any numbers make an order.
#![tactic(auto)]

ghost use Rattle.std.specs.Prelude.{◌≡◌, IfOk, IsSome, Some};
ghost use Rattle.dq_lits.specs.Formula.{Existential, existential_of};
ghost use Rattle.definition_order.specs.Order.{AreInOrder, ArePlacesOfShared};

use dq_formula::Formula;
use dq_lits::Memory;
pub use reads::may_read;
use shared::is_shared_at;
use sizes::{places_of, sized_places};
use std::alloc::Global;

mod reads;
mod shared;
mod sizes;

/// The places of the existentials, those that see less first, of those that see as many the one of
/// lower rank, and of those of one rank the one that is declared first. Ranks are by place in order
/// of declaration; those that are missing are 0.
pub fn existentials_in_order(
    alloc: Global,
    f: &Formula,
    ranks: &[usize],
) -> Result<Vec<usize>, Memory>
    ensures { IfOk result (λ places. AreInOrder f.now ranks.now places.items) }
{
    f.every_formula_is_lawful();
    let mut sized = sized_places(alloc, f, ranks)?;
    sized.sort_unstable();
    places_of(alloc, &sized)
}

/// The places of the existentials that a definition of this one may read: those that come before it
/// in the order and see no more.
pub fn shared_existentials(
    alloc: Global,
    f: &Formula,
    ranks: &[usize],
    y: u64,
) -> Result<Vec<usize>, Memory>
    requires existential { IsSome (existential_of f.now y) }
    ensures { (e : Existential) → existential_of f.now y ≡ Some e
        → IfOk result (λ places. ArePlacesOfShared f.now ranks.now e places.items) }
{
    let mut places = Vec::new(alloc);
    for place in 0..f.existentials().len() {
        if is_shared_at(f, ranks, place, y) {
            places.push(place)?;
        }
    }
    Ok(places)
}
