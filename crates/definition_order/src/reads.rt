//! What a definition may read, by its variables.

ghost use Rattle.std.specs.Prelude.{◌≡◌, ◌↔◌, IsSome, IsTrue, Some};
ghost use Rattle.dq_lits.specs.Formula.{Existential, existential_of};
ghost use Rattle.definition_order.specs.Order.{IsSharedVariable, MayRead};

use crate::shared::is_shared_at;
use dq_formula::Formula;

/// Whether a definition of the existential `y` may read a variable: a universal that `y` sees, or
/// an existential that comes before `y` in the order and sees no more.
pub fn may_read(f: &Formula, ranks: &[usize], y: u64, v: u64) -> bool
    requires existential { IsSome (existential_of f.now y) }
    ensures { (e : Existential) → existential_of f.now y ≡ Some e
        → (IsTrue result ↔ MayRead f.now ranks.now e v) }
{
    f.sees(y, v) || is_shared(f, ranks, y, v)
}

fn is_shared(f: &Formula, ranks: &[usize], y: u64, v: u64) -> bool
    requires existential { IsSome (existential_of f.now y) }
    ensures { (e : Existential) → existential_of f.now y ≡ Some e
        → (IsTrue result ↔ IsSharedVariable f.now ranks.now e v) }
{
    f.every_formula_is_lawful();
    match f.existential_place(v) {
        Some(place) => is_shared_at(f, ranks, place, y),
        None => false,
    }
}
