//! Which existentials a definition may read.

ghost use Rattle.std.specs.Prelude.{◌≡◌, ◌≢◌, ◌<◌, ◌≤◌, ◌⊎◌, ◌↔◌, ℕ, length, take, All, Contains, IsSome, IfSome, IsTrue, None, Some, slice_get, slice_index};
ghost use Rattle.dq_lits.specs.Formula.{Existential, existential_of};
ghost use Rattle.dq_formula.specs.Dependencies.{listed_universals};
ghost use Rattle.definition_order.specs.Order.{existential_place, RanksBefore, ComesBefore, IsShared};

use dq_formula::{Deps, Formula};

// Whether a definition of `y` may read the existential at a place.
pub(crate) fn is_shared_at(f: &Formula, ranks: &[usize], place: usize, y: u64) -> bool
    requires place { place < length f.now.existentials }
    requires existential { IsSome (existential_of f.now y) }
    ensures { (e z : Existential) → existential_of f.now y ≡ Some e
        → slice_get f.now.existentials place ≡ Some z
        → (IsTrue result ↔ IsShared f.now ranks.now e z) }
{
    f.every_formula_is_lawful();
    let z = f.existentials()[place];
    comes_before(f, ranks, z, y) && sees_no_more(f, z, y)
}

fn comes_before(f: &Formula, ranks: &[usize], z: u64, y: u64) -> bool
    requires first { IsSome (existential_of f.now z) }
    requires second { IsSome (existential_of f.now y) }
    ensures { (d e : Existential) → existential_of f.now z ≡ Some d
        → existential_of f.now y ≡ Some e
        → (IsTrue result ↔ ComesBefore f.now ranks.now d e) }
{
    let (few, many) = (f.seen(z).len(), f.seen(y).len());
    few < many || (few == many && ranks_before(ranks, place_of(f, z), place_of(f, y)))
}

fn ranks_before(ranks: &[usize], p: usize, q: usize) -> bool
    ensures { IsTrue result ↔ RanksBefore ranks.now p q }
{
    goes_first(rank_at(ranks, p), p, rank_at(ranks, q), q)
}

fn goes_first(low: usize, p: usize, high: usize, q: usize) -> bool
    ensures { IsTrue result ↔ ((low < high) ⊎ ((low ≡ high) × (p < q))) }
{
    low < high || (low == high && p < q)
}

// The rank at a place, 0 behind the last one.
pub(crate) fn rank_at(ranks: &[usize], place: usize) -> usize
    ensures { result ≡ slice_index ranks.now place }
{
    if place < ranks.len() { ranks[place] } else { 0 }
}

// Where an existential stands among all of them.
fn place_of(f: &Formula, y: u64) -> usize
    requires { IsSome (existential_of f.now y) }
    ensures { (e : Existential) → existential_of f.now y ≡ Some e
        → result ≡ existential_place f.now e }
{
    f.every_formula_is_lawful();
    match f.existential_place(y) {
        Some(place) => place,
        None => unreachable!(),
    }
}

fn sees_no_more(f: &Formula, z: u64, y: u64) -> bool
    requires first { IsSome (existential_of f.now z) }
    requires second { IsSome (existential_of f.now y) }
    ensures { (d e : Existential) → existential_of f.now z ≡ Some d
        → existential_of f.now y ≡ Some e
        → (IsTrue result ↔ All (Contains e.sees) d.sees) }
{
    match f.deps_of(z) {
        Deps::FirstOf(count) => sees_first(f, y, *count),
        Deps::Listed(xs) => sees_listed(f, y, xs.items()),
    }
}

// Whether an existential sees the first universals, so many of them.
fn sees_first(f: &Formula, y: u64, count: usize) -> bool
    requires existential { IsSome (existential_of f.now y) }
    requires few { count ≤ length f.now.universals }
    ensures { (e : Existential) → existential_of f.now y ≡ Some e
        → (IsTrue result ↔ All (Contains e.sees) (take count f.now.universals)) }
{
    f.every_formula_is_lawful();
    match f.deps_of(y) {
        Deps::FirstOf(n) => count <= *n,
        Deps::Listed(vars) => begins_with_first(f, vars.items(), count),
    }
}

// Whether an existential sees these universals, which stand in order of declaration.
fn sees_listed(f: &Formula, y: u64, xs: &[u64]) -> bool
    requires existential { IsSome (existential_of f.now y) }
    requires ordered { xs.now ≡ listed_universals f.now.universals xs.now }
    ensures { (e : Existential) → existential_of f.now y ≡ Some e
        → (IsTrue result ↔ All (Contains e.sees) xs.now) }
{
    match f.deps_of(y) {
        Deps::FirstOf(n) => ends_within(f, xs, *n),
        Deps::Listed(_) => sees_all(f, y, xs),
    }
}

// Whether universals in order of declaration are all among the first ones: whether the last of them
// is.
fn ends_within(f: &Formula, xs: &[u64], count: usize) -> bool
    requires ordered { xs.now ≡ listed_universals f.now.universals xs.now }
    ensures { IsTrue result ↔ All (Contains (take count f.now.universals)) xs.now }
{
    f.every_formula_is_lawful();
    if xs.is_empty() {
        return true;
    }
    match f.universal_place(xs[xs.len() - 1]) {
        Some(place) => place < count,
        None => unreachable!(),
    }
}

// Whether the first universals are all among some in order of declaration: whether the last of them
// has the same place there.
fn begins_with_first(f: &Formula, vars: &[u64], count: usize) -> bool
    requires few { count ≤ length f.now.universals }
    requires ordered { vars.now ≡ listed_universals f.now.universals vars.now }
    ensures { IsTrue result ↔ All (Contains vars.now) (take count f.now.universals) }
{
    f.every_formula_is_lawful();
    if count == 0 {
        return true;
    }
    if count > vars.len() {
        return false;
    }
    vars[count - 1] == f.universals()[count - 1]
}

// Whether an existential sees these universals, which stand in order of declaration as those do that
// it sees.
fn sees_all(f: &Formula, y: u64, xs: &[u64]) -> bool
    requires existential { IsSome (existential_of f.now y) }
    requires ordered { xs.now ≡ listed_universals f.now.universals xs.now }
    ensures { (e : Existential) → existential_of f.now y ≡ Some e
        → (IsTrue result ↔ All (Contains e.sees) xs.now) }
{
    are_among(f, xs, f.seen(y))
}

// Whether universals are all among others, where both stand in order of declaration: one walk
// through the two, without a look-up.
fn are_among(f: &Formula, xs: &[u64], ys: &[u64]) -> bool
    requires first { xs.now ≡ listed_universals f.now.universals xs.now }
    requires second { ys.now ≡ listed_universals f.now.universals ys.now }
    ensures { IsTrue result ↔ All (Contains ys.now) xs.now }
{
    f.every_formula_is_lawful();
    let mut at = 0;
    for x in xs {
        match place_from(ys, at, *x) {
            Some(place) => at = place + 1,
            None => return false,
        }
    }
    true
}

// The first place from one on where a number stands.
fn place_from(ys: &[u64], from: usize, x: u64) -> Option<usize>
    ensures there { IfSome result (λ p. (from ≤ p) × (p < length ys.now) × (slice_index ys.now p ≡ x)) }
    ensures nowhere { result ≡ None → (k : ℕ) → from ≤ k → k < length ys.now
        → slice_index ys.now k ≢ x }
{
    for at in from..ys.len() {
        if ys[at] == x {
            return Some(at);
        }
    }
    None
}
