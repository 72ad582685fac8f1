//! Whether the existentials of a batch read declared universals alone, by whole words.
//!
//! An output whose existential sees the first universals is settled by the last one that it reads:
//! one pass through the gates writes behind which place no universal is reached, for all outputs at
//! once. That pass has no contract: a second one tests that no gate's number is below what it
//! reads.

ghost use Rattle.std.specs.Prelude.{◌≡◌, ◌≢◌, ◌⊎◌, false, ◌+◌, ◌<◌, ◌≤◌, ◌*◌, ℕ, true, length, slice_index, All, Contains, IsSome};
ghost use Rattle.dq_lits.specs.Formula.{Existential, existential_of};
ghost use Rattle.dq_formula.specs.Dependencies.{dependencies, IsDependencySet};
ghost use Rattle.circuit_plain.specs.Words.{marked};
ghost use Rattle.skolem_checker.specs.Reads.{IsAt, AreDeclared, IsNoted, IsSetNoted, IsUnnoted, AreSameAt, IsAllowed};
ghost use Rattle.skolem_checker.specs.Tables.{HasLiteral, ReadsByMarks};

use crate::tested::Tested;
use crate::words::{clear, set_bit, without};
use dq_formula::{Deps, Formula};

/// Whether each of these existentials sees all universals.
pub(crate) fn all_see_all(f: &Formula, ys: &[u64]) -> bool
    requires { All (λ y. IsSome (existential_of f.now y)) ys.now }
    ensures { result ≡ true → (i : ℕ) (e : Existential) → IsAt f.now ys.now i e
        → (q : ℕ) → q < length f.now.universals → Contains e.sees (slice_index f.now.universals q) }
{
    for y in ys {
        if !sees_all(f, *y) {
            return false;
        }
    }
    true
}

// Whether an existential sees all universals; a list of all of them counts for no.
fn sees_all(f: &Formula, y: u64) -> bool
    requires { IsSome (existential_of f.now y) }
    ensures { result ≡ true → (e : Existential) → existential_of f.now y ≡ Some e
        → (q : ℕ) → q < length f.now.universals → Contains e.sees (slice_index f.now.universals q) }
{
    match f.deps_of(y) {
        Deps::FirstOf(n) => *n >= f.universals().len(),
        Deps::Listed(_) => false,
    }
}

/// Whether, by the marks, each of these existentials reads declared universals alone. It may say no
/// where they do.
pub(crate) fn are_declared(
    tested: &Tested,
    ys: &[u64],
    reached: &[u64],
    listed: &mut [u64],
    stops: &mut [u64],
) -> bool
    requires declared { All (λ y. IsSome (existential_of tested.now.formula.now y)) ys.now }
    requires few { length ys.now ≤ 64 }
    requires fit { All (HasLiteral tested.now.literals.now (length reached.now))
        tested.now.formula.now.universals }
    requires listed_words { length listed.old ≡ length tested.now.formula.now.universals }
    requires stops_words { length stops.old ≡ length tested.now.formula.now.universals + 1 }
    ensures listed_length { length listed.new ≡ length listed.old }
    ensures stops_length { length stops.new ≡ length stops.old }
    ensures declared { result ≡ true
        → AreDeclared tested.now.formula.now tested.now.literals.now ys.now reached.now }
{
    note_sets(tested.formula, ys, listed, stops);
    are_allowed(tested.formula, tested.literals, reached, listed, stops)
}

// Notes the dependency sets of these existentials, each at its bit.
fn note_sets(f: &Formula, ys: &[u64], listed: &mut [u64], stops: &mut [u64])
    requires declared { All (λ y. IsSome (existential_of f.now y)) ys.now }
    requires few { length ys.now ≤ 64 }
    requires listed_words { length listed.old ≡ length f.now.universals }
    requires stops_words { length stops.old ≡ length f.now.universals + 1 }
    ensures listed_length { length listed.new ≡ length listed.old }
    ensures stops_length { length stops.new ≡ length stops.old }
    ensures noted { (i : ℕ) (e : Existential) → IsAt f.now ys.now i e
        → IsNoted f.now listed.new stops.new i e }
{
    clear(listed);
    clear(stops);
    for (i, y) in ys.iter().enumerate() {
        note_set(f, f.deps_of(*y), i, listed, stops);
    }
}

// Notes a dependency set at a bit at which nothing is noted yet.
fn note_set(f: &Formula, set: &Deps, i: usize, listed: &mut [u64], stops: &mut [u64])
    requires set { IsDependencySet f.now.universals set.now }
    requires bit { i < 64 }
    requires listed_words { length listed.old ≡ length f.now.universals }
    requires stops_words { length stops.old ≡ length f.now.universals + 1 }
    requires nothing { IsUnnoted listed.old stops.old i }
    ensures listed_length { length listed.new ≡ length listed.old }
    ensures stops_length { length stops.new ≡ length stops.old }
    ensures noted { IsSetNoted f.now listed.new stops.new i
        (dependencies f.now.universals set.now) }
    ensures others { (j : ℕ) → j ≢ i
        → AreSameAt listed.old listed.new j × AreSameAt stops.old stops.new j }
{
    match set {
        Deps::FirstOf(n) => set_bit(stops, *n, i),
        Deps::Listed(universals) => {
            set_bit(stops, 0, i);
            list(f, universals.items(), i, listed);
        }
    }
}

// Lists these universals at a bit.
fn list(f: &Formula, universals: &[u64], i: usize, listed: &mut [u64])
    requires bit { i < 64 }
    requires listed_words { length listed.old ≡ length f.now.universals }
    requires nothing { (q : ℕ) → marked listed.old i q ≡ false }
    ensures same_length { length listed.new ≡ length listed.old }
    ensures lists { (q : ℕ) → q < length f.now.universals → marked listed.new i q ≡ true
        → Contains universals.now (slice_index f.now.universals q) }
    ensures others { (j : ℕ) → j ≢ i → AreSameAt listed.old listed.new j }
{
    for x in universals {
        list_one(f, *x, i, listed);
    }
}

fn list_one(f: &Formula, x: u64, i: usize, listed: &mut [u64])
    requires bit { i < 64 }
    requires listed_words { length listed.old ≡ length f.now.universals }
    ensures same_length { length listed.new ≡ length listed.old }
    ensures lists { (q : ℕ) → marked listed.new i q ≡ true
        → (marked listed.old i q ≡ true) ⊎ (slice_index f.now.universals q ≡ x) }
    ensures others { (j : ℕ) → j ≢ i → AreSameAt listed.old listed.new j }
{
    if let Some(place) = f.universal_place(x) {
        set_bit(listed, place, i);
    }
}

// Whether each universal that is marked at a bit is allowed there.
fn are_allowed(
    f: &Formula,
    literals: &[u64],
    reached: &[u64],
    listed: &[u64],
    stops: &[u64],
) -> bool
    requires fit { All (HasLiteral literals.now (length reached.now)) f.now.universals }
    requires listed_words { length listed.now ≡ length f.now.universals }
    requires stops_words { length stops.now ≡ length f.now.universals + 1 }
    ensures { result ≡ true → (i q : ℕ) → i < 64 → q < length f.now.universals
        → ReadsByMarks (marked reached.now i) literals.now 0 (slice_index f.now.universals q)
        → IsAllowed listed.now stops.now i q }
{
    let mut open = u64::MAX;
    for (q, x) in f.universals().iter().enumerate() {
        open = without(open, stops[q]);
        let variable = literals[*x as usize] / 2;
        let unlisted = without(reached[variable as usize], listed[q]);
        if without(unlisted, open) != 0 {
            return false;
        }
    }
    true
}
