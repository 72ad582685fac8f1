//! Dependency sets against each other, and rows and clauses against the universals.
//!
//! A set is looked up by a key that is kept, so that the second of two equal sets costs its reading
//! and one descent. `is_subset` walks through places, linear in both sets. A listed set is sorted
//! by place, never by a pass over all universals.

ghost use Rattle.std.specs.Prelude.{◌≡◌, ◌==◌, ◌≤◌, ◌<◌, ◌↔◌, ℕ, All, Contains, IsSome, IfSome, IfOk, IsTrue, Some, length, take, slice_get, slice_index};
ghost use Rattle.std.specs.List.{list_any, position_or_len};
ghost use Rattle.std.specs.List.Sorted.{IsNonDecreasing};
ghost use Rattle.dq_lits.specs.Formula.{Existential, existential_of};
ghost use Rattle.dq_lits.specs.Expansion.{universal_literal_true};
ghost use Rattle.dq_formula.specs.Dependencies.{listed_universals};
ghost use Rattle.dq_formula.specs.Sets.{universal_places};

use crate::dependencies::Deps;
use crate::formula::Formula;
use dq_lits::{Lit, Memory, Row};
use std::alloc::Global;

impl Formula {
    /// The universals that an existential depends on, in order of declaration.
    pub fn seen(&self, y: u64) -> &[u64]
        requires { IsSome (existential_of self.now y) }
        ensures set { IfSome (existential_of self.now y) (λ e. result.now ≡ e.sees) }
        ensures ordered { result.now ≡ listed_universals self.now.universals result.now }
    {
        self.every_formula_is_lawful();
        match self.deps_of(y) {
            Deps::FirstOf(n) => &self.universals()[..*n],
            Deps::Listed(vars) => vars.items(),
        }
    }

    /// The places of the universals that an existential depends on. They ascend.
    pub fn seen_places(&self, alloc: Global, y: u64) -> Result<Vec<usize>, Memory>
        requires { IsSome (existential_of self.now y) }
        ensures places { IfOk result (λ places. IfSome (existential_of self.now y)
            (λ e. places.items ≡ universal_places self.now e.sees)) }
        ensures ascend { IfOk result (λ places. IsNonDecreasing places.items) }
    {
        self.every_formula_is_lawful();
        let seen = self.seen(y);
        Ok(seen.iter().map(|x| self.place_of(*x)).collect(alloc)?)
    }

    /// Whether two existentials have one dependency set.
    pub fn have_one_set(&self, y: u64, z: u64) -> bool
        requires first { IsSome (existential_of self.now y) }
        requires second { IsSome (existential_of self.now z) }
        ensures { (d e : Existential) → existential_of self.now y ≡ Some d
            → existential_of self.now z ≡ Some e → (IsTrue result ↔ (d.sees ≡ e.sees)) }
    {
        match self.deps_of(y) {
            Deps::FirstOf(m) => self.sees_first(z, *m),
            Deps::Listed(vars) => self.seen(z) == vars.items(),
        }
    }

    // Whether an existential depends on just the first universals, so many of them.
    fn sees_first(&self, y: u64, count: usize) -> bool
        requires declared { IsSome (existential_of self.now y) }
        requires few { count ≤ length self.now.universals }
        ensures { (e : Existential) → existential_of self.now y ≡ Some e
            → (IsTrue result ↔ (take count self.now.universals ≡ e.sees)) }
    {
        match self.deps_of(y) {
            Deps::FirstOf(n) => count == *n,
            Deps::Listed(vars) => &self.universals()[..count] == vars.items(),
        }
    }

    /// Whether a universal literal of a clause is true under a row.
    pub fn has_true_universal(&self, row: &Row, clause: &[Lit]) -> bool
        requires { length row.now ≡ length self.now.universals }
        ensures { result ≡ list_any (universal_literal_true self.now row.now) clause.now }
    {
        clause.iter().any(|l| self.is_true_universal(row, *l))
    }

    fn is_true_universal(&self, row: &Row, l: Lit) -> bool
        requires { length row.now ≡ length self.now.universals }
        ensures { result ≡ universal_literal_true self.now row.now l }
    {
        match self.universal_place(l.var()) {
            Some(place) => row.get(place) != l.is_neg(),
            None => false,
        }
    }
}

/// Whether each number of one list is in the other, where both ascend: one walk through the two.
pub fn is_subset(xs: &[usize], ys: &[usize]) -> bool
    requires first { IsNonDecreasing xs.now }
    requires second { IsNonDecreasing ys.now }
    ensures { IsTrue result ↔ All (Contains ys.now) xs.now }
{
    let mut at = 0;
    for x in xs {
        at = first_from(ys, at, *x);
        if !stands_at(ys, at, *x) {
            return false;
        }
    }
    true
}

// The first place from one on whose number isn't below `x`.
fn first_from(ys: &[usize], from: usize, x: usize) -> usize
    requires { from ≤ length ys.now }
    ensures start { from ≤ result }
    ensures end { result ≤ length ys.now }
    ensures below { (k : ℕ) → from ≤ k → k < result → slice_index ys.now k < x }
    ensures here { result < length ys.now → x ≤ slice_index ys.now result }
{
    for at in from..ys.len() {
        if ys[at] >= x {
            return at;
        }
    }
    ys.len()
}

fn stands_at(ys: &[usize], at: usize, x: usize) -> bool
    ensures { IsTrue result ↔ (slice_get ys.now at ≡ Some x) }
{
    match ys.get(at) {
        Some(y) => *y == x,
        None => false,
    }
}
