//! Rows in order of what an existential sees of them.
//!
//! A place for each first row and no bits are kept, and rows are compared themselves: no key goes
//! into a hash. A row is put in when the next one comes, so that a refused growth leaves each order
//! right for fewer rows.

ghost use Rattle.std.specs.Prelude.{◌≡◌, ◌≤◌, ◌<◌, ◌+◌, ◌++◌, [], true, All, map, length, IfOk, OnOk, OnErr, IsSome};
ghost use Rattle.std.specs.List.{position_or_len, insert, slice_get};
ghost use Rattle.std.specs.List.Sorted.{IsBinarySearchResult, IsSearchInRange};
ghost use Rattle.dq_lits.specs.Formula.{existential_of};
ghost use Rattle.dq_lits.specs.Henkin.{same_bits};
ghost use Rattle.dq_lits.specs.Expansion.{row_assignment};
ghost use Rattle.dq_lits.specs.Row.{bit_of};
ghost use Rattle.dq_formula.specs.Dependencies.{dependencies, dependency_count, IsDependencySet};
ghost use Rattle.expansion.specs.FirstRows.{RowOrder, IsRowOrder, seen_by, sees_of, bits_cmp, found_cmp, first_alike, no_order};

use dq_formula::{Deps, Formula};
use dq_lits::{Memory, Row};
use std::alloc::Global;
use std::cmp::Ordering;
use std::marker::Model;

/// The rows that are the first to show their bits at the universals that an existential sees, in
/// order of these bits. Rows are looked at when they are first needed.
#[derive(Drop)]
pub(crate) struct Order {
    places: Vec<usize>,
    learnt: usize,
}

impl Model for Order {
    ghost use Rattle.expansion.specs.FirstRows.{RowOrder};

    ghost Value = { RowOrder };

    ghost view = { λ o. record { places = o.places.items; learnt = o.learnt } };
}

impl Order {
    /// No row was looked at yet. It takes no memory.
    pub(crate) fn new(alloc: Global) -> Order
        ensures { result ≡ no_order }
    {
        Order {
            places: Vec::new(alloc),
            learnt: 0,
        }
    }

    /// The place of the first row that agrees with this one on what an existential sees; the number
    /// of rows where none does.
    pub(crate) fn find(
        &mut self,
        f: &Formula,
        y: u64,
        rows: &[Row],
        row: &Row,
    ) -> Result<usize, Memory>
        requires declared { IsSome (existential_of f.now y) }
        requires whole { All (λ r. length r ≡ length f.now.universals) rows.now }
        requires row_length { length row.now ≡ length f.now.universals }
        requires order { IsRowOrder f.now (sees_of (existential_of f.now y)) rows.now self.old }
        ensures order { IsRowOrder f.now (sees_of (existential_of f.now y)) rows.now self.new }
        ensures first { IfOk result
            (λ k. k ≡ first_alike f.now (sees_of (existential_of f.now y)) rows.now row.now) }
    {
        for k in self.learnt..rows.len() {
            self.learn(f, y, rows, k)?;
        }
        Ok(self.first(f, y, rows, row))
    }

    // The same, where all rows were looked at.
    fn first(&self, f: &Formula, y: u64, rows: &[Row], row: &Row) -> usize
        requires declared { IsSome (existential_of f.now y) }
        requires whole { All (λ r. length r ≡ length f.now.universals) rows.now }
        requires row_length { length row.now ≡ length f.now.universals }
        requires order { IsRowOrder f.now (sees_of (existential_of f.now y)) rows.now self.now }
        requires all { length rows.now ≤ self.now.learnt }
        ensures { result ≡ first_alike f.now (sees_of (existential_of f.now y)) rows.now row.now }
    {
        match search(f, y, rows, row, &self.places) {
            Ok(at) => self.places[at],
            Err(_) => rows.len(),
        }
    }

    // Looks at one row more.
    fn learn(&mut self, f: &Formula, y: u64, rows: &[Row], k: usize) -> Result<(), Memory>
        requires declared { IsSome (existential_of f.now y) }
        requires whole { All (λ r. length r ≡ length f.now.universals) rows.now }
        requires next { k ≡ self.old.learnt }
        requires row { k < length rows.now }
        requires order { IsRowOrder f.now (sees_of (existential_of f.now y)) rows.now self.old }
        ensures order { IsRowOrder f.now (sees_of (existential_of f.now y)) rows.now self.new }
        ensures learnt { OnOk result (self.new.learnt ≡ k + 1) }
    {
        if let Err(at) = search(f, y, rows, &rows[k], &self.places) {
            self.places.insert(at, k)?;
        }
        self.learnt = k + 1;
        Ok(())
    }
}

// Where a row stands among these, by what an existential sees.
fn search(f: &Formula, y: u64, rows: &[Row], row: &Row, places: &[usize]) -> Result<usize, usize>
    requires declared { IsSome (existential_of f.now y) }
    requires whole { All (λ r. length r ≡ length f.now.universals) rows.now }
    requires row_length { length row.now ≡ length f.now.universals }
    ensures within { IsSearchInRange result (length places.now) }
    ensures found { IsBinarySearchResult
        (λ k. found_cmp f.now (sees_of (existential_of f.now y)) row.now (slice_get rows.now k))
        places.now result }
{
    places.binary_search_by(|k| compare_at(f, y, rows, row, *k))
}

fn compare_at(f: &Formula, y: u64, rows: &[Row], row: &Row, k: usize) -> Ordering
    requires declared { IsSome (existential_of f.now y) }
    requires whole { All (λ r. length r ≡ length f.now.universals) rows.now }
    requires row_length { length row.now ≡ length f.now.universals }
    ensures { result
        ≡ found_cmp f.now (sees_of (existential_of f.now y)) row.now (slice_get rows.now k) }
{
    match rows.get(k) {
        Some(r) => compare_on(f, y, r, row),
        None => Ordering::Less,
    }
}

// Compares two rows by the bits that an existential sees.
fn compare_on(f: &Formula, y: u64, r1: &Row, r2: &Row) -> Ordering
    requires declared { IsSome (existential_of f.now y) }
    requires first_length { length r1.now ≡ length f.now.universals }
    requires second_length { length r2.now ≡ length f.now.universals }
    ensures { result
        ≡ bits_cmp (seen_by f.now (sees_of (existential_of f.now y)) r1.now)
        (seen_by f.now (sees_of (existential_of f.now y)) r2.now) }
{
    let deps = f.deps_of(y);
    for i in 0..count(deps) {
        let first = seen_bit(f, deps, r1, i);
        let second = seen_bit(f, deps, r2, i);
        if first != second {
            return first.cmp(&second);
        }
    }
    Ordering::Equal
}

fn count(deps: &Deps) -> usize
    ensures { result ≡ dependency_count deps.now }
{
    match deps {
        Deps::FirstOf(n) => *n,
        Deps::Listed(vars) => vars.items().len(),
    }
}

// The bit of a row at the universal that stands at `i` in a dependency set; false behind the set's
// end.
fn seen_bit(f: &Formula, deps: &Deps, row: &Row, i: usize) -> bool
    requires form { IsDependencySet f.now.universals deps.now }
    requires row_length { length row.now ≡ length f.now.universals }
    ensures { result
        ≡ bit_of (map (row_assignment f.now row.now) (dependencies f.now.universals deps.now)) i }
{
    f.every_formula_is_lawful();
    match deps {
        Deps::FirstOf(n) => i < *n && row.get(i),
        Deps::Listed(vars) => match vars.items().get(i) {
            Some(x) => bit_at(f, row, *x),
            None => false,
        },
    }
}

// The bit of a row at a universal; false for other variables.
fn bit_at(f: &Formula, row: &Row, x: u64) -> bool
    requires { length row.now ≡ length f.now.universals }
    ensures { result ≡ row_assignment f.now row.now x }
{
    match f.universal_place(x) {
        Some(place) => row.get(place),
        None => false,
    }
}
