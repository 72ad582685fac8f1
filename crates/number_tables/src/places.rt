//! A map from numbers to places: a table for small numbers, an ordered map for others.

ghost use Rattle.std.specs.Prelude.{◌≡◌, ◌+◌, ◌-◌, ◌^◌, ◌<◌, ◌≤◌, ◌==◌, ℕ, true, None, OnOk, OnErr, length, slice_index_or, if◌then◌else◌};
ghost use Rattle.std.specs.BTreeMap.{get};
ghost use Rattle.std.specs.Ordering.{nat_cmp};
ghost use Rattle.number_tables.specs.Places.{place_in, Puts};

use dq_lits::Memory;
use std::alloc::Global;
use std::collections::BTreeMap;

/// A map from numbers to places.
#[derive(Drop)]
pub(crate) struct Places {
    // By number, the place of a number that was small beside its place, or `NOWHERE`.
    table: Vec<u32>,
    // The other numbers. One of them may be within the table, which has grown since.
    rest: BTreeMap<u64, usize>,
}

const NOWHERE: u32 = u32::MAX;

// The table's length is a multiple of this.
const GROWTH: usize = 64;

impl Places {
    /// No number has a place. It takes no memory.
    pub(crate) fn new(alloc: Global) -> Places
        ensures { (n : ℕ) → place_in result n ≡ None }
    {
        Places {
            table: Vec::new(alloc),
            rest: BTreeMap::new(alloc),
        }
    }

    /// The place of a number, if it has one.
    pub(crate) fn get(&self, number: u64) -> Option<usize>
        ensures { result ≡ place_in self.now number }
    {
        let place = slot(&self.table, number);
        if place != NOWHERE {
            return Some(place as usize);
        }
        if self.rest.is_empty() {
            // The usual case: most sets have small numbers alone.
            return None;
        }
        self.get_apart(number)
    }

    // What the ordered map says of a number. What calls it is to stay small.
    #[inline(never)]
    fn get_apart(&self, number: u64) -> Option<usize>
        ensures { result ≡ get nat_cmp self.now.rest number }
    {
        self.rest.get(&number).copied()
    }

    /// Gives a place to a number that has none.
    #[inline(always)]
    pub(crate) fn put(&mut self, number: u64, place: usize) -> Result<(), Memory>
        requires { place_in self.old number ≡ None }
        ensures ok { OnOk result (Puts (place_in self.old) (place_in self.new) number place) }
        ensures err { OnErr result ((n : ℕ) → place_in self.new n ≡ place_in self.old n) }
    {
        if is_small(number, place) {
            return write(&mut self.table, number as usize, place as u32);
        }
        self.put_apart(number, place)
    }

    // The same of a number that isn't small. Few are, and what calls it is to stay small.
    #[inline(never)]
    fn put_apart(&mut self, number: u64, place: usize) -> Result<(), Memory>
        requires { place_in self.old number ≡ None }
        ensures ok { OnOk result (Puts (place_in self.old) (place_in self.new) number place) }
        ensures err { OnErr result ((n : ℕ) → place_in self.new n ≡ place_in self.old n) }
    {
        self.rest.insert(number, place)?;
        Ok(())
    }
}

// Whether a number is small beside its place, and the place beside what the table can hold.
fn is_small(number: u64, place: usize) -> bool
    ensures { result ≡ true → (number < 2 ^ 34 + 1024) × (place < 2 ^ 32 - 1) }
{
    place < NOWHERE as usize && number < 4 * place as u64 + 1024
}

// What the table says of a number.
fn slot(table: &[u32], number: u64) -> u32
    ensures { result ≡ slice_index_or table.now number 4294967295 }
{
    let len = table.len() as u64;
    if number < len {
        table[number as usize]
    } else {
        NOWHERE
    }
}

// Writes a place into the table, which grows to hold it.
#[inline(always)]
fn write(table: &mut Vec<u32>, number: usize, place: u32) -> Result<(), Memory>
    requires { number < 2 ^ 40 }
    ensures ok { OnOk result ((n : ℕ) → slice_index_or table.new.items n 4294967295
        ≡ (if number == n then place else slice_index_or table.old.items n 4294967295)) }
    ensures err { OnErr result (table.new.items ≡ table.old.items) }
{
    if table.len() <= number {
        grow(table, number)?;
    }
    table[number] = place;
    Ok(())
}

// Makes the table hold a number, and some behind it, so that few calls grow it.
#[inline(never)]
fn grow(table: &mut Vec<u32>, number: usize) -> Result<(), Memory>
    requires small { number < 2 ^ 40 }
    requires past { length table.old.items ≤ number }
    ensures within { OnOk result (number < length table.new.items) }
    ensures same { (n : ℕ)
        → slice_index_or table.new.items n 4294967295
        ≡ slice_index_or table.old.items n 4294967295 }
    ensures err { OnErr result (table.new.items ≡ table.old.items) }
{
    table.resize((number / GROWTH + 1) * GROWTH, NOWHERE)?;
    Ok(())
}
