//! Names by place, with their bytes end to end: a name costs these and what finds it, and no block of
//! its own.
//!
//! As blocks of their own in a map a million inputs' names took more than the search for their
//! circuit.

ghost use Rattle.std.specs.Prelude.{◌≡◌, ◌++◌, ◌∷◌, ◌<◌, [], None, false, length, slice_index_or, OnOk, OnErr};
ghost use Rattle.std.specs.Option.{option_copied};
ghost use Rattle.aiger_text.specs.Symbol.{name_at};
ghost use Rattle.number_tables.specs.Numbers.{has_number};

use dq_lits::Memory;
use flat_lists::FlatLists;
use number_tables::NumberSet;
use std::alloc::Global;
use std::marker::Model;

/// Names by place, in the order in which they came.
#[derive(Drop)]
pub(crate) struct NameTable {
    places: NumberSet,
    // The name of each place, at its index.
    names: FlatLists<u8>,
}

impl Model for NameTable {
    ghost use Rattle.std.specs.Prelude.{ℕ, List, length, ◌≡◌};
    ghost use Rattle.std.specs.List.{zip};

    ghost Value = { List (ℕ × List ℕ) };

    ghost view = { λ t. zip t.places t.names };

    ghost invariant = { λ t. length t.places ≡ length t.names };
}

impl NameTable {
    /// No names. It takes no memory.
    pub(crate) fn new(alloc: Global) -> NameTable
        ensures { result ≡ [] }
    {
        NameTable {
            places: NumberSet::new(alloc),
            names: FlatLists::new(alloc),
        }
    }

    /// The name of a place, if it has one.
    pub(crate) fn get(&self, place: u64) -> Option<&[u8]>
        ensures { option_copied result ≡ name_at self.now place }
    {
        let index = self.places.place(place)?;
        Some(self.names.get(index))
    }

    /// How many names there are.
    pub(crate) fn len(&self) -> usize
        ensures { result ≡ length self.now }
    {
        self.names.len()
    }

    /// The place of the name at an index.
    pub(crate) fn place(&self, index: usize) -> u64
        requires { index < length self.now }
        ensures { result ≡ (slice_index_or self.now index (0, [])).0 }
    {
        place_at(self.places.items(), index)
    }

    /// The name at an index.
    pub(crate) fn name(&self, index: usize) -> &[u8]
        requires { index < length self.now }
        ensures { result.now ≡ (slice_index_or self.now index (0, [])).1 }
    {
        self.names.get(index)
    }

    /// Names a place that has no name yet, behind the others.
    pub(crate) fn add(&mut self, place: u64, name: &[u8]) -> Result<(), Memory>
        requires { name_at self.old place ≡ None }
        ensures ok { OnOk result (self.new ≡ self.old ++ (place, name.now) ∷ []) }
        ensures err { OnErr result (self.new ≡ self.old) }
    {
        add(&mut self.places, &mut self.names, place, name)?;
        Ok(())
    }
}

fn place_at(places: &[u64], index: usize) -> u64
    requires { index < length places.now }
    ensures { result ≡ slice_index_or places.now index 0 }
{
    places[index]
}

// Names a place behind the others, on what a table keeps.
fn add(
    places: &mut NumberSet,
    names: &mut FlatLists<u8>,
    place: u64,
    name: &[u8],
) -> Result<(), Memory>
    requires { has_number places.old place ≡ false }
    ensures places { OnOk result (places.new ≡ places.old ++ place ∷ []) }
    ensures names { OnOk result (names.new ≡ names.old ++ name.now ∷ []) }
    ensures err { OnErr result ((places.new ≡ places.old) × (names.new ≡ names.old)) }
{
    names.push(name)?;
    if places.insert(place).is_err() {
        names.pop();
        return Err(Memory);
    }
    Ok(())
}
