//! The hints of a line, by places.

ghost use Rattle.std.specs.Prelude.{◌≡◌, ◌<◌, false, All, Contains, map, length, slice_index, slice_get, IfOk};
ghost use Rattle.std.specs.List.Sorted.{IsStrictlyIncreasing};
ghost use Rattle.dq_lits.specs.Derivation.{is_tautology};
ghost use Rattle.cert_export.specs.Written.{place_in, needed_places};

use cert_text::Step;
use dq_lits::{Lit, Memory};
use flat_lists::FlatLists;
use rup_core::{Base, Derived, Marks, derive_any};
use std::alloc::Global;

// Where an id stands among ascending ones, by halves.
pub(crate) fn place(ids: &[u64], id: u64) -> usize
    requires ascending { IsStrictlyIncreasing ids.now }
    requires there { Contains ids.now id }
    ensures value { result ≡ place_in ids.now id }
    ensures within { result < length ids.now }
{
    match ids.binary_search(&id) {
        Ok(place) => place,
        Err(_) => unreachable!(),
    }
}

// Where some ids stand among ascending ones.
fn places(alloc: Global, ids: &[u64], some: &[u64]) -> Result<Vec<u64>, Memory>
    requires ascending { IsStrictlyIncreasing ids.now }
    requires there { All (Contains ids.now) some.now }
    ensures { IfOk result (λ places. places.items ≡ map (place_in ids.now) some.now) }
{
    let mut places = Vec::new(alloc);
    for id in some {
        places.push(place(ids, *id) as u64)?;
    }
    Ok(places)
}

// The numbers at some places.
pub(crate) fn numbers_at(alloc: Global, numbers: &[u64], places: &[u64]) -> Result<Vec<u64>, Memory>
    requires { All (λ p. p < length numbers.now) places.now }
    ensures { IfOk result (λ found. found.items ≡ map (slice_index numbers.now) places.now) }
{
    let mut found = Vec::new(alloc);
    for place in places {
        found.push(numbers[*place as usize])?;
    }
    Ok(found)
}

// Clauses by their places.
#[derive(Drop)]
struct ByPlace<'a> {
    clauses: &'a FlatLists<Lit>,
}

impl<'a> Base for ByPlace<'a> {
    ghost clauses = { λ b. slice_get b.clauses.now };

    fn size(&self, id: u64) -> Option<usize> {
        if id < self.clauses.len() as u64 {
            Some(self.clauses.get(id as usize).len())
        } else {
            None
        }
    }

    fn lit(&self, id: u64, i: usize) -> Lit {
        self.clauses.get(id as usize)[i]
    }
}

// The places of a line's hints, which are among these ids, up to the first that is falsified.
pub(crate) fn needed(
    alloc: Global,
    marks: &mut Marks,
    clauses: &FlatLists<Lit>,
    ids: &[u64],
    line: Step,
) -> Result<Vec<u64>, Memory>
    requires ascending { IsStrictlyIncreasing ids.now }
    requires there { All (Contains ids.now) line.hints.now }
    requires consistent { is_tautology line.lits.now ≡ false }
    ensures { IfOk result (λ places. places.items
        ≡ needed_places clauses.now ids.now line.entry.lits.now line.entry.hints.now) }
{
    let mut places = places(alloc, ids, line.hints)?;
    let base = ByPlace { clauses };
    match derive_any(marks, line.lits, &places, &base)? {
        Derived::Yes => {}
        Derived::No(fault) => places.truncate(fault),
    }
    Ok(places)
}
