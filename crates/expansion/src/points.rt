//! A bit for each existential under each row of a table.

ghost use Rattle.std.specs.Prelude.{◌≡◌, ◌≢◌, ◌≤◌, ◌==◌, length, position, Contains};
ghost use Rattle.std.specs.List.{AllPairs, position_or_len};
ghost use Rattle.dq_lits.specs.Row.{assignment_of, bit_of};
ghost use Rattle.expansion.specs.Table.{point_bits};

use dq_lits::{Memory, Row, RowList};
use std::alloc::Global;
use std::marker::Model;

/// A bit for each existential under each row of a table: the values of a model of all its
/// instances.
#[derive(Drop)]
pub struct Points {
    pub(crate) existentials: Vec<u64>,
    // Their places, in order of the variables. No contract speaks of it, since what is found there
    // is compared.
    pub(crate) order: Vec<usize>,
    pub(crate) bits: RowList,
}

impl Model for Points {
    ghost use Rattle.std.specs.Prelude.{◌≢◌};
    ghost use Rattle.std.specs.List.{AllPairs};
    ghost use Rattle.expansion.specs.Table.{PointState};

    ghost Value = { PointState };

    ghost view = { λ p. record { variables = p.existentials.items; rows = p.bits } };

    ghost invariant = { λ p. AllPairs (λ v w. v ≢ w) p.existentials.items };
}

impl Points {
    /// The bit of an existential under the row of a round, by its number from 1 on.
    pub fn bit(&self, y: u64, k: u64) -> bool
        requires from_one { 1 ≤ k }
        requires last { k ≤ length self.now.rows }
        requires existential { Contains self.now.variables y }
        ensures { result ≡ point_bits self.now k y }
    {
        let row = &self.bits.items()[k as usize - 1];
        bit_by_order(&self.existentials, &self.order, row, y)
    }
}

/// The places of these variables, in order of the variables.
pub(crate) fn places_in_order(alloc: Global, variables: &[u64]) -> Result<Vec<usize>, Memory> {
    let mut places = Vec::new(alloc);
    for place in 0..variables.len() {
        places.push(place)?;
    }
    places.sort_unstable_by_key(|place| variable_at(variables, *place));
    Ok(places)
}

// The bit of a variable, where each of these has the bit at its place; false for others. The order
// proposes a place.
fn bit_by_order(variables: &[u64], order: &[usize], row: &Row, y: u64) -> bool
    requires { AllPairs (λ v w. v ≢ w) variables.now }
    ensures { result ≡ assignment_of variables.now row.now y }
{
    let place = proposed_place(variables, order, y);
    if place < variables.len() && variables[place] == y {
        return bit_or_false(row, place);
    }
    bit_of_variable(variables, row, y)
}

/// The place of a variable, where these are distinct; how many there are where it isn't among them.
pub(crate) fn place_by_order(variables: &[u64], order: &[usize], y: u64) -> usize
    requires { AllPairs (λ v w. v ≢ w) variables.now }
    ensures { result ≡ position_or_len (λ v. v == y) variables.now }
{
    let place = proposed_place(variables, order, y);
    if place < variables.len() && variables[place] == y {
        return place;
    }
    match first_place(variables, y) {
        Some(place) => place,
        None => variables.len(),
    }
}

// The same by looking at all of them.
fn first_place(variables: &[u64], y: u64) -> Option<usize>
    ensures { result ≡ position (λ v. v == y) variables.now }
{
    variables.iter().position(|v| *v == y)
}

// It promises nothing of what it finds, since that is compared.
fn proposed_place(variables: &[u64], order: &[usize], y: u64) -> usize {
    match order.binary_search_by_key(&y, |place| variable_at(variables, *place)) {
        Ok(at) => order[at],
        Err(_) => variables.len(),
    }
}

fn variable_at(variables: &[u64], place: usize) -> u64 {
    match variables.get(place) {
        Some(variable) => *variable,
        None => 0,
    }
}

// The same by looking at all of them.
fn bit_of_variable(variables: &[u64], row: &Row, y: u64) -> bool
    ensures { result ≡ assignment_of variables.now row.now y }
{
    for (place, variable) in variables.iter().enumerate() {
        if *variable == y {
            return bit_or_false(row, place);
        }
    }
    false
}

fn bit_or_false(row: &Row, place: usize) -> bool
    ensures { result ≡ bit_of row.now place }
{
    if place < row.len() {
        row.get(place)
    } else {
        false
    }
}
