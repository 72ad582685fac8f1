//! The gates that a definition's block needs: the output's, those that its proof rests on, and all
//! below them.

ghost use Rattle.std.specs.Prelude.{◌≡◌, ◌<◌, ℕ, true, All, Contains, length, map, reverse, slice_index, IfOk, OnOk, ◌⊎◌};
ghost use Rattle.std.specs.List.{AllPairs};
ghost use Rattle.std.specs.List.Sorted.{IsStrictlyIncreasing};
ghost use Rattle.hint_log.specs.Conditions.{IsId, AreLogged};
ghost use Rattle.hint_log.specs.Reached.{AreReached};
ghost use Rattle.definition_export.specs.Closing.{is_waiting, IsWithPlace, IsWithSides, IsLeafWaiting, IsGateWaiting, AreWithin, AreClosed, AreTermNames};
ghost use Rattle.definition_export.specs.Exporting.{AreBlockGates};
ghost use Rattle.definition_export.specs.Parts.{AreNamedTerms};
ghost use Rattle.definition_export.specs.TermOrder.{IsTermOrder};

use crate::places::PlaceSet;
use crate::terms::TermOrder;
use dq_lits::Memory;
use hint_log::{Leaf, Log, Name, Origin};
use number_tables::NumberSet;
use std::alloc::Global;

/// The gates over first copies that a block needs, in the order of naming. It takes time for these
/// gates and the ids, times the logarithm of the gates, and memory for the gates.
pub(crate) fn needed_terms(
    alloc: Global,
    log: &Log,
    order: &TermOrder,
    ids: &[u64],
    leaf: &Leaf,
) -> Result<NumberSet, Memory>
    requires logged { AreLogged log.now.entries }
    requires ids { All (IsId log.now.entries) ids.now }
    requires named { AreNamedTerms log.now.entries ids.now }
    requires order { IsTermOrder order.now log.now.entries }
    ensures { IfOk result (λ gates. (id : ℕ) → AreReached log.now.entries id ids.now
        → AreBlockGates log.now.entries id leaf.now gates) }
{
    let terms = &order.terms;
    let mut waiting = PlaceSet::new(alloc);
    add_leaf(terms, &mut waiting, leaf)?;
    add_used(log, terms, ids, &mut waiting)?;
    let mut places = closed(alloc, log, terms, waiting)?;
    places.reverse();
    listed(alloc, terms, &places)
}

// Adds the place of the leaf's gate.
fn add_leaf(terms: &NumberSet, waiting: &mut PlaceSet, leaf: &Leaf) -> Result<(), Memory>
    ensures within { AreWithin terms.now waiting.old → OnOk result (AreWithin terms.now waiting.new) }
    ensures there { OnOk result (IsLeafWaiting terms.now waiting.new leaf.now) }
{
    match leaf {
        Leaf::Literal(l) => add_place(terms, l.var(), waiting),
        Leaf::Constant(_) => Ok(()),
    }
}

// Adds the places of the gates whose clauses have these ids.
fn add_used(log: &Log, terms: &NumberSet, ids: &[u64], waiting: &mut PlaceSet) -> Result<(), Memory>
    requires ids { All (IsId log.now.entries) ids.now }
    ensures within { AreWithin terms.now waiting.old → OnOk result (AreWithin terms.now waiting.new) }
    ensures kept { OnOk result
        ((p : ℕ) → is_waiting waiting.old p ≡ true → is_waiting waiting.new p ≡ true) }
    ensures there { OnOk result (All (IsGateWaiting log.now.entries terms.now waiting.new) ids.now) }
{
    for id in ids {
        add_used_gate(log, terms, *id, waiting)?;
    }
    Ok(())
}

// Adds the place of the gate whose clause has this id.
fn add_used_gate(
    log: &Log,
    terms: &NumberSet,
    id: u64,
    waiting: &mut PlaceSet,
) -> Result<(), Memory>
    requires id { IsId log.now.entries id }
    ensures within { AreWithin terms.now waiting.old → OnOk result (AreWithin terms.now waiting.new) }
    ensures kept { OnOk result
        ((p : ℕ) → is_waiting waiting.old p ≡ true → is_waiting waiting.new p ≡ true) }
    ensures there { OnOk result (IsGateWaiting log.now.entries terms.now waiting.new id) }
{
    match log.origin(id) {
        Some(Origin::TermGate { variable, .. }) => add_place(terms, variable, waiting),
        _ => Ok(()),
    }
}

// Adds a gate's place. Other variables have none.
fn add_place(terms: &NumberSet, variable: u64, waiting: &mut PlaceSet) -> Result<(), Memory>
    ensures added { OnOk result (IsWithPlace terms.now variable waiting.old waiting.new) }
    ensures within { AreWithin terms.now waiting.old → OnOk result (AreWithin terms.now waiting.new) }
{
    match terms.place(variable) {
        Some(place) => waiting.insert(place),
        None => Ok(()),
    }
}

// The places that wait, and those of all that their gates read, the greatest first.
fn closed(
    alloc: Global,
    log: &Log,
    terms: &NumberSet,
    waiting: PlaceSet,
) -> Result<Vec<usize>, Memory>
    requires terms { AreTermNames log.now.entries terms.now }
    requires within { AreWithin terms.now waiting }
    ensures { IfOk result
        (λ places. AreClosed log.now.entries terms.now waiting (reverse places.items)) }
{
    let mut waiting = waiting;
    let mut places = Vec::new(alloc);
    while let Some(place) = waiting.pop() {
        add_sides(log, terms, place, &mut waiting)?;
        places.push(place)?;
    }
    Ok(places)
}

// Adds the places of the gates that the gate at a place reads.
fn add_sides(
    log: &Log,
    terms: &NumberSet,
    place: usize,
    waiting: &mut PlaceSet,
) -> Result<(), Memory>
    requires terms { AreTermNames log.now.entries terms.now }
    requires within { place < length terms.now }
    ensures { OnOk result (IsWithSides log.now.entries terms.now place waiting.old waiting.new) }
{
    match log.name(terms.items()[place]) {
        Name::Term { left, right } => {
            add_place(terms, left.var(), waiting)?;
            add_place(terms, right.var(), waiting)
        }
        _ => unreachable!(),
    }
}

// The gates at some places that rise.
fn listed(alloc: Global, terms: &NumberSet, places: &[usize]) -> Result<NumberSet, Memory>
    requires distinct { AllPairs (λ v w. v ≡ w → ⊥) terms.now }
    requires rising { IsStrictlyIncreasing places.now }
    requires within { All (λ p. p < length terms.now) places.now }
    ensures { IfOk result (λ gates. gates ≡ map (slice_index terms.now) places.now) }
{
    let mut gates = NumberSet::new(alloc);
    for place in places {
        gates.push(terms.items()[*place])?;
    }
    Ok(gates)
}
