//! The gates that an exported circuit and its proof rest on.
//!
//! A gate was named behind its sides. So gates are looked at by their places among the log's names,
//! the last one first: its sides come into the set of those that are still to be looked at, each
//! gate is looked at once, and no name that isn't needed.
//!
//! Places, not variables: a log says nothing of the order of variables. A pass over all names took
//! 19 parts of 20 of a long session.

ghost use Rattle.std.specs.Prelude.{◌≡◌, ◌<◌, ℕ, true, reverse, All, IfOk, OnOk};
ghost use Rattle.std.specs.List.{AllPairs};
ghost use Rattle.hint_log.specs.Conditions.{IsId};
ghost use Rattle.hint_log.specs.Pending.{is_pending};
ghost use Rattle.cert_export.specs.Needed.{is_and, IsGatePlace, IsLeafWanted, IsIdWanted, HasRoots, Wants, WantsGates, WantsSides, AreGatePlaces, AreVariablesAt, AreNeededGates};

use crate::leaves::Leaves;
use dq_lits::Memory;
use hint_log::{Leaf, Log, Name, Origin, Pending};
use number_tables::NumberSet;
use std::alloc::Global;

/// The gates of the leaves, those whose clauses are among some ids, and all gates below them, in
/// the order of naming. It takes time and memory for these gates, the leaves and the ids.
pub(crate) fn needed_gates(
    alloc: Global,
    log: &Log,
    ids: &[u64],
    leaves: &Leaves,
) -> Result<NumberSet, Memory>
    requires ids { All (IsId log.now.entries) ids.now }
    ensures { IfOk result (AreNeededGates log.now.entries ids.now leaves.now.leaves) }
{
    log.every_log_is_lawful();
    let roots = roots(alloc, log, ids, leaves)?;
    let mut places = gate_places(alloc, log, roots)?;
    places.reverse();
    variables_at(alloc, log, &places)
}

// The places of the leaves' gates, and of those whose clauses are among some ids.
fn roots(alloc: Global, log: &Log, ids: &[u64], leaves: &Leaves) -> Result<Pending, Memory>
    requires ids { All (IsId log.now.entries) ids.now }
    ensures { IfOk result (HasRoots log.now.entries ids.now leaves.now.leaves) }
{
    let mut pending = Pending::new(alloc);
    want_leaves(log, leaves.items(), &mut pending)?;
    want_ids(log, ids, &mut pending)?;
    Ok(pending)
}

// Adds the leaves' gates.
fn want_leaves(log: &Log, leaves: &[Leaf], pending: &mut Pending) -> Result<(), Memory>
    ensures grew { OnOk result (WantsGates log.now.entries pending.old pending.new) }
    ensures there { OnOk result (All (IsLeafWanted log.now.entries pending.new) leaves.now) }
{
    for leaf in leaves {
        want_leaf(log, leaf, pending)?;
    }
    Ok(())
}

// Adds a leaf's gate.
fn want_leaf(log: &Log, leaf: &Leaf, pending: &mut Pending) -> Result<(), Memory>
    ensures grew { OnOk result (WantsGates log.now.entries pending.old pending.new) }
    ensures there { OnOk result (IsLeafWanted log.now.entries pending.new leaf.now) }
{
    if let Leaf::Literal(l) = leaf {
        want(log, l.var(), pending)?;
    }
    Ok(())
}

// Adds the gates whose clauses are among some ids.
fn want_ids(log: &Log, ids: &[u64], pending: &mut Pending) -> Result<(), Memory>
    requires ids { All (IsId log.now.entries) ids.now }
    ensures grew { OnOk result (WantsGates log.now.entries pending.old pending.new) }
    ensures there { OnOk result (All (IsIdWanted log.now.entries pending.new) ids.now) }
{
    for id in ids {
        want_id(log, *id, pending)?;
    }
    Ok(())
}

// Adds the gate of a gate's clause.
fn want_id(log: &Log, id: u64, pending: &mut Pending) -> Result<(), Memory>
    requires id { IsId log.now.entries id }
    ensures grew { OnOk result (WantsGates log.now.entries pending.old pending.new) }
    ensures there { OnOk result (IsIdWanted log.now.entries pending.new id) }
{
    if let Some(Origin::Gate { variable, .. }) = log.origin(id) {
        want(log, variable, pending)?;
    }
    Ok(())
}

// Adds a variable's place, if it is a gate.
fn want(log: &Log, variable: u64, pending: &mut Pending) -> Result<(), Memory>
    ensures { OnOk result (Wants log.now.entries variable pending.old pending.new) }
{
    log.every_log_is_lawful();
    if let Some(place) = log.place(variable) {
        if is_gate(log.name_at(place).1) {
            pending.insert(place as u64)?;
        }
    }
    Ok(())
}

// Whether a name is a gate's.
fn is_gate(name: Name) -> bool
    ensures { result ≡ is_and name }
{
    matches!(name, Name::And { .. })
}

// The places of all gates that are needed, descending.
fn gate_places(alloc: Global, log: &Log, roots: Pending) -> Result<Vec<u64>, Memory>
    requires { (p : ℕ) → is_pending roots p ≡ true → IsGatePlace log.now.entries p }
    ensures { IfOk result (λ places. AreGatePlaces log.now.entries roots places.items) }
{
    let mut pending = roots;
    let mut places = Vec::new(alloc);
    while let Some(place) = pending.pop() {
        want_sides(log, place as usize, &mut pending)?;
        places.push(place)?;
    }
    Ok(places)
}

// Adds the sides of the gate at a place.
fn want_sides(log: &Log, place: usize, pending: &mut Pending) -> Result<(), Memory>
    requires { IsGatePlace log.now.entries place }
    ensures { OnOk result (WantsSides log.now.entries place pending.old pending.new) }
{
    log.every_log_is_lawful();
    let (_, name) = log.name_at(place);
    if let Name::And { left, right } = name {
        want(log, left.var(), pending)?;
        want(log, right.var(), pending)?;
    }
    Ok(())
}

// The variables of these places.
fn variables_at(alloc: Global, log: &Log, places: &[u64]) -> Result<NumberSet, Memory>
    requires ascending { AllPairs (λ p q. p < q) places.now }
    requires named { All (IsGatePlace log.now.entries) places.now }
    ensures { IfOk result (AreVariablesAt log.now.entries places.now) }
{
    log.every_log_is_lawful();
    let mut variables = NumberSet::new(alloc);
    for place in places {
        variables.push(log.name_at(*place as usize).0)?;
    }
    Ok(variables)
}
