//! What the outputs read. One pass through the circuit settles the outputs of which the last
//! universal that they read tells that all are declared. The others are taken 64 at a time: a walk
//! for each through what it reads, as long as these are short, else one pass for all 64, with a bit
//! for each. A test of whole words then tells where none of them reads what its existential may not
//! see, and only where that fails are they looked at one by one.

ghost use Rattle.std.specs.Prelude.{◌≡◌, ◌+◌, ◌*◌, ◌<◌, ◌≤◌, ℕ, Some, length, slice_index, All, IsSome, MatchOption, IfOk};
ghost use Rattle.dq_lits.specs.Formula.{Existential, existential_of};
ghost use Rattle.dq_formula.specs.Prefix.{existential_variables};
ghost use Rattle.circuit_plain.specs.Order.{IsOrder};
ghost use Rattle.circuit_plain.specs.Words.{marked};
ghost use Rattle.skolem_checker.specs.Checks.{IsFirstRead, IsReadsAnswer};
ghost use Rattle.skolem_checker.specs.Cones.{AreKnown, AreSettled, IsCone, IsTested};
ghost use Rattle.skolem_checker.specs.Reads.{HasWords, HaveOutputs, AreRoots, AreReached, IsDeclared, AreDeclared, IsFirstIn, IsBatchAnswer};
ghost use Rattle.skolem_checker.specs.Tables.{ReadsByTables, ReadsByMarks, HasLiteral};

use crate::cones::{Cone, are_walked, forget};
use crate::ends::settle_by_ends;
use crate::sights::{all_see_all, are_declared};
use crate::tables::zeros;
use crate::tested::Tested;
use crate::words::{bit, clear, set_bit};
use circuit_plain::{Circuit, Order};
use dq_formula::Formula;
use dq_lits::Memory;
use std::alloc::Global;

/// Room for 64 outputs at a time, a bit for each in every word.
#[derive(Drop)]
pub(crate) struct ReadWords {
    /// By batch of 64: which outputs are known to read declared universals alone.
    pub settled: Vec<u64>,
    /// What the walks came to.
    pub cone: Cone,
    /// By variable of the circuit: how far the universals reach that it reads, then its slot in
    /// walks, or which outputs reach it.
    pub reached: Vec<u64>,
    /// By place of a universal: which dependency sets list it.
    pub listed: Vec<u64>,
    /// By number of universals: which dependency sets are the first so many of them.
    pub stops: Vec<u64>,
}

impl ReadWords {
    /// Takes the room.
    pub(crate) fn new(alloc: Global, f: &Formula, circuit: &Circuit) -> Result<ReadWords, Memory>
        ensures { IfOk result (HasWords circuit.now f.now) }
    {
        circuit.every_circuit_is_a_netlist();
        let universals = f.universals().len();
        Ok(ReadWords {
            settled: zeros(alloc, f.existentials().len().div_ceil(64))?,
            cone: Cone::new(alloc, walk_room(f, circuit))?,
            reached: zeros(alloc, circuit.max_var() as usize + 1)?,
            listed: zeros(alloc, universals)?,
            stops: zeros(alloc, universals + 1)?,
        })
    }
}

// For how many variables there is room in walks. A pass for a batch takes a step for each variable
// of the circuit, a walk some more for each that it comes to: passes alone where these are few, else
// no pass before the walks came to an eighth of the variables.
fn walk_room(f: &Formula, circuit: &Circuit) -> usize {
    if f.existentials().len() <= 8 * 64 {
        return 0;
    }
    circuit.max_var() as usize / 8
}

// The first universal that is marked at a bit and that an existential may not see.
fn first_undeclared(f: &Formula, literals: &[u64], words: &[u64], i: usize, y: u64) -> Option<u64>
    requires declared { IsSome (existential_of f.now y) }
    requires bit { i < 64 }
    requires fit { All (HasLiteral literals.now (length words.now)) f.now.universals }
    ensures { (e : Existential) → existential_of f.now y ≡ Some e
        → MatchOption result (IsDeclared f.now literals.now words.now i e)
        (IsFirstRead (ReadsByMarks (marked words.now i) literals.now) f.now e) }
{
    for x in f.universals() {
        let variable = literals[*x as usize] / 2;
        if bit(words, variable as usize, i) && !f.sees(y, *x) {
            return Some(*x);
        }
    }
    None
}

// The first of these existentials that reads an undeclared universal by its marks, and the first
// such universal.
fn first_read_one_by_one(
    f: &Formula,
    literals: &[u64],
    ys: &[u64],
    words: &[u64],
) -> Option<(usize, u64)>
    requires declared { All (λ y. IsSome (existential_of f.now y)) ys.now }
    requires few { length ys.now ≤ 64 }
    requires fit { All (HasLiteral literals.now (length words.now)) f.now.universals }
    ensures { MatchOption result (AreDeclared f.now literals.now ys.now words.now)
        (λ read. IsFirstIn f.now literals.now ys.now words.now read.0 read.1) }
{
    for (i, y) in ys.iter().enumerate() {
        if let Some(x) = first_undeclared(f, literals, words, i, *y) {
            return Some((i, x));
        }
    }
    None
}

// The same, where whole words are looked at first.
fn first_read(tested: &Tested, ys: &[u64], words: &mut ReadWords) -> Option<(usize, u64)>
    requires declared { All (λ y. IsSome (existential_of tested.now.formula.now y)) ys.now }
    requires few { length ys.now ≤ 64 }
    requires fit { All (HasLiteral tested.now.literals.now (length words.old.reached.items))
        tested.now.formula.now.universals }
    requires listed_words { length words.old.listed.items
        ≡ length tested.now.formula.now.universals }
    requires stops_words { length words.old.stops.items
        ≡ length tested.now.formula.now.universals + 1 }
    ensures reached { length words.new.reached.items ≡ length words.old.reached.items }
    ensures listed { length words.new.listed.items ≡ length words.old.listed.items }
    ensures stops { length words.new.stops.items ≡ length words.old.stops.items }
    ensures settled { words.new.settled.items ≡ words.old.settled.items }
    ensures answer { MatchOption result
        (AreDeclared tested.now.formula.now tested.now.literals.now ys.now words.old.reached.items)
        (λ read. IsFirstIn tested.now.formula.now tested.now.literals.now ys.now
        words.old.reached.items read.0 read.1) }
{
    if are_declared(
        tested,
        ys,
        &words.reached,
        &mut words.listed,
        &mut words.stops,
    ) {
        return None;
    }
    first_read_one_by_one(tested.formula, tested.literals, ys, &words.reached)
}

// Marks the roots of these existentials' outputs, each at its bit.
fn mark_roots(circuit: &Circuit, places: &[u64], ys: &[u64], words: &mut [u64])
    requires few { length ys.now ≤ 64 }
    requires a_word_a_variable { length words.old ≡ circuit.now.max_var + 1 }
    requires places_fit { All (λ y. y < length places.now) ys.now }
    requires outputs_fit { All (λ y. slice_index places.now y < length circuit.now.outputs) ys.now }
    ensures same_length { length words.new ≡ length words.old }
    ensures roots { AreRoots circuit.now places.now ys.now (length ys.now) words.new }
{
    circuit.every_circuit_is_a_netlist();
    clear(words);
    for (i, y) in ys.iter().enumerate() {
        let out = places[*y as usize] as usize;
        set_bit(words, (circuit.outputs()[out] / 2) as usize, i);
    }
}

// Marks what these existentials' outputs reach, each at its bit.
fn mark_reached(circuit: &Circuit, order: &Order, places: &[u64], ys: &[u64], words: &mut [u64])
    requires ordered { IsOrder circuit.now order.now }
    requires few { length ys.now ≤ 64 }
    requires a_word_a_variable { length words.old ≡ circuit.now.max_var + 1 }
    requires places_fit { All (λ y. y < length places.now) ys.now }
    requires outputs_fit { All (λ y. slice_index places.now y < length circuit.now.outputs) ys.now }
    ensures same_length { length words.new ≡ length words.old }
    ensures reached { AreReached circuit.now places.now ys.now words.new }
{
    mark_roots(circuit, places, ys, words);
    circuit.reach_by_words(order, words);
}

// The first of a batch of existentials whose output reaches an input for a universal that it may
// not see, and the first such universal, by a pass for all of them.
fn undeclared_by_words(
    tested: &Tested,
    places: &[u64],
    ys: &[u64],
    words: &mut ReadWords,
) -> Option<(usize, u64)>
    requires tested { IsTested tested.now }
    requires declared { All (λ y. IsSome (existential_of tested.now.formula.now y)) ys.now }
    requires few { length ys.now ≤ 64 }
    requires words { HasWords tested.now.circuit.now tested.now.formula.now words.old }
    requires outputs { HaveOutputs tested.now.circuit.now places.now ys.now }
    ensures words { HasWords tested.now.circuit.now tested.now.formula.now words.new }
    ensures settled { words.new.settled.items ≡ words.old.settled.items }
    ensures answer { IsBatchAnswer
        (ReadsByTables tested.now.circuit.now tested.now.literals.now places.now)
        tested.now.formula.now ys.now result }
{
    mark_reached(tested.circuit, tested.order, places, ys, &mut words.reached);
    first_read(tested, ys, words)
}

// The same, where those that have a bit are known to reach none, and walks are tried first.
fn undeclared_in_batch(
    tested: &Tested,
    places: &[u64],
    ys: &[u64],
    settled: u64,
    words: &mut ReadWords,
) -> Option<(usize, u64)>
    requires tested { IsTested tested.now }
    requires declared { All (λ y. IsSome (existential_of tested.now.formula.now y)) ys.now }
    requires few { length ys.now ≤ 64 }
    requires words { HasWords tested.now.circuit.now tested.now.formula.now words.old }
    requires outputs { HaveOutputs tested.now.circuit.now places.now ys.now }
    requires settled { AreKnown tested.now.circuit.now tested.now.literals.now places.now
        tested.now.formula.now ys.now settled }
    requires cone { IsCone tested.now.formula.now tested.now.circuit.now tested.now.literals.now
        words.old.reached.items words.old.cone }
    ensures words { HasWords tested.now.circuit.now tested.now.formula.now words.new }
    ensures settled { words.new.settled.items ≡ words.old.settled.items }
    ensures cone { IsCone tested.now.formula.now tested.now.circuit.now tested.now.literals.now
        words.new.reached.items words.new.cone }
    ensures answer { IsBatchAnswer
        (ReadsByTables tested.now.circuit.now tested.now.literals.now places.now)
        tested.now.formula.now ys.now result }
{
    if are_walked(
        tested,
        places,
        ys,
        settled,
        &mut words.reached,
        &mut words.cone,
    ) {
        return None;
    }
    let read = undeclared_by_words(tested, places, ys, words);
    forget(&mut words.cone);
    read
}

// The first existential whose output reaches an input for a universal that it may not see, and the
// first such universal, batch by batch.
fn undeclared_by_batches(
    tested: &Tested,
    places: &[u64],
    words: &mut ReadWords,
) -> Result<(), (u64, u64)>
    requires tested { IsTested tested.now }
    requires words { HasWords tested.now.circuit.now tested.now.formula.now words.old }
    requires outputs { HaveOutputs tested.now.circuit.now places.now
        (existential_variables tested.now.formula.now) }
    requires settled { AreSettled tested.now.circuit.now tested.now.literals.now places.now
        tested.now.formula.now (existential_variables tested.now.formula.now)
        words.old.settled.items
        (length (existential_variables tested.now.formula.now)) }
    requires cone { IsCone tested.now.formula.now tested.now.circuit.now tested.now.literals.now
        words.old.reached.items words.old.cone }
    ensures words { HasWords tested.now.circuit.now tested.now.formula.now words.new }
    ensures answer { IsReadsAnswer
        (ReadsByTables tested.now.circuit.now tested.now.literals.now places.now)
        tested.now.formula.now result }
{
    tested.formula.every_formula_is_lawful();
    let ys = tested.formula.existentials();
    for batch in 0..ys.len().div_ceil(64) {
        let start = batch * 64;
        let end = start + (ys.len() - start).min(64);
        let settled = words.settled[batch];
        let read = undeclared_in_batch(tested, places, &ys[start..end], settled, words);
        if let Some((i, x)) = read {
            return Err((ys[start + i], x));
        }
    }
    Ok(())
}

/// The first existential whose output reaches an input for a universal that it may not see, and the
/// first such universal.
pub(crate) fn undeclared_read(
    tested: &Tested,
    places: &[u64],
    words: &mut ReadWords,
) -> Result<(), (u64, u64)>
    requires tested { IsTested tested.now }
    requires words { HasWords tested.now.circuit.now tested.now.formula.now words.old }
    requires outputs { HaveOutputs tested.now.circuit.now places.now
        (existential_variables tested.now.formula.now) }
    ensures words { HasWords tested.now.circuit.now tested.now.formula.now words.new }
    ensures answer { IsReadsAnswer
        (ReadsByTables tested.now.circuit.now tested.now.literals.now places.now)
        tested.now.formula.now result }
{
    tested.formula.every_formula_is_lawful();
    let ys = tested.formula.existentials();
    if all_see_all(tested.formula, ys) {
        return Ok(());
    }
    settle_by_ends(tested, places, ys, &mut words.reached, &mut words.settled);
    forget(&mut words.cone);
    undeclared_by_batches(tested, places, words)
}
