//! Walks through what outputs read, one after another: each visits the cone that is there. A walk
//! goes on where the last one ended if both existentials have one dependency set, and visits nothing
//! twice.
//!
//! Other outputs are walked one by one as long as their cones are short. What was come to is a
//! list, and a variable's slot holds its place there (P. Briggs, L. Torczon, "An efficient
//! representation for sparse sets", 1993), so that a walk is forgotten by two numbers. A batch that
//! walks don't settle has one pass for 64 outputs at a time, a bit for each in every word; only the
//! last look, one by one, names who reads what.

ghost use Rattle.std.specs.Prelude.{◌≡◌, ◌<◌, ◌≤◌, ◌⊎◌, ◌+◌, ℕ, true, false, List, length, slice_index, All, Contains, IsSome, IfOk, Some};
ghost use Rattle.dq_lits.specs.Formula.{Existential, Dqbf, existential_of};
ghost use Rattle.circuit_plain.specs.declared.circuits.Gate.{Gate};
ghost use Rattle.circuit_plain.specs.Netlist.{Netlist, left_variable, right_variable};
ghost use Rattle.skolem_checker.specs.Reads.{HaveOutputs, root_of};
ghost use Rattle.skolem_checker.specs.Cones.{IsBegun, IsSeen, IsTested, IsMember, Passes, IsClean, IsCone, Grows, ReachesAlone, AreAlone};

use crate::tables::zeros;
use crate::tested::Tested;
use crate::words::has_bit;
use circuit_plain::Circuit;
use dq_formula::Formula;
use dq_lits::Memory;
use std::alloc::Global;

/// The variables that walks came to. A variable is among them if its slot holds its place here, so
/// that they are forgotten all at once, whatever the slots hold.
#[derive(Drop)]
pub(crate) struct Cone {
    /// The variables, in the order in which walks came to them.
    pub members: Vec<u64>,
    /// The place of the first one that counts.
    pub start: usize,
    /// How many there are.
    pub end: usize,
    /// The existential for whose output the last walk was.
    pub last: u64,
}

impl Cone {
    /// None, with room for so many.
    pub(crate) fn new(alloc: Global, room: usize) -> Result<Cone, Memory>
        ensures { IfOk result (λ cone. cone.start ≡ 0) }
    {
        Ok(Cone {
            members: zeros(alloc, room)?,
            start: 0,
            end: 0,
            last: 0,
        })
    }
}

// Whether a walk came to this variable.
fn has(slots: &[u64], cone: &Cone, v: u64) -> bool
    requires in_range { v < length slots.now }
    requires room { cone.now.end ≤ length cone.now.members.items }
    ensures { result ≡ true → IsMember slots.now cone.now v }
{
    let slot = slots[v as usize] as usize;
    if slot < cone.start {
        return false;
    }
    if slot >= cone.end {
        return false;
    }
    cone.members[slot] == v
}

// Comes to a variable; there may be no room.
fn add(v: u64, slots: &mut [u64], cone: &mut Cone) -> bool
    requires in_range { v < length slots.old }
    requires begun { IsBegun cone.old }
    ensures grows { Grows slots.old slots.new cone.old cone.new }
    ensures member { result ≡ true → IsMember slots.new cone.new v }
{
    if has(slots, cone, v) {
        return true;
    }
    if cone.end >= cone.members.len() {
        return false;
    }
    cone.members[cone.end] = v;
    slots[v as usize] = cone.end as u64;
    cone.end += 1;
    true
}

// The variables that a gate reads, of a circuit whose inputs are numbered from 1 on and whose gates
// behind them; none if the variable is no gate's.
fn sides_of(circuit: &Circuit, v: u64) -> Option<(u64, u64)>
    ensures { (left right : ℕ) → result ≡ Some (left, right) → (g : Gate)
        × Contains circuit.now.gates g × (g.variable ≡ v) × (left_variable g ≡ left)
        × (right_variable g ≡ right) }
{
    let first = circuit.inputs().len() as u64 + 1;
    if v < first {
        return None;
    }
    let place = (v - first) as usize;
    if place >= circuit.gates() {
        return None;
    }
    let (gate, left, right) = circuit.gate(place);
    if gate / 2 != v {
        return None;
    }
    Some((left / 2, right / 2))
}

// The universal for which an input stands, of such a circuit.
fn universal_of(circuit: &Circuit, by_input: &[u64], v: u64) -> Option<u64>
    requires { length by_input.now ≡ length circuit.now.inputs }
    ensures { (x : ℕ) → result ≡ Some x → (i : ℕ) × (i < length circuit.now.inputs)
        × (slice_index circuit.now.inputs i ≡ v) × (slice_index by_input.now i ≡ x) }
{
    let inputs = circuit.inputs();
    if v == 0 {
        return None;
    }
    let place = (v - 1) as usize;
    if place >= inputs.len() {
        return None;
    }
    if inputs[place] != v {
        return None;
    }
    Some(by_input[place])
}

// Comes to both variables that a gate reads.
fn add_sides(left: u64, right: u64, slots: &mut [u64], cone: &mut Cone) -> bool
    requires left_in_range { left < length slots.old }
    requires right_in_range { right < length slots.old }
    requires begun { IsBegun cone.old }
    ensures grows { Grows slots.old slots.new cone.old cone.new }
    ensures left { result ≡ true → IsMember slots.new cone.new left }
    ensures right { result ≡ true → IsMember slots.new cone.new right }
{
    if !add(left, slots, cone) {
        return false;
    }
    add(right, slots, cone)
}

// Whether a variable that is no gate is the constant, or stands for a universal that the
// existential sees.
fn is_seen(tested: &Tested, y: u64, v: u64) -> bool
    requires declared { IsSome (existential_of tested.now.formula.now y) }
    requires a_universal_an_input { length tested.now.by_input.now
        ≡ length tested.now.circuit.now.inputs }
    ensures { result ≡ true → (e : Existential) → existential_of tested.now.formula.now y ≡ Some e
        → IsSeen tested.now.circuit.now tested.now.by_input.now e.sees v }
{
    match universal_of(tested.circuit, tested.by_input, v) {
        Some(x) => tested.formula.sees(y, x),
        None => v == 0,
    }
}

// Comes to what a variable reads next; whether there is room, and an input is seen.
fn visit(tested: &Tested, y: u64, v: u64, slots: &mut [u64], cone: &mut Cone) -> bool
    requires declared { IsSome (existential_of tested.now.formula.now y) }
    requires a_slot_a_variable { length slots.old ≡ tested.now.circuit.now.max_var + 1 }
    requires tested { IsTested tested.now }
    requires begun { IsBegun cone.old }
    ensures grows { Grows slots.old slots.new cone.old cone.new }
    ensures passes { result ≡ true → (e : Existential)
        → existential_of tested.now.formula.now y ≡ Some e
        → Passes tested.now.circuit.now tested.now.literals.now
        tested.now.formula.now.universals e.sees slots.new cone.new v }
{
    tested.circuit.every_circuit_is_a_netlist();
    match sides_of(tested.circuit, v) {
        Some((left, right)) => add_sides(left, right, slots, cone),
        None => is_seen(tested, y, v),
    }
}

// Walks on from the member at a place, where all before it pass.
fn walk(tested: &Tested, y: u64, from: usize, slots: &mut [u64], cone: &mut Cone) -> bool
    requires declared { IsSome (existential_of tested.now.formula.now y) }
    requires a_slot_a_variable { length slots.old ≡ tested.now.circuit.now.max_var + 1 }
    requires tested { IsTested tested.now }
    requires begun { IsBegun cone.old }
    requires from { from ≤ cone.old.end }
    requires clean { (e : Existential) → existential_of tested.now.formula.now y ≡ Some e
        → IsClean tested.now.circuit.now tested.now.literals.now
        tested.now.formula.now.universals e.sees slots.old cone.old from }
    ensures grows { Grows slots.old slots.new cone.old cone.new }
    ensures clean { result ≡ true → (e : Existential)
        → existential_of tested.now.formula.now y ≡ Some e
        → IsClean tested.now.circuit.now tested.now.literals.now
        tested.now.formula.now.universals e.sees slots.new cone.new cone.new.end }
{
    for place in from..cone.members.len() {
        if place >= cone.end {
            return true;
        }
        let v = cone.members[place];
        if !visit(tested, y, v, slots, cone) {
            return false;
        }
    }
    true
}

/// Forgets all that walks came to.
pub(crate) fn forget(cone: &mut Cone)
    ensures { (f : Dqbf) (net : Netlist) (literals slots : List ℕ)
        → IsCone f net literals slots cone.new }
{
    cone.start = 0;
    cone.end = 0;
}

// Where the members begin that count for an existential: those of the last walk do if both have one
// dependency set.
fn start_for(f: &Formula, y: u64, cone: &Cone) -> usize
    requires declared { IsSome (existential_of f.now y) }
    requires last { cone.now.start < cone.now.end → IsSome (existential_of f.now cone.now.last) }
    ensures start { (cone.now.end ≤ result) ⊎ ((result ≡ cone.now.start)
        × ((d e : Existential) → existential_of f.now cone.now.last ≡ Some d
        → existential_of f.now y ≡ Some e → d.sees ≡ e.sees)) }
    ensures within { cone.now.start ≤ cone.now.end → result ≤ cone.now.end }
{
    if cone.start >= cone.end {
        return cone.start;
    }
    if f.have_one_set(cone.last, y) {
        return cone.start;
    }
    cone.end
}

// Forgets what the last walk came to, unless it was for the same dependency set.
fn turn_to(f: &Formula, y: u64, cone: &mut Cone)
    requires declared { IsSome (existential_of f.now y) }
    requires last { cone.old.start < cone.old.end → IsSome (existential_of f.now cone.old.last) }
    ensures last { cone.new.last ≡ y }
    ensures cone { (net : Netlist) (literals slots : List ℕ)
        → IsCone f.now net literals slots cone.old → IsCone f.now net literals slots cone.new }
{
    cone.start = start_for(f, y, cone);
    cone.last = y;
}

// Whether a walk finds that universals alone are reached from a root that the existential sees.
fn is_walked(tested: &Tested, root: u64, y: u64, slots: &mut [u64], cone: &mut Cone) -> bool
    requires declared { IsSome (existential_of tested.now.formula.now y) }
    requires in_range { root < length slots.old }
    requires a_slot_a_variable { length slots.old ≡ tested.now.circuit.now.max_var + 1 }
    requires tested { IsTested tested.now }
    requires cone { IsCone tested.now.formula.now tested.now.circuit.now tested.now.literals.now
        slots.old cone.old }
    ensures same_length { length slots.new ≡ length slots.old }
    ensures cone { result ≡ true → IsCone tested.now.formula.now tested.now.circuit.now
        tested.now.literals.now slots.new cone.new }
    ensures alone { result ≡ true → (e : Existential)
        → existential_of tested.now.formula.now y ≡ Some e
        → ReachesAlone tested.now.circuit.now tested.now.literals.now
        tested.now.formula.now.universals root e.sees }
{
    turn_to(tested.formula, y, cone);
    let from = cone.end;
    if !add(root, slots, cone) {
        return false;
    }
    walk(tested, y, from, slots, cone)
}

// Whether an existential's output is known to read declared universals alone, or a walk finds it.
fn is_alone(
    tested: &Tested,
    places: &[u64],
    y: u64,
    known: bool,
    slots: &mut [u64],
    cone: &mut Cone,
) -> bool
    requires declared { IsSome (existential_of tested.now.formula.now y) }
    requires a_slot_a_variable { length slots.old ≡ tested.now.circuit.now.max_var + 1 }
    requires tested { IsTested tested.now }
    requires place_fits { y < length places.now }
    requires output_fits { slice_index places.now y < length tested.now.circuit.now.outputs }
    requires cone { IsCone tested.now.formula.now tested.now.circuit.now tested.now.literals.now
        slots.old cone.old }
    ensures same_length { length slots.new ≡ length slots.old }
    ensures cone { result ≡ true → IsCone tested.now.formula.now tested.now.circuit.now
        tested.now.literals.now slots.new cone.new }
    ensures alone { result ≡ true → known ≡ false → (e : Existential)
        → existential_of tested.now.formula.now y ≡ Some e
        → ReachesAlone tested.now.circuit.now tested.now.literals.now
        tested.now.formula.now.universals
        (root_of tested.now.circuit.now places.now y) e.sees }
{
    if known {
        return true;
    }
    tested.circuit.every_circuit_is_a_netlist();
    let out = places[y as usize] as usize;
    let root = tested.circuit.outputs()[out] / 2;
    is_walked(tested, root, y, slots, cone)
}

/// Whether walks find that the outputs of these existentials read declared universals alone, but
/// for those that have a bit. It says no where one doesn't, and where there is no room for a walk.
pub(crate) fn are_walked(
    tested: &Tested,
    places: &[u64],
    ys: &[u64],
    settled: u64,
    slots: &mut [u64],
    cone: &mut Cone,
) -> bool
    requires declared { All (λ y. IsSome (existential_of tested.now.formula.now y)) ys.now }
    requires few { length ys.now ≤ 64 }
    requires a_slot_a_variable { length slots.old ≡ tested.now.circuit.now.max_var + 1 }
    requires tested { IsTested tested.now }
    requires outputs { HaveOutputs tested.now.circuit.now places.now ys.now }
    requires cone { IsCone tested.now.formula.now tested.now.circuit.now tested.now.literals.now
        slots.old cone.old }
    ensures same_length { length slots.new ≡ length slots.old }
    ensures cone { result ≡ true → IsCone tested.now.formula.now tested.now.circuit.now
        tested.now.literals.now slots.new cone.new }
    ensures alone { result ≡ true → AreAlone tested.now.circuit.now tested.now.literals.now
        places.now tested.now.formula.now ys.now settled (length ys.now) }
{
    for (i, y) in ys.iter().enumerate() {
        let known = has_bit(settled, i);
        if !is_alone(tested, places, *y, known, slots, cone) {
            return false;
        }
    }
    true
}
