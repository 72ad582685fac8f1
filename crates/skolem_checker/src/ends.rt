//! How far the universals reach that an output reads: where an existential sees the universals up
//! to a place, the last one that its output reads tells whether it reads declared ones alone. One
//! pass through the circuit finds that for all outputs.

ghost use Rattle.std.specs.Prelude.{◌≡◌, ◌<◌, ◌≤◌, ◌+◌, ◌*◌, ℕ, true, length, slice_index, All, IsSome, Some};
ghost use Rattle.dq_lits.specs.Formula.{Existential, existential_of};
ghost use Rattle.circuit_plain.specs.Order.{IsOrder};
ghost use Rattle.skolem_checker.specs.Cones.{AreEnds, AreClosed, IsTested, ReachesAlone, AreSettled, circuit_variable};
ghost use Rattle.skolem_checker.specs.Reads.{HaveOutputs};
ghost use Rattle.skolem_checker.specs.Tables.{HasLiteral};

use crate::tested::Tested;
use crate::words::{clear, set_bit};
use circuit_plain::{Circuit, Order};
use dq_formula::{Deps, Formula};

// At each universal's variable, the place behind it.
fn mark_universals(f: &Formula, literals: &[u64], ends: &mut [u64])
    requires fit { All (HasLiteral literals.now (length ends.old)) f.now.universals }
    ensures same_length { length ends.new ≡ length ends.old }
{
    for (q, x) in f.universals().iter().enumerate() {
        ends[(literals[*x as usize] / 2) as usize] = q as u64 + 1;
    }
}

// Along the order, has each gate take the larger number of what it reads.
fn raise(circuit: &Circuit, order: &Order, ends: &mut [u64])
    requires ordered { IsOrder circuit.now order.now }
    requires a_number_a_variable { length ends.old ≡ circuit.now.max_var + 1 }
    ensures same_length { length ends.new ≡ length ends.old }
{
    circuit.every_circuit_is_a_netlist();
    for place in order.places() {
        let (gate, left, right) = circuit.gate(*place);
        let end = ends[(left / 2) as usize].max(ends[(right / 2) as usize]);
        ends[(gate / 2) as usize] = end;
    }
}

// Whether no gate's number is below those of what it reads.
fn are_closed(circuit: &Circuit, ends: &[u64]) -> bool
    requires a_number_a_variable { length ends.now ≡ circuit.now.max_var + 1 }
    ensures { result ≡ true → AreClosed circuit.now ends.now }
{
    circuit.every_circuit_is_a_netlist();
    for i in 0..circuit.gates() {
        let (gate, left, right) = circuit.gate(i);
        let end = ends[(gate / 2) as usize];
        if ends[(left / 2) as usize] > end {
            return false;
        }
        if ends[(right / 2) as usize] > end {
            return false;
        }
    }
    true
}

// Whether each universal's number is above its place.
fn are_above(f: &Formula, literals: &[u64], ends: &[u64]) -> bool
    requires fit { All (HasLiteral literals.now (length ends.now)) f.now.universals }
    ensures { result ≡ true → (q : ℕ) → q < length f.now.universals → q
        < slice_index ends.now
        (circuit_variable literals.now (slice_index f.now.universals q)) }
{
    for (q, x) in f.universals().iter().enumerate() {
        if ends[(literals[*x as usize] / 2) as usize] <= q as u64 {
            return false;
        }
    }
    true
}

// Writes the place behind the last universal that each variable reaches, and 0 where there is
// none; then tests that no number is too small, which alone counts.
fn mark_ends(tested: &Tested, ends: &mut [u64]) -> bool
    requires ordered { IsOrder tested.now.circuit.now tested.now.order.now }
    requires fit { All (HasLiteral tested.now.literals.now (length ends.old))
        tested.now.formula.now.universals }
    requires a_number_a_variable { length ends.old ≡ tested.now.circuit.now.max_var + 1 }
    ensures same_length { length ends.new ≡ length ends.old }
    ensures ends { result ≡ true → AreEnds tested.now.circuit.now tested.now.literals.now
        tested.now.formula.now.universals ends.new }
{
    clear(ends);
    mark_universals(tested.formula, tested.literals, ends);
    raise(tested.circuit, tested.order, ends);
    are_closed(tested.circuit, ends) && are_above(tested.formula, tested.literals, ends)
}

// Whether an existential's output reads declared universals alone, as far as the last one tells.
fn ends_before(tested: &Tested, ends: &[u64], root: u64, y: u64) -> bool
    requires declared { IsSome (existential_of tested.now.formula.now y) }
    requires in_range { root < length ends.now }
    requires ends { AreEnds tested.now.circuit.now tested.now.literals.now
        tested.now.formula.now.universals ends.now }
    ensures { result ≡ true → (e : Existential) → existential_of tested.now.formula.now y ≡ Some e
        → ReachesAlone tested.now.circuit.now tested.now.literals.now
        tested.now.formula.now.universals root e.sees }
{
    let end = ends[root as usize];
    match tested.formula.deps_of(y) {
        Deps::FirstOf(n) => end as usize <= *n,
        Deps::Listed(_) => end == 0,
    }
}

// Sets the bits of those of which the numbers tell it.
fn settle(tested: &Tested, places: &[u64], ys: &[u64], ends: &[u64], settled: &mut [u64])
    requires declared { All (λ y. IsSome (existential_of tested.now.formula.now y)) ys.now }
    requires ends { AreEnds tested.now.circuit.now tested.now.literals.now
        tested.now.formula.now.universals ends.now }
    requires a_number_a_variable { length ends.now ≡ tested.now.circuit.now.max_var + 1 }
    requires outputs { HaveOutputs tested.now.circuit.now places.now ys.now }
    requires words { length ys.now ≤ 64 * length settled.old }
    requires before { AreSettled tested.now.circuit.now tested.now.literals.now places.now
        tested.now.formula.now ys.now settled.old (length ys.now) }
    ensures settled_length { length settled.new ≡ length settled.old }
    ensures settled { AreSettled tested.now.circuit.now tested.now.literals.now places.now
        tested.now.formula.now ys.now settled.new (length ys.now) }
{
    tested.circuit.every_circuit_is_a_netlist();
    for (p, y) in ys.iter().enumerate() {
        let out = places[*y as usize] as usize;
        let root = tested.circuit.outputs()[out] / 2;
        if ends_before(tested, ends, root, *y) {
            set_bit(settled, p / 64, p % 64);
        }
    }
}

/// Sets the bit of each of these existentials of which the last universal that its output reads
/// tells that it reads declared ones alone.
pub(crate) fn settle_by_ends(
    tested: &Tested,
    places: &[u64],
    ys: &[u64],
    ends: &mut [u64],
    settled: &mut [u64],
)
    requires tested { IsTested tested.now }
    requires declared { All (λ y. IsSome (existential_of tested.now.formula.now y)) ys.now }
    requires a_number_a_variable { length ends.old ≡ tested.now.circuit.now.max_var + 1 }
    requires outputs { HaveOutputs tested.now.circuit.now places.now ys.now }
    requires words { length ys.now ≤ 64 * length settled.old }
    ensures ends_length { length ends.new ≡ length ends.old }
    ensures settled_length { length settled.new ≡ length settled.old }
    ensures settled { AreSettled tested.now.circuit.now tested.now.literals.now places.now
        tested.now.formula.now ys.now settled.new (length ys.now) }
{
    clear(settled);
    if mark_ends(tested, ends) {
        settle(tested, places, ys, ends, settled);
    }
}
