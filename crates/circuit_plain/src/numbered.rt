//! Circuits that are numbered as many programs do: the inputs are the variables from 1 on, the gates
//! those behind them, and each gate reads variables below its own. Their gates are ordered as they
//! stand, and no set of variables is needed to see that.

ghost use Rattle.std.specs.Prelude.{◌≡◌, ◌+◌, ◌<◌, ◌==◌, ◌&&◌, ◌^◌, ◌↔◌, nat_lt, true, length, All, IfOk, IfSome, IsTrue};
ghost use Rattle.circuit_plain.specs.Ground.{IsGrounded};
ghost use Rattle.circuit_plain.specs.Netlist.{literal_variable, AreFirstNumbers, HasLeastNumbers, HaveVariablesFrom};
ghost use Rattle.circuit_plain.specs.Order.{IsOrder};

use crate::circuits::{Circuit, Gate};
use dq_lits::Memory;

impl Circuit {
    /// Whether the variables have the least numbers: the inputs are those from 1 on, the gates those
    /// behind them, both in order, and there are no others.
    pub fn has_least_numbers(&self) -> bool
        ensures { IsTrue result ↔ HasLeastNumbers self.now }
    {
        let inputs = self.inputs.len() as u64;
        self.max_var == inputs + self.gates.len() as u64
            && are_first(&self.inputs)
            && are_gates_from(&self.gates, inputs + 1)
    }

    /// The places of the gates as they stand, if the circuit is numbered so.
    pub(crate) fn places_as_numbered(&self) -> Result<Option<Vec<usize>>, Memory>
        ensures { IfOk result (λ found. IfSome found (λ places. IsOrder self.now places.items)) }
    {
        if !are_first(&self.inputs) {
            return Ok(None);
        }
        self.places_behind_inputs()
    }

    /// Whether the circuit is numbered so: then each gate can be evaluated.
    pub(crate) fn stands_as_numbered(&self) -> bool
        ensures { result ≡ true → All (λ g. IsGrounded self.now g.variable) self.now.gates }
    {
        are_first(&self.inputs) && self.gates_read_below()
    }

    // The same where the inputs are the variables from 1 on.
    fn gates_read_below(&self) -> bool
        requires { AreFirstNumbers self.now.inputs }
        ensures { result ≡ true → All (λ g. IsGrounded self.now g.variable) self.now.gates }
    {
        let first = self.inputs.len() as u64 + 1;
        for place in 0..self.gates.len() {
            if !is_next(&self.gates[place], first + place as u64) {
                return false;
            }
        }
        true
    }

    // The places where the inputs are the variables from 1 on.
    fn places_behind_inputs(&self) -> Result<Option<Vec<usize>>, Memory>
        requires { AreFirstNumbers self.now.inputs }
        ensures { IfOk result (λ found. IfSome found (λ places. IsOrder self.now places.items)) }
    {
        let first = self.inputs.len() as u64 + 1;
        let mut places = Vec::new(*self.gates.allocator());
        for place in 0..self.gates.len() {
            if !is_next(&self.gates[place], first + place as u64) {
                return Ok(None);
            }
            places.push(place)?;
        }
        Ok(Some(places))
    }
}

// Whether these are the numbers from 1 on.
fn are_first(numbers: &[u64]) -> bool
    ensures { IsTrue result ↔ AreFirstNumbers numbers.now }
{
    for k in 0..numbers.len() {
        if numbers[k] != k as u64 + 1 {
            return false;
        }
    }
    true
}

// Whether these gates have the variables from this one on.
fn are_gates_from(gates: &[Gate], first: u64) -> bool
    requires { first + length gates.now < 2 ^ 63 }
    ensures { IsTrue result ↔ HaveVariablesFrom first gates.now }
{
    for k in 0..gates.len() {
        if gates[k].variable != first + k as u64 {
            return false;
        }
    }
    true
}

// Whether a gate has this variable, and reads variables below it alone.
fn is_next(gate: &Gate, variable: u64) -> bool
    ensures { result ≡ ((gate.now.variable == variable)
        && (nat_lt (literal_variable gate.now.left) variable
        && nat_lt (literal_variable gate.now.right) variable)) }
{
    gate.variable == variable && gate.left / 2 < variable && gate.right / 2 < variable
}
