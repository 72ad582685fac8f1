//! The values of a netlist's variables under a row of its inputs.

ghost use Rattle.std.specs.Prelude.{◌≡◌, ◌+◌, ◌<◌, ◌⊎◌, ◌&&◌, ℕ, Bool, false, [], length};
ghost use Rattle.dq_lits.specs.Row.{bit_of};
ghost use Rattle.circuit_plain.specs.Steps.{GivesValues};
ghost use Rattle.circuit_plain.specs.Netlist.{IsDefined, literal_variable, literal_bit};
ghost use Rattle.circuit_plain.specs.Order.{IsOrder};
ghost use Rattle.circuit_plain.specs.Value.{HasValue, IsValuation};

use crate::circuits::{Circuit, Gate};
use crate::orders::Order;
use dq_lits::Row;

/// The bit of a literal, where variable v has the bit at place v; the constant's bit at place 0 is
/// false after [`Circuit::eval`].
pub fn literal_bit(values: &Row, lit: u64) -> bool
    requires { literal_variable lit < length values.now }
    ensures { result ≡ literal_bit (bit_of values.now) lit }
{
    values.get((lit / 2) as usize) != (lit % 2 == 1)
}

impl Circuit {
    /// Writes the value of the constant 0 and of each input and gate under `row`, which has the bit
    /// of input i at place i; variable v has place v in `values`. Whatever stood there before
    /// counts for nothing, and the places of other variables are left open. It takes no memory.
    pub fn eval(&self, order: &Order, row: &Row, values: &mut Row)
        requires ordered { IsOrder self.now order.now }
        requires a_bit_an_input { length row.now ≡ length self.now.inputs }
        requires a_place_a_variable { length values.old ≡ self.now.max_var + 1 }
        ensures same_length { length values.new ≡ length values.old }
        ensures value { (v : ℕ) → (v ≡ 0) ⊎ IsDefined self.now v
            → HasValue self.now (bit_of row.now) v (bit_of values.new v) }
        ensures valuation { IsValuation self.now (bit_of row.now) (bit_of values.new) }
    {
        // A look at a field shows the invariant.
        let _ = &self.gates;
        values.set(0, false);
        self.write_inputs(row, values);
        self.write_gates(order, values);
    }

    // Writes the inputs' bits.
    fn write_inputs(&self, row: &Row, values: &mut Row)
        requires a_bit_an_input { length row.now ≡ length self.now.inputs }
        requires a_place_a_variable { length values.old ≡ self.now.max_var + 1 }
        requires constant { bit_of values.old 0 ≡ false }
        ensures same_length { length values.new ≡ length values.old }
        ensures value { GivesValues self.now (bit_of row.now) (bit_of values.new) [] }
    {
        for (place, variable) in self.inputs.iter().enumerate() {
            values.set(*variable as usize, row.get(place));
        }
    }

    // Writes the gates' values, over those of the constant and the inputs.
    fn write_gates(&self, order: &Order, values: &mut Row)
        requires ordered { IsOrder self.now order.now }
        requires a_place_a_variable { length values.old ≡ self.now.max_var + 1 }
        ensures same_length { length values.new ≡ length values.old }
        ensures value { (bits : ℕ → Bool) → GivesValues self.now bits (bit_of values.old) []
            → GivesValues self.now bits (bit_of values.new) order.now }
    {
        for place in order.places() {
            let gate = self.gates[*place];
            let bit = gate_bit(&gate, values);
            values.set(gate.variable as usize, bit);
        }
    }
}

// The conjunction of a gate's right sides.
fn gate_bit(gate: &Gate, values: &Row) -> bool
    requires left { literal_variable gate.now.left < length values.now }
    requires right { literal_variable gate.now.right < length values.now }
    ensures { let m = bit_of values.now in
        result ≡ (literal_bit m gate.now.left && literal_bit m gate.now.right) }
{
    literal_bit(values, gate.left) && literal_bit(values, gate.right)
}
