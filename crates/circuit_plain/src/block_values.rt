//! A circuit's values under 256 rows at once.

ghost use Rattle.std.specs.Prelude.{◌≡◌, ◌<◌, ◌≤◌, ◌%◌, ◌⊎◌, ◌&&◌, ℕ, Bool, false, [], length, All};
ghost use Rattle.circuit_plain.specs.Blocks.{lane_bit, block_bits, row_number, number_bits, placed_bits};
ghost use Rattle.circuit_plain.specs.Steps.{GivesValues};
ghost use Rattle.circuit_plain.specs.Netlist.{IsDefined, literal_variable, literal_bit};
ghost use Rattle.circuit_plain.specs.Order.{IsOrder};
ghost use Rattle.circuit_plain.specs.Value.{HasValue, IsValuation};

use crate::blocks::{Block, literal_lanes};
use crate::circuits::{Circuit, Gate};
use crate::lanes::{both, pattern};
use crate::orders::Order;
use std::simd::u64x4;

// The places of the inputs' bits in a row's number, where the inputs stand in their own order.
const IN_ORDER: [usize; 20] = [
    0, 1, 2, 3, 4, 5, 6, 7, 8, 9, 10, 11, 12, 13, 14, 15, 16, 17, 18, 19,
];

impl Circuit {
    /// Writes the values of the constant 0 and of each input and gate under the 256 rows whose
    /// numbers begin with `first`: bit b of lane l is that under row `first + 64 l + b`. The input
    /// at place i has bit i of a row's number, and the number's bits above count for nothing. What
    /// stood in `values` before counts for nothing either. It takes no memory.
    pub fn eval_block(&self, order: &Order, first: u64, values: &mut Block)
        requires ordered { IsOrder self.now order.now }
        requires few { length self.now.inputs ≤ 20 }
        requires whole { first % 256 ≡ 0 }
        requires a_place_a_variable { self.now.max_var < length values.old }
        ensures same_length { length values.new ≡ length values.old }
        ensures value { (l b v : ℕ) → l < 4 → b < 64 → (v ≡ 0) ⊎ IsDefined self.now v
            → HasValue self.now (number_bits (row_number first l b)) v
            (block_bits values.new l b v) }
        ensures valuation { (l b : ℕ) → l < 4 → b < 64
            → IsValuation self.now (number_bits (row_number first l b))
            (block_bits values.new l b) }
    {
        let inputs = self.inputs().len();
        self.eval_block_by(order, &IN_ORDER[..inputs], first, values);
    }

    /// The same where the input at place i has another bit of a row's number: that at `places[i]`.
    pub fn eval_block_by(&self, order: &Order, places: &[usize], first: u64, values: &mut Block)
        requires ordered { IsOrder self.now order.now }
        requires a_place_an_input { length places.now ≡ length self.now.inputs }
        requires places_fit { All (λ place. place < 20) places.now }
        requires whole { first % 256 ≡ 0 }
        requires a_place_a_variable { self.now.max_var < length values.old }
        ensures same_length { length values.new ≡ length values.old }
        ensures value { (l b v : ℕ) → l < 4 → b < 64 → (v ≡ 0) ⊎ IsDefined self.now v
            → HasValue self.now (placed_bits places.now (row_number first l b)) v
            (block_bits values.new l b v) }
        ensures valuation { (l b : ℕ) → l < 4 → b < 64
            → IsValuation self.now (placed_bits places.now (row_number first l b))
            (block_bits values.new l b) }
    {
        // A look at a field shows the invariant.
        let _ = &self.gates;
        values.set(0, u64x4::splat(0));
        self.write_patterns(places, first, values);
        self.write_gate_lanes(order, values);
    }

    // Writes the inputs' bits.
    fn write_patterns(&self, places: &[usize], first: u64, values: &mut Block)
        requires a_place_an_input { length places.now ≡ length self.now.inputs }
        requires places_fit { All (λ place. place < 20) places.now }
        requires whole { first % 256 ≡ 0 }
        requires a_place_a_variable { self.now.max_var < length values.old }
        requires constant { (l b : ℕ) → l < 4 → b < 64 → block_bits values.old l b 0 ≡ false }
        ensures same_length { length values.new ≡ length values.old }
        ensures value { (l b : ℕ) → l < 4 → b < 64
            → GivesValues self.now (placed_bits places.now (row_number first l b))
            (block_bits values.new l b) [] }
    {
        for (i, variable) in self.inputs.iter().enumerate() {
            values.set(*variable, pattern(places[i], first));
        }
    }

    // Writes the gates' values, over those of the constant and the inputs.
    fn write_gate_lanes(&self, order: &Order, values: &mut Block)
        requires ordered { IsOrder self.now order.now }
        requires a_place_a_variable { self.now.max_var < length values.old }
        ensures same_length { length values.new ≡ length values.old }
        ensures value { (l b : ℕ) → l < 4 → b < 64 → (bits : ℕ → Bool)
            → GivesValues self.now bits (block_bits values.old l b) []
            → GivesValues self.now bits (block_bits values.new l b) order.now }
    {
        for place in order.places() {
            let gate = self.gates[*place];
            let lanes = gate_lanes(&gate, values);
            values.set(gate.variable, lanes);
        }
    }
}

// The conjunction of a gate's right sides.
fn gate_lanes(gate: &Gate, values: &Block) -> u64x4
    requires left { literal_variable gate.now.left < length values.now }
    requires right { literal_variable gate.now.right < length values.now }
    ensures four { length result ≡ 4 }
    ensures bits { (l b : ℕ) → l < 4 → b < 64 → let m = block_bits values.now l b in
        lane_bit result l b ≡ (literal_bit m gate.now.left && literal_bit m gate.now.right) }
{
    both(
        literal_lanes(values, gate.left),
        literal_lanes(values, gate.right),
    )
}
