//! What an output reads, for one output or many at once.

ghost use Rattle.std.specs.Prelude.{◌≡◌, ◌+◌, ◌<◌, ◌↔◌, ℕ, true, false, length, replicate, slice_index, slice_set, bit_or, IsTrue};
ghost use Rattle.dq_lits.specs.Row.{bit_of};
ghost use Rattle.circuit_plain.specs.Steps.{MarksReach, IsSpread};
ghost use Rattle.circuit_plain.specs.Words.{marked, WordsReach};
ghost use Rattle.circuit_plain.specs.Netlist.{literal_variable};
ghost use Rattle.circuit_plain.specs.Order.{IsOrder};
ghost use Rattle.circuit_plain.specs.Reach.{Reaches};

use crate::circuits::Circuit;
use crate::orders::Order;
use dq_lits::Row;

impl Circuit {
    /// Marks the variables that the output at place `out` reaches through right sides, whatever the
    /// values, and no others: at the places of the inputs stands its structural support. Whatever
    /// stood in `marks` before counts for nothing. It takes no memory.
    pub fn reads(&self, order: &Order, out: usize, marks: &mut Row)
        requires ordered { IsOrder self.now order.now }
        requires an_output { out < length self.now.outputs }
        requires a_place_a_variable { length marks.old ≡ self.now.max_var + 1 }
        ensures same_length { length marks.new ≡ length marks.old }
        ensures reached { let root = literal_variable (slice_index self.now.outputs out) in
            (v : ℕ) → IsTrue (bit_of marks.new v) ↔ Reaches self.now root v }
    {
        let root = (self.outputs[out] / 2) as usize;
        clear(marks);
        marks.set(root, true);
        self.mark_sides(order, marks);
    }

    /// At each bit of the words, which stand by variable, marks what the variables marked there
    /// reach through right sides, whatever the values, beside these: 64 walks in one. It takes no
    /// memory.
    pub fn reach_by_words(&self, order: &Order, words: &mut [u64])
        requires ordered { IsOrder self.now order.now }
        requires a_word_a_variable { length words.old ≡ self.now.max_var + 1 }
        ensures same_length { length words.new ≡ length words.old }
        ensures reached { WordsReach self.now words.old words.new }
    {
        let places = order.places();
        for i in (0..places.len()).rev() {
            let gate = self.gates[places[i]];
            spread(words, gate.variable, gate.left / 2, gate.right / 2);
        }
    }

    // Marks what the marked gates read, from the last gate of the order to the first.
    fn mark_sides(&self, order: &Order, marks: &mut Row)
        requires ordered { IsOrder self.now order.now }
        requires a_place_a_variable { length marks.old ≡ self.now.max_var + 1 }
        ensures same_length { length marks.new ≡ length marks.old }
        ensures reached { MarksReach self.now (bit_of marks.old) (bit_of marks.new) }
    {
        let places = order.places();
        for i in (0..places.len()).rev() {
            let gate = self.gates[places[i]];
            if marks.get(gate.variable as usize) {
                marks.set((gate.left / 2) as usize, true);
                marks.set((gate.right / 2) as usize, true);
            }
        }
    }
}

// Sets all bits to false.
fn clear(row: &mut Row)
    ensures { row.new ≡ replicate (length row.old) false }
{
    for i in 0..row.len() {
        row.set(i, false);
    }
}

// Adds the marks of one variable to those of two others.
fn spread(words: &mut [u64], from: u64, left: u64, right: u64)
    requires from_in_range { from < length words.old }
    requires left_in_range { left < length words.old }
    requires right_in_range { right < length words.old }
    ensures same_length { length words.new ≡ length words.old }
    ensures spread { (i : ℕ) → IsSpread (marked words.old i) (marked words.new i) from left right }
{
    let word = words[from as usize];
    add_marks(words, left as usize, word);
    add_marks(words, right as usize, word);
}

fn add_marks(words: &mut [u64], at: usize, word: u64)
    requires { at < length words.old }
    ensures { words.new ≡ slice_set words.old at (bit_or (slice_index words.old at) word) }
{
    words[at] |= word;
}
