//! The value of nodes under 64 rows at once: bit b of each word is what stands in row b.

ghost use Rattle.std.specs.Prelude.{◌≡◌, ◌+◌, ◌<◌, ◌&&◌, ℕ, All, length, map};
ghost use Rattle.aig_graph.specs.Graph.{IsNode, size_of, with_sign, value_by, gate_value, node_value};
ghost use Rattle.aig_graph.specs.Words.{word_bit, row_at};

use crate::graphs::Graph;
use crate::nodes::Node;

impl Graph {
    /// Writes the values of nodes under 64 rows to `out`, in order. The rows have an input's bits in
    /// the word at its place. The buffer has a place for each of the graph's; what stands there
    /// counts for nothing. The call takes no memory, and goes over the gates once.
    pub fn values_by_words(&self, nodes: &[Node], inputs: &[u64], buf: &mut [u64], out: &mut [u64])
        requires nodes { All (IsNode self.now) nodes.now }
        requires a_word_an_input { length inputs.now ≡ self.now.inputs }
        requires a_place_a_node { length buf.old ≡ size_of self.now }
        requires a_word_a_node { length out.old ≡ length nodes.now }
        ensures values { (b : ℕ) → b < 64
            → map (word_bit b) out.new ≡ map (node_value self.now (row_at inputs.now b)) nodes.now }
        ensures same_length { length buf.new ≡ length buf.old }
    {
        self.write_words(inputs, buf);
        for (place, n) in nodes.iter().enumerate() {
            out[place] = self.word(*n, inputs, buf);
        }
    }

    // Writes the words of the gates.
    fn write_words(&self, inputs: &[u64], buf: &mut [u64])
        requires a_word_an_input { length inputs.now ≡ self.now.inputs }
        requires a_place_a_node { length buf.old ≡ size_of self.now }
        ensures values { (b g : ℕ) → b < 64 → g < length self.now.gates
            → row_at buf.new b (self.now.inputs + g)
            ≡ gate_value (row_at inputs.now b) self.now.gates g }
        ensures same_length { length buf.new ≡ length buf.old }
    {
        self.every_graph_is_lawful();
        for g in 0..self.gates() {
            let sides = self.sides(g);
            let left = self.word(sides.left, inputs, buf);
            let right = self.word(sides.right, inputs, buf);
            let place = self.gate_place(g);
            buf[place] = both_words(left, right);
        }
    }

    // The word of a node, by those of the gates.
    fn word(&self, n: Node, inputs: &[u64], buf: &[u64]) -> u64
        requires node { IsNode self.now n }
        requires a_word_an_input { length inputs.now ≡ self.now.inputs }
        requires a_place_a_node { length buf.now ≡ size_of self.now }
        ensures { (b : ℕ) → b < 64 → word_bit b result
            ≡ value_by (row_at inputs.now b) (λ g. row_at buf.now b (self.now.inputs + g)) n }
    {
        self.every_graph_is_lawful();
        match n {
            Node::Constant(b) => signed_word(b, 0),
            Node::Input(i, negated) => signed_word(negated, inputs[i]),
            Node::Gate(g, negated) => signed_word(negated, buf[self.gate_place(g)]),
        }
    }
}

fn signed_word(negated: bool, word: u64) -> u64
    ensures { (b : ℕ) → b < 64 → word_bit b result ≡ with_sign negated (word_bit b word) }
{
    if negated { !word } else { word }
}

fn both_words(left: u64, right: u64) -> u64
    ensures { (b : ℕ) → word_bit b result ≡ (word_bit b left && word_bit b right) }
{
    left & right
}
