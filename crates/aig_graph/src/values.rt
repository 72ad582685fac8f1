//! The value of nodes under a row of the inputs.

ghost use Rattle.std.specs.Prelude.{◌≡◌, ◌+◌, ◌<◌, ◌≤◌, ◌&&◌, ℕ, All, length, map};
ghost use Rattle.dq_lits.specs.Row.{bit_of};
ghost use Rattle.aig_graph.specs.Graph.{IsNode, size_of, with_sign, value_by, gate_value, node_value};

use crate::graphs::Graph;
use crate::nodes::Node;
use dq_lits::Row;

impl Graph {
    /// The value of a node under a row, which has the bit of input i at place i. The buffer has a
    /// place for each of the graph's; what stands there counts for nothing. The call takes no
    /// memory, and goes over the gates up to the node's once.
    pub fn value(&self, n: Node, row: &Row, buf: &mut Row) -> bool
        requires node { IsNode self.now n }
        requires a_bit_an_input { length row.now ≡ self.now.inputs }
        requires a_place_a_node { length buf.old ≡ size_of self.now }
        ensures value { result ≡ node_value self.now (bit_of row.now) n }
        ensures same_length { length buf.new ≡ length buf.old }
    {
        self.every_graph_is_lawful();
        self.write_values(self.gates_up_to(n), row, buf);
        self.bit(n, row, buf)
    }

    /// Writes the values of nodes under a row to `out`, in order. The buffer has a place for each
    /// of the graph's; what stands there counts for nothing. The call takes no memory, and goes
    /// over the gates once, however many nodes there are.
    pub fn values(&self, nodes: &[Node], row: &Row, buf: &mut Row, out: &mut Row)
        requires nodes { All (IsNode self.now) nodes.now }
        requires a_bit_an_input { length row.now ≡ self.now.inputs }
        requires a_place_a_node { length buf.old ≡ size_of self.now }
        requires a_bit_a_node { length out.old ≡ length nodes.now }
        ensures values { out.new ≡ map (node_value self.now (bit_of row.now)) nodes.now }
        ensures same_length { length buf.new ≡ length buf.old }
    {
        self.write_values(self.gates(), row, buf);
        for (place, n) in nodes.iter().enumerate() {
            let b = self.bit(*n, row, buf);
            out.set(place, b);
        }
    }

    // Writes the values of the first gates.
    fn write_values(&self, count: usize, row: &Row, buf: &mut Row)
        requires few { count ≤ length self.now.gates }
        requires a_bit_an_input { length row.now ≡ self.now.inputs }
        requires a_place_a_node { length buf.old ≡ size_of self.now }
        ensures values { (g : ℕ) → g < count
            → bit_of buf.new (self.now.inputs + g) ≡ gate_value (bit_of row.now) self.now.gates g }
        ensures same_length { length buf.new ≡ length buf.old }
    {
        self.every_graph_is_lawful();
        for g in 0..count {
            let sides = self.sides(g);
            let left = self.bit(sides.left, row, buf);
            let right = self.bit(sides.right, row, buf);
            buf.set(self.gate_place(g), both(left, right));
        }
    }

    // The value of a node, by those of the gates.
    fn bit(&self, n: Node, row: &Row, buf: &Row) -> bool
        requires node { IsNode self.now n }
        requires a_bit_an_input { length row.now ≡ self.now.inputs }
        requires a_place_a_node { length buf.now ≡ size_of self.now }
        ensures { result ≡ value_by (bit_of row.now) (λ g. bit_of buf.now (self.now.inputs + g)) n }
    {
        self.every_graph_is_lawful();
        match n {
            Node::Constant(b) => b,
            Node::Input(i, negated) => signed(negated, row.get(i)),
            Node::Gate(g, negated) => signed(negated, buf.get(self.gate_place(g))),
        }
    }
}

fn signed(negated: bool, b: bool) -> bool
    ensures { result ≡ with_sign negated b }
{
    if negated { !b } else { b }
}

fn both(left: bool, right: bool) -> bool
    ensures { result ≡ (left && right) }
{
    left && right
}
