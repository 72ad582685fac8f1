//! Nodes put in for inputs.
//!
//! It follows the cone: a definition of one gate costs one gate however many the graph has.

ghost use Rattle.std.specs.Prelude.{◌≡◌, ◌≤◌, ◌<◌, false, length, All, IfOk, OnErr};
ghost use Rattle.aig_graph.specs.Graph.{IsNode};
ghost use Rattle.aig_graph.specs.Made.{Extends, HasMore};
ghost use Rattle.aig_graph.specs.Putting.{AreConeGates, IsSubstituted, AreSidesSubstituted, HasPutIn};
ghost use Rattle.aig_graph.specs.Substituting.{IsPutIn};

use crate::graphs::Graph;
use crate::nodes::Node;
use dq_lits::Memory;
use std::alloc::Global;
use std::collections::BTreeMap;

impl Graph {
    /// A node with the value of this one where the last inputs have the values of these nodes, in
    /// order; the inputs before them stay. Work and memory follow the node's cone. A refused call
    /// leaves the graph as it was.
    pub fn put_in(&mut self, node: Node, subs: &[Node]) -> Result<Node, Memory>
        requires node { IsNode self.old node }
        requires subs { All (IsNode self.old) subs.now }
        requires few { length subs.now ≤ self.old.inputs }
        ensures extends { Extends self.old self.new }
        ensures grown { HasMore self.old self.new }
        ensures made { IfOk result (IsPutIn self.old self.new node subs.now) }
        ensures err { OnErr result (self.new ≡ self.old) }
    {
        let count = self.gates();
        let made = self.cone_put_in(node, subs);
        if made.is_err() {
            self.cut(count);
        }
        made
    }

    // The same, gate by gate.
    fn cone_put_in(&mut self, node: Node, subs: &[Node]) -> Result<Node, Memory>
        requires node { IsNode self.old node }
        requires subs { All (IsNode self.old) subs.now }
        requires few { length subs.now ≤ self.old.inputs }
        ensures grown { HasMore self.old self.new }
        ensures made { IfOk result (IsPutIn self.old self.new node subs.now) }
    {
        self.every_graph_is_lawful();
        let alloc = self.allocator();
        let gates = self.cone_gates(alloc, node)?;
        let mut made = BTreeMap::new(alloc);
        let mut at = gates.len();
        while at > 0 {
            at -= 1;
            let g = gates[at];
            let n = self.gate_put_in(g, subs, &made)?;
            made.insert(g, n)?;
        }
        Ok(self.side_put_in(node, subs, &made))
    }

    // What becomes of a gate, by what was made of its sides.
    fn gate_put_in(
        &mut self,
        g: usize,
        subs: &[Node],
        made: &BTreeMap<usize, Node>,
    ) -> Result<Node, Memory>
        requires gate { g < length self.old.gates }
        requires subs { All (IsNode self.old) subs.now }
        requires few { length subs.now ≤ self.old.inputs }
        requires ready { AreSidesSubstituted self.old subs.now made.now g }
        ensures grown { HasMore self.old self.new }
        ensures put_in { IfOk result (IsPutIn self.new self.new (Node.Gate g false) subs.now) }
    {
        self.every_graph_is_lawful();
        let sides = self.sides(g);
        let left = self.side_put_in(sides.left, subs, made);
        let right = self.side_put_in(sides.right, subs, made);
        self.and(left, right)
    }

    // What becomes of a node, by what was made of its gate.
    fn side_put_in(&self, side: Node, subs: &[Node], made: &BTreeMap<usize, Node>) -> Node
        requires side { IsNode self.now side }
        requires subs { All (IsNode self.now) subs.now }
        requires few { length subs.now ≤ self.now.inputs }
        requires ready { IsSubstituted self.now subs.now made.now side }
        ensures { IsPutIn self.now self.now side subs.now result }
    {
        match side {
            Node::Constant(_) => side,
            Node::Input(i, negated) => self.input_put_in(i, subs).signed(negated),
            Node::Gate(g, negated) => match made.get(&g) {
                Some(n) => n.signed(negated),
                None => unreachable!(),
            },
        }
    }

    fn input_put_in(&self, i: usize, subs: &[Node]) -> Node
        requires input { i < self.now.inputs }
        requires subs { All (IsNode self.now) subs.now }
        requires few { length subs.now ≤ self.now.inputs }
        ensures { IsPutIn self.now self.now (Node.Input i false) subs.now result }
    {
        let first = self.inputs() - subs.len();
        if i < first {
            Node::Input(i, false)
        } else {
            subs[i - first]
        }
    }
}
