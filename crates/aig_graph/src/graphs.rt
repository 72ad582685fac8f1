//! A graph of inputs and hashed and-gates, as one value.
//!
//! A gate is found by an ordered map from its two sides, compared with the gate that stands there;
//! a refused call only cuts the gates that it added. Graphs simplify by rules of one level, and
//! where a gate stands beside one of its own sides.

ghost use Rattle.std.specs.Prelude.{◌≡◌, false, ◌<◌, ◌≤◌, ◌^◌, ◌+◌, [], ◌∷◌, ℕ, length, OnOk, OnErr, IfOk, IfSome, Some};
ghost use Rattle.aig_graph.specs.Graph.{IsGraph, IsNode, AreSides, IsLook, place_of, size_of, gate_at, gate_count};
ghost use Rattle.aig_graph.specs.Joining.{AreInner};
ghost use Rattle.aig_graph.specs.Made.{sides_of, with_gate, cut_to};

use crate::nodes::{Look, Node, Sides};
use dq_lits::Memory;
use std::alloc::Global;
use std::collections::BTreeMap;
use std::marker::Model;

/// A graph of inputs and gates.
#[derive(Drop)]
pub struct Graph {
    inputs: usize,
    gates: Vec<Sides>,
    // Where a gate of these sides may stand: whoever looks there compares them, so that a stale
    // place does no harm.
    places: BTreeMap<(Node, Node), usize>,
}

impl Model for Graph {
    ghost use Rattle.std.specs.Prelude.{reverse};
    ghost use Rattle.aig_graph.specs.Graph.{AigGraph, IsGraph};

    ghost Value = { AigGraph };

    ghost view = { λ g. record { inputs = g.inputs; gates = reverse g.gates.items } };

    ghost invariant = { λ g.
        IsGraph (record { inputs = g.inputs; gates = reverse g.gates.items }) };
}

impl Graph {
    /// A graph without gates, over so many inputs. It takes no memory.
    pub fn new(alloc: Global, inputs: usize) -> Graph
        requires { inputs < 2 ^ 62 }
        ensures { result ≡ record { inputs = inputs; gates = [] } }
    {
        Graph {
            inputs,
            gates: Vec::new(alloc),
            places: BTreeMap::new(alloc),
        }
    }

    /// What holds of every graph. The call does nothing: its contract is for callers' proofs.
    pub fn every_graph_is_lawful(&self)
        ensures { IsGraph self.now }
    {
        // A look at a field shows the invariant.
        let _ = &self.inputs;
    }

    /// An input, by its number from 0 on.
    pub fn input(&self, i: usize) -> Node
        requires { i < self.now.inputs }
        ensures { result ≡ Node.Input i false }
    {
        // A look at a field shows the invariant.
        let _ = &self.inputs;
        Node::Input(i, false)
    }

    /// How many inputs there are.
    pub fn inputs(&self) -> usize
        ensures { result ≡ self.now.inputs }
    {
        self.inputs
    }

    /// How many places there are: inputs, then gates.
    pub fn len(&self) -> usize
        ensures { result ≡ size_of self.now }
    {
        self.inputs + self.gates.len()
    }

    /// The place of a node, the same for a node and its negation, and for no other: inputs stand
    /// first, then gates. Constants have none.
    pub fn place(&self, n: Node) -> Option<usize>
        requires { IsNode self.now n }
        ensures { result ≡ place_of self.now.inputs n }
    {
        match n {
            Node::Constant(_) => None,
            Node::Input(i, _) => Some(i),
            Node::Gate(g, _) => Some(self.gate_place(g)),
        }
    }

    /// What is inside of a node.
    pub fn look(&self, n: Node) -> Look
        requires { IsNode self.now n }
        ensures { IsLook self.now n result }
    {
        match n {
            Node::Constant(b) => Look::Constant(b),
            Node::Input(i, negated) => Look::Input(i, negated),
            Node::Gate(g, negated) => {
                let sides = self.sides(g);
                Look::Gate(sides.left, sides.right, negated)
            }
        }
    }

    // The sides of a gate.
    pub(crate) fn sides(&self, g: usize) -> Sides
        requires { g < length self.now.gates }
        ensures at { gate_at self.now.gates g ≡ Some result }
        ensures are_sides { AreSides self.now.inputs g result }
    {
        self.gates[g]
    }

    // The place of a gate.
    pub(crate) fn gate_place(&self, g: usize) -> usize
        requires { g < length self.now.gates }
        ensures { result ≡ self.now.inputs + g }
    {
        self.inputs + g
    }

    // How many gates there are.
    pub(crate) fn gates(&self) -> usize
        ensures { result ≡ length self.now.gates }
    {
        self.gates.len()
    }

    // How many gates there are up to this node.
    pub(crate) fn gates_up_to(&self, n: Node) -> usize
        requires { IsNode self.now n }
        ensures value { result ≡ gate_count n }
        ensures few { result ≤ length self.now.gates }
    {
        // A look at a field shows the invariant.
        let _ = &self.gates;
        match n {
            Node::Constant(_) => 0,
            Node::Input(_, _) => 0,
            Node::Gate(g, _) => g + 1,
        }
    }

    // A gate over these sides, where there is one.
    pub(crate) fn known(&self, left: Node, right: Node) -> Option<usize>
        ensures { IfSome result (λ g. gate_at self.now.gates g ≡ Some (sides_of left right)) }
    {
        match self.places.get(&(left, right)) {
            Some(&g) => self.gate_over(g, left, right),
            None => None,
        }
    }

    // The gate, where it stands over these sides.
    fn gate_over(&self, g: usize, left: Node, right: Node) -> Option<usize>
        ensures { IfSome result (λ g. gate_at self.now.gates g ≡ Some (sides_of left right)) }
    {
        if g >= self.gates() {
            return None;
        }
        if self.sides(g).are(left, right) {
            Some(g)
        } else {
            None
        }
    }

    // Adds a gate.
    pub(crate) fn push(&mut self, left: Node, right: Node) -> Result<Node, Memory>
        requires left { IsNode self.old left }
        requires right { IsNode self.old right }
        requires inner { AreInner self.old.inputs left right }
        ensures node { IfOk result (λ n. n ≡ Node.Gate (length self.old.gates) false) }
        ensures ok { OnOk result (self.new ≡ with_gate self.old (sides_of left right)) }
        ensures err { OnErr result (self.new ≡ self.old) }
    {
        let g = self.gates.len();
        self.places.insert((left, right), g)?;
        self.gates.push(Sides { left, right })?;
        Ok(Node::Gate(g, false))
    }

    // Where the graph takes its memory.
    pub(crate) fn allocator(&self) -> Global {
        *self.gates.allocator()
    }

    // Takes the gates behind the first ones away.
    pub(crate) fn cut(&mut self, count: usize)
        requires { count ≤ length self.old.gates }
        ensures { self.new ≡ cut_to count self.old }
    {
        self.gates.truncate(count);
    }
}
