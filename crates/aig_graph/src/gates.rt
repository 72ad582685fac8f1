//! How a gate is made: folded where a side settles it, else shared with an equal one.

ghost use Rattle.std.specs.Prelude.{◌≡◌, ◌&&◌, ◌||◌, All, OnErr, IfOk, IfSome};
ghost use Rattle.aig_graph.specs.Graph.{IsNode};
ghost use Rattle.aig_graph.specs.Joining.{AreInner};
ghost use Rattle.aig_graph.specs.Made.{Extends, HasMore, IsMade, IsChosen, IsCube, exclusive_or};

use crate::graphs::Graph;
use crate::nodes::{Node, by_side, joined};
use dq_lits::Memory;

impl Graph {
    /// A node that is true where both are. A refused call leaves the graph as it was.
    pub fn and(&mut self, a: Node, b: Node) -> Result<Node, Memory>
        requires a { IsNode self.old a }
        requires b { IsNode self.old b }
        ensures extends { Extends self.old self.new }
        ensures grown { HasMore self.old self.new }
        ensures made { IfOk result (IsMade (λ x y. x && y) self.old self.new a b) }
        ensures err { OnErr result (self.new ≡ self.old) }
    {
        match joined(a, b) {
            Some(n) => Ok(n),
            None => self.gate(a, b),
        }
    }

    /// A node that is true where one of them is. A refused call leaves the graph as it was.
    pub fn or(&mut self, a: Node, b: Node) -> Result<Node, Memory>
        requires a { IsNode self.old a }
        requires b { IsNode self.old b }
        ensures extends { Extends self.old self.new }
        ensures grown { HasMore self.old self.new }
        ensures made { IfOk result (IsMade (λ x y. x || y) self.old self.new a b) }
        ensures err { OnErr result (self.new ≡ self.old) }
    {
        let neither = self.and(a.not(), b.not())?;
        Ok(neither.not())
    }

    /// A node that is true where exactly one of them is. A refused call leaves the graph as it was.
    pub fn xor(&mut self, a: Node, b: Node) -> Result<Node, Memory>
        requires a { IsNode self.old a }
        requires b { IsNode self.old b }
        ensures extends { Extends self.old self.new }
        ensures grown { HasMore self.old self.new }
        ensures made { IfOk result (IsMade exclusive_or self.old self.new a b) }
        ensures err { OnErr result (self.new ≡ self.old) }
    {
        let count = self.gates();
        let made = self.xor_gates(a, b);
        if made.is_err() {
            self.cut(count);
        }
        made
    }

    /// A node with the value of `t` where `c` is true, else of `e`. A refused call leaves the graph
    /// as it was.
    pub fn mux(&mut self, c: Node, t: Node, e: Node) -> Result<Node, Memory>
        requires c { IsNode self.old c }
        requires t { IsNode self.old t }
        requires e { IsNode self.old e }
        ensures extends { Extends self.old self.new }
        ensures grown { HasMore self.old self.new }
        ensures made { IfOk result (IsChosen self.old self.new c t e) }
        ensures err { OnErr result (self.new ≡ self.old) }
    {
        let count = self.gates();
        let made = self.mux_gates(c, t, e);
        if made.is_err() {
            self.cut(count);
        }
        made
    }

    /// A node that is true where all of them are; with none, it is true everywhere. A refused call
    /// leaves the graph as it was.
    pub fn cube(&mut self, nodes: &[Node]) -> Result<Node, Memory>
        requires { All (IsNode self.old) nodes.now }
        ensures extends { Extends self.old self.new }
        ensures grown { HasMore self.old self.new }
        ensures made { IfOk result (IsCube self.old self.new nodes.now) }
        ensures err { OnErr result (self.new ≡ self.old) }
    {
        let count = self.gates();
        let made = self.cube_gates(nodes);
        if made.is_err() {
            self.cut(count);
        }
        made
    }

    // A gate, where none of the two is a constant or on the other's place.
    fn gate(&mut self, a: Node, b: Node) -> Result<Node, Memory>
        requires a { IsNode self.old a }
        requires b { IsNode self.old b }
        requires inner { AreInner self.old.inputs a b }
        ensures grown { HasMore self.old self.new }
        ensures made { IfOk result (IsMade (λ x y. x && y) self.old self.new a b) }
        ensures err { OnErr result (self.new ≡ self.old) }
    {
        match self.by_sides(a, b) {
            Some(n) => Ok(n),
            None => self.gate_of_two(a, b),
        }
    }

    // One of them, or a constant, where a side of one of them is the other node or its negation.
    fn by_sides(&self, a: Node, b: Node) -> Option<Node>
        requires a { IsNode self.now a }
        requires b { IsNode self.now b }
        ensures { IfSome result (IsMade (λ x y. x && y) self.now self.now a b) }
    {
        match self.by_sides_of(a, b) {
            Some(n) => Some(n),
            None => self.by_sides_of(b, a),
        }
    }

    fn by_sides_of(&self, a: Node, b: Node) -> Option<Node>
        requires a { IsNode self.now a }
        requires b { IsNode self.now b }
        ensures { IfSome result (IsMade (λ x y. x && y) self.now self.now a b) }
    {
        self.every_graph_is_lawful();
        match a {
            Node::Gate(g, negated) => {
                let sides = self.sides(g);
                match by_side(a, negated, sides.left.beside(b), b) {
                    Some(n) => Some(n),
                    None => by_side(a, negated, sides.right.beside(b), b),
                }
            }
            _ => None,
        }
    }

    fn gate_of_two(&mut self, a: Node, b: Node) -> Result<Node, Memory>
        requires a { IsNode self.old a }
        requires b { IsNode self.old b }
        requires inner { AreInner self.old.inputs a b }
        ensures grown { HasMore self.old self.new }
        ensures made { IfOk result (IsMade (λ x y. x && y) self.old self.new a b) }
        ensures err { OnErr result (self.new ≡ self.old) }
    {
        if goes_first(b, a) {
            self.gate_in_order(b, a)
        } else {
            self.gate_in_order(a, b)
        }
    }

    fn gate_in_order(&mut self, a: Node, b: Node) -> Result<Node, Memory>
        requires a { IsNode self.old a }
        requires b { IsNode self.old b }
        requires inner { AreInner self.old.inputs a b }
        ensures grown { HasMore self.old self.new }
        ensures made { IfOk result (IsMade (λ x y. x && y) self.old self.new a b) }
        ensures err { OnErr result (self.new ≡ self.old) }
    {
        self.every_graph_is_lawful();
        match self.known(a, b) {
            Some(g) => Ok(Node::Gate(g, false)),
            None => self.push(a, b),
        }
    }

    fn xor_gates(&mut self, a: Node, b: Node) -> Result<Node, Memory>
        requires a { IsNode self.old a }
        requires b { IsNode self.old b }
        ensures grown { HasMore self.old self.new }
        ensures made { IfOk result (IsMade exclusive_or self.old self.new a b) }
    {
        let left = self.and(a, b.not())?;
        let right = self.and(a.not(), b)?;
        self.or(left, right)
    }

    fn mux_gates(&mut self, c: Node, t: Node, e: Node) -> Result<Node, Memory>
        requires c { IsNode self.old c }
        requires t { IsNode self.old t }
        requires e { IsNode self.old e }
        ensures grown { HasMore self.old self.new }
        ensures made { IfOk result (IsChosen self.old self.new c t e) }
    {
        let left = self.and(c, t)?;
        let right = self.and(c.not(), e)?;
        self.or(left, right)
    }

    fn cube_gates(&mut self, nodes: &[Node]) -> Result<Node, Memory>
        requires { All (IsNode self.old) nodes.now }
        ensures grown { HasMore self.old self.new }
        ensures made { IfOk result (IsCube self.old self.new nodes.now) }
    {
        let mut made = Node::constant(true);
        for n in nodes {
            made = self.and(made, *n)?;
        }
        Ok(made)
    }
}

// The order of a gate's sides, so that it is found again.
fn goes_first(a: Node, b: Node) -> bool {
    a < b
}
