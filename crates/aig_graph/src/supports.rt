//! Which inputs a node reads.

ghost use Rattle.std.specs.Prelude.{◌≡◌, ◌+◌, ◌<◌, ◌↔◌, ◌⊎◌, ℕ, true, false, Some, length, Contains, All};
ghost use Rattle.dq_lits.specs.Row.{bit_of};
ghost use Rattle.aig_graph.specs.Graph.{IsNode, size_of, place_of, node_support};
ghost use Rattle.aig_graph.specs.Marking.{IsReached, IsInCone, AreRoots, HandsOn};

use crate::graphs::Graph;
use crate::nodes::Node;
use dq_lits::Row;

impl Graph {
    /// Marks the inputs that a node reads: those in its cone, whatever its values. The marks have a
    /// place for each of the graph's; what stands there before counts for nothing, and the places
    /// behind the inputs are left open. The call takes no memory.
    pub fn support(&self, n: Node, marks: &mut Row)
        requires node { IsNode self.now n }
        requires a_place_a_node { length marks.old ≡ size_of self.now }
        ensures reached { (i : ℕ) → i < self.now.inputs
            → ((bit_of marks.new i ≡ true) ↔ Contains (node_support self.now n) i) }
        ensures same_length { length marks.new ≡ length marks.old }
    {
        self.every_graph_is_lawful();
        clear(marks);
        self.mark(n, marks);
        let mut at = self.gates_up_to(n);
        while at > 0 {
            at -= 1;
            self.mark_sides(at, marks);
        }
    }

    /// Marks the places in the cones of some nodes: those of the nodes, and of the sides of each
    /// gate among them. The marks have a place for each of the graph's; what stands there before
    /// counts for nothing. The call takes no memory.
    pub fn cones(&self, nodes: &[Node], marks: &mut Row)
        requires nodes { All (IsNode self.now) nodes.now }
        requires a_place_a_node { length marks.old ≡ size_of self.now }
        ensures marked { (p : ℕ) → ((bit_of marks.new p ≡ true) ↔ IsInCone self.now nodes.now p) }
        ensures same_length { length marks.new ≡ length marks.old }
    {
        self.every_graph_is_lawful();
        clear(marks);
        self.mark_all(nodes, marks);
        let mut at = self.gates();
        while at > 0 {
            at -= 1;
            self.mark_sides(at, marks);
        }
    }

    fn mark_all(&self, nodes: &[Node], marks: &mut Row)
        requires nodes { All (IsNode self.now) nodes.now }
        requires a_place_a_node { length marks.old ≡ size_of self.now }
        requires none { (p : ℕ) → bit_of marks.old p ≡ false }
        ensures marked { (p : ℕ) → ((bit_of marks.new p ≡ true) ↔ AreRoots self.now nodes.now p) }
        ensures same_length { length marks.new ≡ length marks.old }
    {
        for n in nodes {
            self.mark(*n, marks);
        }
    }

    // Marks the sides of a gate, where the gate is marked.
    fn mark_sides(&self, g: usize, marks: &mut Row)
        requires gate { g < length self.now.gates }
        requires a_place_a_node { length marks.old ≡ size_of self.now }
        ensures reached { (i : ℕ) → i < self.now.inputs
            → (IsReached self.now (g + 1) marks.old i ↔ IsReached self.now g marks.new i) }
        ensures hands_on { HandsOn self.now g marks.old marks.new }
        ensures same_length { length marks.new ≡ length marks.old }
    {
        self.every_graph_is_lawful();
        if marks.get(self.gate_place(g)) {
            let sides = self.sides(g);
            self.mark(sides.left, marks);
            self.mark(sides.right, marks);
        }
    }

    fn mark(&self, n: Node, marks: &mut Row)
        requires node { IsNode self.now n }
        requires a_place_a_node { length marks.old ≡ size_of self.now }
        ensures marked { (p : ℕ)
            → ((bit_of marks.new p ≡ true)
            ↔ ((bit_of marks.old p ≡ true) ⊎ (place_of self.now.inputs n ≡ Some p))) }
        ensures same_length { length marks.new ≡ length marks.old }
    {
        match self.place(n) {
            Some(p) => marks.set(p, true),
            None => {}
        }
    }
}

fn clear(marks: &mut Row)
    ensures none { (p : ℕ) → bit_of marks.new p ≡ false }
    ensures same_length { length marks.new ≡ length marks.old }
{
    for p in 0..marks.len() {
        marks.set(p, false);
    }
}
