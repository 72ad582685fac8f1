//! The gates in a node's cone.

ghost use Rattle.std.specs.Prelude.{◌≡◌, ◌⊎◌, ◌↔◌, ℕ, false, Some, IfSome, IfNone, IfOk, OnOk};
ghost use Rattle.std.specs.Ordering.{nat_cmp};
ghost use Rattle.std.specs.BTreeSet.{contains};
ghost use Rattle.aig_graph.specs.Graph.{IsNode};
ghost use Rattle.aig_graph.specs.Putting.{Has, gate_of, IsTakenLast, AreConeGates};

use crate::graphs::Graph;
use crate::nodes::Node;
use dq_lits::Memory;
use std::alloc::Global;
use std::collections::BTreeSet;

impl Graph {
    /// The gates in a node's cone, later ones first. Work and memory follow the cone, however large
    /// the graph is.
    pub fn cone_gates(&self, alloc: Global, n: Node) -> Result<Vec<usize>, Memory>
        requires node { IsNode self.now n }
        ensures { IfOk result (λ gates. AreConeGates self.now n gates.items) }
    {
        self.every_graph_is_lawful();
        let mut gates = Vec::new(alloc);
        let mut pending = BTreeSet::new(alloc);
        add_gate(n, &mut pending)?;
        while let Some(g) = take_last(&mut pending) {
            let sides = self.sides(g);
            add_gate(sides.left, &mut pending)?;
            add_gate(sides.right, &mut pending)?;
            gates.push(g)?;
        }
        Ok(gates)
    }
}

fn add_gate(n: Node, gates: &mut BTreeSet<usize>) -> Result<(), Memory>
    ensures { OnOk result ((q : ℕ) → (Has gates.new q ↔ (Has gates.old q ⊎ (gate_of n ≡ Some q)))) }
{
    if let Node::Gate(g, _) = n {
        gates.insert(g)?;
    }
    Ok(())
}

fn take_last(gates: &mut BTreeSet<usize>) -> Option<usize>
    ensures last { IfSome result (IsTakenLast gates.old gates.new) }
    ensures none { IfNone result ((q : ℕ) → contains nat_cmp gates.old q ≡ false) }
{
    gates.pop_last()
}
