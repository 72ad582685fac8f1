//! The literals over first copies that stand for nodes of a graph.

ghost use Rattle.std.specs.Prelude.{◌≡◌, ◌<◌, ℕ, List, false, length, IfOk};
ghost use Rattle.dq_lits.specs.Formula.{Dqbf, declared};
ghost use Rattle.aig_graph.specs.Graph.{IsNode};
ghost use Rattle.aig_graph.specs.Joining.{IsInner};
ghost use Rattle.hint_log.specs.Entries.{Entry};
ghost use Rattle.definability.specs.Copies.{AreCopiesOf, copies_of, group_variable};
ghost use Rattle.definability.specs.Growing.{HasFewFaults};
ghost use Rattle.definition_proofs.specs.Terms.{AreTerms, GrewByProof};
ghost use Rattle.definition_proofs.specs.Proving.{HasLeaf};
ghost use Rattle.hint_log.specs.declared.origins.Leaf.TheVariants.{Literal as LeafLiteral};
ghost use Rattle.definition_proofs.specs.Leaves.{StandsFor, IsLeafFor, IsKnown, AreSidesKnown, HasGate, negated_by};

use crate::terms::Terms;
use aig_graph::{Graph, Look, Node};
use definability::MatrixCopy;
use dq_formula::Formula;
use dq_lits::{Lit, Memory};
use hint_log::{Leaf, Log};
use oracle::Oracle;
use std::collections::BTreeMap;

/// A graph whose inputs are a formula's declared variables, and the first copies of these.
#[derive(Drop)]
pub(crate) struct Inputs<'g, 'c, 'f> {
    pub graph: &'g Graph,
    pub copy: &'c MatrixCopy,
    pub f: &'f Formula,
    ghost inputs: { graph.now.inputs ≡ length (declared f.now) },
    ghost as_many: { length (copies_of copy.now) ≡ length (declared f.now) },
}

impl Terms {
    /// The leaf that stands for a node: the gates of its cone are named, and their clauses given,
    /// where they weren't yet.
    pub(crate) fn leaf<O: Oracle>(
        &mut self,
        oracle: &mut O,
        inputs: &Inputs,
        node: Node,
        log: &mut Log,
    ) -> Result<Leaf, Memory>
        requires fit { O.Fits oracle.old log.old }
        requires terms { AreTerms self.old log.old.entries }
        requires few { HasFewFaults log.old.entries }
        requires copies { AreCopiesOf log.old.entries 1 (declared inputs.now.f.now)
            (copies_of inputs.now.copy.now) }
        requires node { IsNode inputs.now.graph.now node }
        ensures fit { O.Fits oracle.new log.new }
        ensures grew { (f : Dqbf) (y : ℕ)
            → GrewByProof f (group_variable self.old.group) y log.old log.new }
        ensures leaf { IfOk result (HasLeaf inputs.now.f.now inputs.now.graph.now node self.old log.old
            self.new log.new) }
    {
        let graph = inputs.graph;
        graph.every_graph_is_lawful();
        let gates = graph.cone_gates(self.alloc, node)?;
        let mut literals = BTreeMap::new(self.alloc);
        let mut at = gates.len();
        while at > 0 {
            at -= 1;
            let g = gates[at];
            let l = self.gate_literal(oracle, inputs, g, &literals, log)?;
            literals.insert(g, l)?;
        }
        Ok(inputs.leaf(node, &literals))
    }

    // The literal of a gate whose sides are known.
    fn gate_literal<O: Oracle>(
        &mut self,
        oracle: &mut O,
        inputs: &Inputs,
        g: usize,
        literals: &BTreeMap<usize, Lit>,
        log: &mut Log,
    ) -> Result<Lit, Memory>
        requires fit { O.Fits oracle.old log.old }
        requires terms { AreTerms self.old log.old.entries }
        requires few { HasFewFaults log.old.entries }
        requires copies { AreCopiesOf log.old.entries 1 (declared inputs.now.f.now)
            (copies_of inputs.now.copy.now) }
        requires gate { g < length inputs.now.graph.now.gates }
        requires sides { AreSidesKnown inputs.now.f.now inputs.now.graph.now log.old.entries
            literals.now g }
        ensures fit { O.Fits oracle.new log.new }
        ensures grew { (f : Dqbf) (y : ℕ)
            → GrewByProof f (group_variable self.old.group) y log.old log.new }
        ensures leaf { IfOk result (λ l. HasLeaf inputs.now.f.now inputs.now.graph.now
            (Node.Gate g false) self.old log.old self.new log.new (LeafLiteral l)) }
    {
        let graph = inputs.graph;
        graph.every_graph_is_lawful();
        match graph.look(Node::Gate(g, false)) {
            Look::Gate(left, right, _) => {
                let a = inputs.literal(left, literals);
                let b = inputs.literal(right, literals);
                let l = self.gate(oracle, a, b, log)?;
                Ok(l)
            }
            _ => unreachable!(),
        }
    }
}

impl<'g, 'c, 'f> Inputs<'g, 'c, 'f> {
    // The literal of a node that isn't constant.
    fn literal(&self, n: Node, literals: &BTreeMap<usize, Lit>) -> Lit
        requires node { IsNode self.now.graph.now n }
        requires inner { IsInner n }
        requires found { HasGate literals.now n }
        ensures { (entries : List Entry)
            → AreCopiesOf entries 1 (declared self.now.f.now) (copies_of self.now.copy.now)
            → IsKnown self.now.f.now self.now.graph.now entries literals.now n
            → StandsFor self.now.f.now self.now.graph.now entries n result }
    {
        match n {
            Node::Input(i, negated) => signed(self.copy.copy_at(i), negated),
            Node::Gate(g, negated) => match literals.get(&g) {
                Some(l) => signed(*l, negated),
                None => unreachable!(),
            },
            Node::Constant(_) => unreachable!(),
        }
    }

    // The leaf of a node.
    fn leaf(&self, n: Node, literals: &BTreeMap<usize, Lit>) -> Leaf
        requires node { IsNode self.now.graph.now n }
        requires found { HasGate literals.now n }
        ensures { (entries : List Entry)
            → AreCopiesOf entries 1 (declared self.now.f.now) (copies_of self.now.copy.now)
            → IsKnown self.now.f.now self.now.graph.now entries literals.now n
            → IsLeafFor self.now.f.now self.now.graph.now entries n result }
    {
        match n {
            Node::Constant(b) => Leaf::Constant(b),
            _ => Leaf::Literal(self.literal(n, literals)),
        }
    }
}

/// The literal, or its negation.
pub(crate) fn signed(l: Lit, negated: bool) -> Lit
    ensures { result ≡ negated_by negated l }
{
    if negated { l.not() } else { l }
}
