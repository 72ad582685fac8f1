//! What a node's value is where some inputs of its graph are known.

use aig_graph::{Graph, Look, Node};
use dq_lits::Memory;
use std::alloc::Global;

// How many nodes are looked at for a value at most.
const MOST_LOOKS: usize = 64;

/// Values of some inputs of a graph, by place. No contract speaks of them: what is wrongly said of
/// a node costs a question, or one that isn't asked.
#[derive(Drop)]
pub(crate) struct KnownInputs<'g> {
    graph: &'g Graph,
    values: Vec<Option<bool>>,
    // How many nodes may still be looked at.
    looks: usize,
}

impl<'g> KnownInputs<'g> {
    /// None is known.
    pub(crate) fn new(alloc: Global, graph: &'g Graph) -> Result<KnownInputs<'g>, Memory> {
        Ok(KnownInputs {
            graph,
            values: vec![in alloc; None; graph.inputs()]?,
            looks: 0,
        })
    }

    /// Says what is known of the input at a place.
    pub(crate) fn set(&mut self, place: usize, value: Option<bool>) {
        if place < self.values.len() {
            self.values[place] = value;
        }
    }

    /// A node's value, if the known inputs tell it and a few looks suffice.
    pub(crate) fn value(&mut self, node: Node) -> Option<bool> {
        self.looks = MOST_LOOKS;
        self.value_below(node, MOST_LOOKS)
    }

    // The same by so many steps downwards at most.
    #[cycle(values)]
    fn value_below(&mut self, node: Node, depth: usize) -> Option<bool> {
        if depth == 0 || self.looks == 0 {
            return None;
        }
        self.looks -= 1;
        match node {
            Node::Constant(bit) => Some(bit),
            Node::Input(place, is_negated) => signed(self.input(place), is_negated),
            Node::Gate(gate, is_negated) => signed(self.gate(gate, depth - 1), is_negated),
        }
    }

    fn input(&self, place: usize) -> Option<bool> {
        match self.values.get(place) {
            Some(value) => *value,
            None => None,
        }
    }

    // A conjunction is false where one side is, and true where both are.
    #[cycle(values)]
    fn gate(&mut self, gate: usize, depth: usize) -> Option<bool> {
        if gate >= self.graph.len() - self.graph.inputs() {
            return None;
        }
        match self.graph.look(Node::Gate(gate, false)) {
            Look::Gate(left, right, _) => {
                let left = self.value_below(left, depth);
                match left {
                    Some(false) => Some(false),
                    _ => both(left, self.value_below(right, depth)),
                }
            }
            _ => None,
        }
    }
}

fn signed(value: Option<bool>, is_negated: bool) -> Option<bool> {
    match value {
        Some(bit) => Some(bit != is_negated),
        None => None,
    }
}

fn both(left: Option<bool>, right: Option<bool>) -> Option<bool> {
    match (left, right) {
        (_, Some(false)) => Some(false),
        (Some(true), Some(true)) => Some(true),
        _ => None,
    }
}
