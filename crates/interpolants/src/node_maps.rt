//! Nodes by numbers.

ghost use Rattle.std.specs.Prelude.{◌≡◌, ◌==◌, ℕ, [], Some, OnOk, IfOk, IsSome, if◌then◌else◌};
ghost use Rattle.interpolants.specs.Interpolant.{node_of};

use aig_graph::Node;
use dq_lits::Memory;
use indexmap::IndexMap;
use std::alloc::Global;
use std::marker::Model;

/// Nodes by numbers: of variables, or of ids.
#[derive(Drop)]
pub(crate) struct NodeMap {
    nodes: IndexMap<u64, Node>,
}

impl Model for NodeMap {
    ghost use Rattle.std.specs.Prelude.{ℕ, List};
    ghost use Rattle.aig_graph.specs.declared.nodes.Node.{Node};

    ghost Value = { List (ℕ × Node) };

    ghost view = { λ m. m.nodes.entries };
}

impl NodeMap {
    /// No node. It takes no memory.
    pub(crate) fn new(alloc: Global) -> NodeMap
        ensures { result ≡ [] }
    {
        NodeMap {
            nodes: IndexMap::new(alloc),
        }
    }

    /// The node of a number, where it has one.
    pub(crate) fn get(&self, number: u64) -> Option<Node>
        ensures { result ≡ node_of self.now number }
    {
        self.nodes.get(&number).copied()
    }

    /// The node of a number that has one.
    pub(crate) fn at(&self, number: u64) -> Node
        requires { IsSome (node_of self.now number) }
        ensures { node_of self.now number ≡ Some result }
    {
        match self.get(number) {
            Some(node) => node,
            None => unreachable!(),
        }
    }

    /// Gives a number a node.
    pub(crate) fn put(&mut self, number: u64, node: Node) -> Result<(), Memory>
        ensures { OnOk result
            ((n : ℕ)
            → node_of self.new n ≡ (if number == n then Some node else node_of self.old n)) }
    {
        self.nodes.insert(number, node)?;
        Ok(())
    }
}

/// The first node that is listed for each number.
pub(crate) fn map_of(alloc: Global, pairs: &[(u64, Node)]) -> Result<NodeMap, Memory>
    ensures { IfOk result (λ map. (n : ℕ) → node_of map n ≡ node_of pairs.now n) }
{
    let mut map = NodeMap::new(alloc);
    for pair in pairs {
        if map.get(pair.0).is_none() {
            map.put(pair.0, pair.1)?;
        }
    }
    Ok(map)
}
