//! Decision trees over what existentials see, grown from a model's points: what a candidate is away
//! from the pairs and the rules (J. R. Quinlan, "Induction of decision trees", 1986).
//!
//! No contract speaks of the tests: a tree becomes a node, whatever it says, and rules and points
//! are put over it. Tests stay from call to call, and a tree grows only where points disagree, so
//! that candidates change little from round to round.
//!
//! The best test is that of Gini's measure, in integers; of the universals in which the first two
//! examples with other bits differ the first 64 are compared. Trees made anew in each turn need
//! several times as many rounds.

ghost use Rattle.std.specs.Prelude.{◌≡◌, ◌≤◌, false, length, replicate, slice_index_or, All, Contains, IfOk};
ghost use Rattle.aig_graph.specs.Made.{Extends};
ghost use Rattle.candidate_functions.specs.Pairs.{universal_places};
ghost use Rattle.candidate_functions.specs.Trees.{IsOver};

use crate::examples::Examples;
use aig_graph::{Graph, Node};
use dq_formula::Formula;
use dq_lits::{Memory, Row};
use std::alloc::Global;

// What is done at a place of a tree: all is decided, or a universal is tested, by its place among
// those that the existential sees. Both branches stand further on.
#[derive(Clone, Copy)]
enum Branch {
    Leaf(bool),
    Test {
        tested: usize,
        yes: usize,
        no: usize,
    },
}

// A decision tree; its root stands first. Without branches it is false.
#[derive(Drop)]
pub(crate) struct Tree {
    branches: Vec<Branch>,
}

// The examples that come to a branch, by their numbers.
#[derive(Drop)]
struct OpenBranch {
    at: usize,
    examples: Vec<usize>,
}

impl Tree {
    pub(crate) fn new(alloc: Global) -> Tree {
        Tree {
            branches: Vec::new(alloc),
        }
    }

    // Grows until all examples at a leaf have one bit, which is the leaf's then, or until no test parts
    // its first two with other bits, as where the points of twins disagree. Rows never go, so a leaf
    // without examples is a whole tree that no row came to yet: it has the bit of most samples.
    pub(crate) fn learn(&mut self, alloc: Global, examples: &Examples) -> Result<(), Memory> {
        if self.branches.is_empty() {
            self.branches.push(Branch::Leaf(examples.likely_bit()))?;
        }
        let mut parts = Vec::new(alloc);
        let all = examples.numbers(alloc)?;
        parts.push(OpenBranch {
            at: 0,
            examples: all,
        })?;
        for _ in 0..u64::MAX {
            match parts.pop() {
                None => return Ok(()),
                Some(part) => self.visit(alloc, examples, part, &mut parts)?,
            }
        }
        Ok(())
    }

    // Parts the examples at a test; makes a leaf a test where they disagree.
    fn visit(
        &mut self,
        alloc: Global,
        examples: &Examples,
        part: OpenBranch,
        parts: &mut Vec<OpenBranch>,
    ) -> Result<(), Memory> {
        if part.examples.is_empty() {
            return Ok(());
        }
        match self.branches.get(part.at) {
            None => Ok(()),
            Some(Branch::Test { tested, yes, no }) => {
                let ones = examples.with(alloc, &part.examples, *tested, true)?;
                let zeros = examples.with(alloc, &part.examples, *tested, false)?;
                let (yes, no) = (*yes, *no);
                parts.push(OpenBranch {
                    at: yes,
                    examples: ones,
                })?;
                parts.push(OpenBranch {
                    at: no,
                    examples: zeros,
                })?;
                Ok(())
            }
            Some(Branch::Leaf(_)) => self.settle(examples, part, parts),
        }
    }

    // Gives a leaf the bit of its examples, or a test where they disagree: they come back to it.
    fn settle(
        &mut self,
        examples: &Examples,
        part: OpenBranch,
        parts: &mut Vec<OpenBranch>,
    ) -> Result<(), Memory> {
        match examples.best_test(&part.examples) {
            None => {
                self.put(part.at, Branch::Leaf(examples.first_bit(&part.examples)));
                Ok(())
            }
            Some(tested) => {
                let yes = self.branches.len();
                self.branches.push(Branch::Leaf(false))?;
                let no = self.branches.len();
                self.branches.push(Branch::Leaf(false))?;
                self.put(part.at, Branch::Test { tested, yes, no });
                parts.push(part)?;
                Ok(())
            }
        }
    }

    // How many leaves there are.
    pub(crate) fn leaves(&self) -> usize {
        self.branches
            .iter()
            .filter(|branch| is_leaf(branch))
            .count()
    }

    // The bit at a row.
    pub(crate) fn bit(&self, f: &Formula, seen: &[u64], row: &Row) -> bool {
        let mut at = 0usize;
        for _ in 0..self.branches.len() {
            match self.branches.get(at) {
                Some(Branch::Test { tested, yes, no }) => {
                    at = if is_true(f, seen.get(*tested), row) {
                        *yes
                    } else {
                        *no
                    };
                }
                Some(Branch::Leaf(bit)) => return *bit,
                None => return false,
            }
        }
        false
    }

    fn put(&mut self, at: usize, branch: Branch) {
        if let Some(place) = self.branches.get_mut(at) {
            *place = branch;
        }
    }

    /// The tree as a node, over the universals that the existential sees.
    pub(crate) fn node(
        &self,
        alloc: Global,
        f: &Formula,
        seen: &[u64],
        graph: &mut Graph,
    ) -> Result<Node, Memory>
        requires inputs { length f.now.universals ≤ graph.old.inputs }
        requires seen { All (Contains f.now.universals) seen.now }
        ensures extends { Extends graph.old graph.new }
        ensures node { IfOk result (IsOver graph.new (universal_places f.now seen.now)) }
    {
        let mut nodes = no_nodes(alloc, self.branches.len())?;
        let mut at = nodes.len();
        while at > 0 {
            at -= 1;
            nodes[at] = self.branch_node(at, f, seen, &nodes, graph)?;
        }
        Ok(node_at(&nodes, 0))
    }

    // The node of a branch, where those of the branches further on are known.
    fn branch_node(
        &self,
        at: usize,
        f: &Formula,
        seen: &[u64],
        nodes: &[Node],
        graph: &mut Graph,
    ) -> Result<Node, Memory>
        requires inputs { length f.now.universals ≤ graph.old.inputs }
        requires seen { All (Contains f.now.universals) seen.now }
        requires nodes { All (IsOver graph.old (universal_places f.now seen.now)) nodes.now }
        ensures extends { Extends graph.old graph.new }
        ensures node { IfOk result (IsOver graph.new (universal_places f.now seen.now)) }
    {
        match self.branches.get(at) {
            Some(Branch::Test { tested, yes, no }) => match seen.get(*tested) {
                Some(x) => {
                    let input = graph.input(f.place_of(*x));
                    graph.mux(input, node_at(nodes, *yes), node_at(nodes, *no))
                }
                None => Ok(Node::constant(false)),
            },
            Some(Branch::Leaf(bit)) => Ok(Node::constant(*bit)),
            None => Ok(Node::constant(false)),
        }
    }
}

fn is_true(f: &Formula, universal: Option<&u64>, row: &Row) -> bool {
    match universal {
        Some(x) => {
            let place = f.place_of(*x);
            place < row.len() && row.get(place)
        }
        None => false,
    }
}

fn is_leaf(branch: &Branch) -> bool {
    match branch {
        Branch::Leaf(_) => true,
        Branch::Test { .. } => false,
    }
}

fn no_nodes(alloc: Global, n: usize) -> Result<Vec<Node>, Memory>
    ensures { IfOk result (λ nodes. nodes.items ≡ replicate n (Node.Constant false)) }
{
    Ok(vec![in alloc; Node::Constant(false); n]?)
}

// The node at a place; false where there is none.
fn node_at(nodes: &[Node], at: usize) -> Node
    ensures { result ≡ slice_index_or nodes.now at (Node.Constant false) }
{
    match nodes.get(at) {
        Some(node) => *node,
        None => Node::Constant(false),
    }
}
