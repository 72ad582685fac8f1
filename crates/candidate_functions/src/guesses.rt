//! What candidates are where neither a pair nor a rule says their bit: each existential's guess, or
//! where none is given its tree.

ghost use Rattle.std.specs.Prelude.{◌≡◌, ◌≤◌, ◌<◌, [], length, All, IfOk, Some, slice_get};
ghost use Rattle.dq_lits.specs.Formula.{Existential};
ghost use Rattle.dq_formula.specs.Prefix.{existential_variables};
ghost use Rattle.aig_graph.specs.Made.{Extends};
ghost use Rattle.candidate_functions.specs.Candidates.{AreGuesses};
ghost use Rattle.candidate_functions.specs.Pairs.{IsByRules, AreByRules};

use crate::definitions::given_at;
use crate::examples::{Examples, bits_of};
use crate::outputs::Known;
use crate::refutations::Refutations;
use crate::trees::Tree;
use crate::twins::{Twins, seen_at};
use aig_graph::{Graph, Node};
use dq_formula::Formula;
use dq_lits::{Memory, Row};
use std::alloc::Global;

/// Decision trees of a formula's existentials, which grow from call to call of `build`. What they
/// say is a guess, of which no contract speaks.
#[derive(Drop)]
pub struct Trees {
    alloc: Global,
    // By place of the existential.
    trees: Vec<Tree>,
    // Which of them have one tree, once that is known.
    twins: Option<Twins>,
    refutations: Refutations,
}

impl Trees {
    /// None has grown yet. It takes no memory.
    pub fn new(alloc: Global) -> Trees {
        Trees {
            alloc,
            trees: Vec::new(alloc),
            twins: None,
            refutations: Refutations::new(alloc),
        }
    }

    /// How many leaves the tree of the existential at a place has: one before the first row, and at
    /// most as many as there are rows, or twice as many where a twin has it too. No contract says so;
    /// cases count them.
    pub fn leaves(&self, place: usize) -> usize {
        match self.trees.get(self.tree_of(place)) {
            Some(tree) => tree.leaves(),
            None => 0,
        }
    }

    /// What it says at a row: the point's bit, if `build` made the tree grow by that point. No
    /// contract says so; cases look.
    pub fn bit(&self, f: &Formula, place: usize, row: &Row) -> bool
        requires { place < length f.now.existentials }
    {
        f.every_formula_is_lawful();
        match self.trees.get(self.tree_of(place)) {
            Some(tree) => tree.bit(f, f.seen(f.existentials()[place]), row),
            None => false,
        }
    }

    // For each existential without a definition its guess, or where there is none, or rows refuted it
    // too often, the node of its tree, which grows first; any node for another one.
    pub(crate) fn nodes(&mut self, known: &Known, graph: &mut Graph) -> Result<Vec<Node>, Memory>
        requires inputs { length known.now.f.now.universals ≤ graph.old.inputs }
        requires whole { All (λ row. length row ≡ length known.now.f.now.universals)
            known.now.table.now.rows }
        requires variables { known.now.points.now.variables ≡ existential_variables known.now.f.now }
        requires as_many { length known.now.points.now.rows ≡ length known.now.table.now.rows }
        requires guesses { AreGuesses known.now.f.now graph.old known.now.guesses.now }
        ensures extends { Extends graph.old graph.new }
        ensures nodes { IfOk result
            (λ nodes. AreByRules known.now.f.now graph.new [] nodes.items) }
    {
        known.f.every_formula_is_lawful();
        self.refutations.count(self.alloc, known, graph)?;
        self.find_twins(known)?;
        let mut nodes = Vec::new(self.alloc);
        for place in 0..known.f.existentials().len() {
            self.grow(place)?;
            let node = self.node_at(known, place, graph)?;
            nodes.push(node)?;
        }
        Ok(nodes)
    }

    // Finds twins before the first tree has grown.
    fn find_twins(&mut self, known: &Known) -> Result<(), Memory> {
        if self.twins.is_none() {
            self.twins = Some(Twins::of(self.alloc, known)?);
        }
        Ok(())
    }

    fn twin(&self, place: usize) -> Option<usize> {
        match &self.twins {
            Some(twins) => twins.twin(place),
            None => None,
        }
    }

    // The place of the existential whose tree the one at a place has.
    fn tree_of(&self, place: usize) -> usize {
        shared_place(place, self.twin(place))
    }

    // Has a tree at a place.
    fn grow(&mut self, place: usize) -> Result<(), Memory> {
        if place >= self.trees.len() {
            self.trees.push(Tree::new(self.alloc))?;
        }
        Ok(())
    }

    fn node_at(&mut self, known: &Known, place: usize, graph: &mut Graph) -> Result<Node, Memory>
        requires place { place < length known.now.f.now.existentials }
        requires inputs { length known.now.f.now.universals ≤ graph.old.inputs }
        requires variables { known.now.points.now.variables ≡ existential_variables known.now.f.now }
        requires as_many { length known.now.points.now.rows ≡ length known.now.table.now.rows }
        requires guesses { AreGuesses known.now.f.now graph.old known.now.guesses.now }
        ensures extends { Extends graph.old graph.new }
        ensures node { (y : Existential) → slice_get known.now.f.now.existentials place ≡ Some y
            → IfOk result (IsByRules known.now.f.now graph.new [] y) }
    {
        known.f.every_formula_is_lawful();
        if given_at(known.definitions, place).is_some() {
            return Ok(Node::constant(false));
        }
        let guess = self.refutations.standing(known.guesses, place);
        let twin = self.twin(place);
        match (guess, self.trees.get_mut(shared_place(place, twin))) {
            (Some(guess), _) => Ok(guess),
            (None, Some(tree)) => learned(self.alloc, known, place, twin, tree, graph),
            (None, None) => Ok(Node::constant(false)),
        }
    }
}

// Twins have the tree of the one that comes first.
fn shared_place(place: usize, twin: Option<usize>) -> usize {
    match twin {
        Some(twin) => place.min(twin),
        None => place,
    }
}

// The node of the tree that the existential at a place has, which grows first where it is its own.
fn learned(
    alloc: Global,
    known: &Known,
    place: usize,
    twin: Option<usize>,
    tree: &mut Tree,
    graph: &mut Graph,
) -> Result<Node, Memory>
    requires place { place < length known.now.f.now.existentials }
    requires inputs { length known.now.f.now.universals ≤ graph.old.inputs }
    requires variables { known.now.points.now.variables ≡ existential_variables known.now.f.now }
    requires as_many { length known.now.points.now.rows ≡ length known.now.table.now.rows }
    ensures extends { Extends graph.old graph.new }
    ensures node { (y : Existential) → slice_get known.now.f.now.existentials place ≡ Some y
        → IfOk result (IsByRules known.now.f.now graph.new [] y) }
{
    grow(alloc, known, place, twin, tree)?;
    known.f.every_formula_is_lawful();
    let y = known.f.existentials()[place];
    tree.node(alloc, known.f, known.f.seen(y), graph)
}

// Makes the tree of the existential at a place grow, by its points and its twin's, unless it is the
// twin's.
fn grow(
    alloc: Global,
    known: &Known,
    place: usize,
    twin: Option<usize>,
    tree: &mut Tree,
) -> Result<(), Memory>
    requires variables { known.now.points.now.variables ≡ existential_variables known.now.f.now }
    requires as_many { length known.now.points.now.rows ≡ length known.now.table.now.rows }
{
    if shared_place(place, twin) != place {
        return Ok(());
    }
    let bits = bits_of(alloc, known, place, twin)?;
    let examples = Examples {
        f: known.f,
        table: known.table,
        place,
        bits: &bits,
        seen: seen_at(known.f, place),
        twin_seen: twin_seen(known.f, twin),
        samples: known.samples,
    };
    tree.learn(alloc, &examples)
}

fn twin_seen(f: &Formula, twin: Option<usize>) -> &[u64] {
    match twin {
        Some(twin) => seen_at(f, twin),
        None => &[],
    }
}
