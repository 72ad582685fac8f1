//! What holds of universals where a clause is false: that one has a bit, or that it equals another
//! variable.
//!
//! A formula of circuits has a universal for what a box reads, or for a register's next value, and its
//! clauses speak of the rows alone in which that universal has the signal's value. A row of bits drawn
//! at random is hardly ever among them; one that is drawn with these equalities is.
//!
//! No contract speaks of it: whatever is said here, candidates are evaluated at a row before it counts.

use aig_graph::{Graph, Look, Node};
use dq_formula::Formula;
use dq_lits::{Memory, Row};
use known_functions::Definitions;
use std::alloc::Global;

/// Where there are no more universals that no premise says anything of, all their rows are drawn.
pub(crate) const FEW_UNIVERSALS: usize = 11;

// How many premises are kept at most.
const MOST_PREMISES: usize = 16;
// How many nodes are looked at for all clauses together at most.
const MOST_LOOKS: usize = 1 << 20;
// How many copies of copies are followed to a variable at most.
const MOST_COPIES: usize = 8;

/// A universal, by its place, that has a bit.
#[derive(Clone, Copy)]
pub(crate) struct FixedBit {
    pub place: usize,
    pub bit: bool,
}

/// A universal, by its place, that equals an input of the graph, or its negation. The graph's inputs
/// are the universals, and then the existentials.
#[derive(Clone, Copy)]
pub(crate) struct Equality {
    pub place: usize,
    pub input: usize,
    pub is_negated: bool,
}

/// What holds where a clause is false, as far as few looks tell.
#[derive(Drop)]
pub(crate) struct Premise {
    pub bits: Vec<FixedBit>,
    pub equalities: Vec<Equality>,
}

impl Premise {
    // Nothing.
    fn none(alloc: Global) -> Premise {
        Premise {
            bits: Vec::new(alloc),
            equalities: Vec::new(alloc),
        }
    }

    fn is_same(&self, other: &Premise) -> bool {
        self.bits.len() == other.bits.len()
            && self.equalities.len() == other.equalities.len()
            && self.has_bits_of(other)
            && self.has_equalities_of(other)
    }

    fn has_bits_of(&self, other: &Premise) -> bool {
        for (it, its) in self.bits.iter().zip(&other.bits) {
            if it.place != its.place || it.bit != its.bit {
                return false;
            }
        }
        true
    }

    fn has_equalities_of(&self, other: &Premise) -> bool {
        for (it, its) in self.equalities.iter().zip(&other.equalities) {
            if it.place != its.place || it.input != its.input || it.is_negated != its.is_negated {
                return false;
            }
        }
        true
    }
}

/// The premises of the clauses that no definition makes true, as far as they have equalities; where
/// none has and there are few universals, one that says nothing.
pub(crate) fn find_premises(
    alloc: Global,
    f: &Formula,
    graph: &Graph,
    definitions: &Definitions,
) -> Result<Vec<Premise>, Memory> {
    let mut finder = Finder {
        f,
        graph,
        nodes: &definitions.nodes,
        pending: Vec::new(alloc),
        bound: Row::new(alloc, f.universals().len())?,
        looks: MOST_LOOKS,
    };
    let mut premises = Vec::new(alloc);
    for number in definitions.suspects() {
        if *number < f.clauses() && premises.len() < MOST_PREMISES && finder.looks > 0 {
            finder.add(alloc, *number, &mut premises)?;
        }
    }
    if premises.is_empty() && f.universals().len() <= FEW_UNIVERSALS {
        premises.push(Premise::none(alloc))?;
    }
    Ok(premises)
}

// A node that has a value.
#[derive(Clone, Copy)]
struct Demand {
    node: Node,
    value: bool,
}

// Two nodes.
#[derive(Clone, Copy)]
struct Pair {
    first: Node,
    second: Node,
}

// A look at clauses, with existentials' definitions by place.
#[derive(Drop)]
struct Finder<'f, 'g, 'n> {
    f: &'f Formula,
    graph: &'g Graph,
    nodes: &'n [Option<Node>],
    // What is still to be followed.
    pending: Vec<Demand>,
    // The universals of which something was said, by place.
    bound: Row,
    looks: usize,
}

impl Finder<'_, '_, '_> {
    // Adds the premise of the clause at a place, where it has an equality and no other is the same.
    fn add(
        &mut self,
        alloc: Global,
        number: usize,
        premises: &mut Vec<Premise>,
    ) -> Result<(), Memory> {
        let mut premise = Premise::none(alloc);
        self.fill(number, &mut premise)?;
        self.unbind(&premise);
        if !premise.equalities.is_empty() && !has_same(premises, &premise) {
            premises.push(premise)?;
        }
        Ok(())
    }

    // Follows what has to hold where the clause at a place is false.
    fn fill(&mut self, number: usize, premise: &mut Premise) -> Result<(), Memory> {
        if number >= self.f.clauses() {
            return Ok(());
        }
        let f = self.f;
        for l in f.clause(number) {
            if let Some(input) = self.input_of(l.var()) {
                self.demand(Node::Input(input, false), l.is_neg())?;
            }
        }
        for _ in 0..self.looks {
            let Some(demand) = self.pending.pop() else {
                return Ok(());
            };
            self.looks = self.looks.saturating_sub(1);
            self.follow(demand, premise)?;
        }
        self.pending.clear();
        Ok(())
    }

    fn unbind(&mut self, premise: &Premise) {
        for it in &premise.bits {
            self.bind(it.place, false);
        }
        for it in &premise.equalities {
            self.bind(it.place, false);
        }
    }

    fn bind(&mut self, place: usize, is_bound: bool) {
        if place < self.bound.len() {
            self.bound.set(place, is_bound);
        }
    }

    // Whether a place is that of a universal of which nothing was said.
    fn is_open(&self, place: usize) -> bool {
        place < self.bound.len() && !self.bound.get(place)
    }

    fn demand(&mut self, node: Node, value: bool) -> Result<(), Memory> {
        self.pending.push(Demand { node, value })?;
        Ok(())
    }

    fn input_of(&self, v: u64) -> Option<usize> {
        match (self.f.universal_place(v), self.f.existential_place(v)) {
            (Some(place), _) => Some(place),
            (None, Some(place)) => Some(self.f.universals().len().saturating_add(place)),
            (None, None) => None,
        }
    }

    // The definition of an input that is an existential, if it has one.
    fn definition(&self, input: usize) -> Option<Node> {
        match self
            .nodes
            .get(input.wrapping_sub(self.f.universals().len()))
        {
            Some(node) => *node,
            None => None,
        }
    }

    fn follow(&mut self, demand: Demand, premise: &mut Premise) -> Result<(), Memory> {
        match demand.node {
            Node::Constant(_) => Ok(()),
            Node::Input(input, is_negated) => {
                self.follow_input(input, demand.value != is_negated, premise)
            }
            Node::Gate(gate, is_negated) => {
                self.follow_gate(gate, demand.value != is_negated, premise)
            }
        }
    }

    fn follow_input(
        &mut self,
        input: usize,
        value: bool,
        premise: &mut Premise,
    ) -> Result<(), Memory> {
        if self.is_open(input) {
            self.bind(input, true);
            premise.bits.push(FixedBit {
                place: input,
                bit: value,
            })?;
        } else if let Some(node) = self.definition(input) {
            self.demand(node, value)?;
        }
        Ok(())
    }

    fn follow_gate(
        &mut self,
        gate: usize,
        value: bool,
        premise: &mut Premise,
    ) -> Result<(), Memory> {
        let Some(sides) = self.sides(gate) else {
            return Ok(());
        };
        if let Some(pair) = self.exclusive(sides) {
            return self.equate(pair, value, premise);
        }
        if value {
            self.demand(sides.first, true)?;
            self.demand(sides.second, true)?;
        }
        Ok(())
    }

    fn sides(&self, gate: usize) -> Option<Pair> {
        if gate >= self.graph.len() - self.graph.inputs() {
            return None;
        }
        match self.graph.look(Node::Gate(gate, false)) {
            Look::Gate(first, second, _) => Some(Pair { first, second }),
            _ => None,
        }
    }

    // The nodes that a gate of these sides is the exclusive or of, if it is one by their form.
    fn exclusive(&self, sides: Pair) -> Option<Pair> {
        let (Node::Gate(gate, true), Node::Gate(other, true)) = (sides.first, sides.second) else {
            return None;
        };
        let pair = self.sides(gate)?;
        let opposite = self.sides(other)?;
        if pair.is_opposite(opposite.first, opposite.second)
            || pair.is_opposite(opposite.second, opposite.first)
        {
            Some(pair)
        } else {
            None
        }
    }

    // Two nodes differ, or are equal: one of them may be a universal of which nothing was said.
    fn equate(&mut self, pair: Pair, differ: bool, premise: &mut Premise) -> Result<(), Memory> {
        let first = self.source(pair.first);
        let second = self.source(pair.second);
        if let Some(equality) = self.equality(first, second, differ) {
            return self.put(equality, premise);
        }
        if let Some(equality) = self.equality(second, first, differ) {
            return self.put(equality, premise);
        }
        Ok(())
    }

    fn put(&mut self, equality: Equality, premise: &mut Premise) -> Result<(), Memory> {
        self.bind(equality.place, true);
        premise.equalities.push(equality)?;
        Ok(())
    }

    // What a node says of an input that is a universal, where they differ or are equal.
    fn equality(&self, universal: Node, node: Node, differ: bool) -> Option<Equality> {
        match (universal, node) {
            (Node::Input(place, is_negated), Node::Input(input, is_other_negated))
                if self.is_open(place) => {
                Some(Equality {
                    place,
                    input,
                    is_negated: differ != (is_negated != is_other_negated),
                })
            }
            _ => None,
        }
    }

    // The variable that a node is a copy of, by few steps; the node itself where it is none.
    fn source(&self, node: Node) -> Node {
        let mut source = node;
        for _ in 0..MOST_COPIES {
            match self.copied(source) {
                Some(next) => source = next,
                None => return source,
            }
        }
        source
    }

    fn copied(&self, node: Node) -> Option<Node> {
        let Node::Input(input, is_negated) = node else {
            return None;
        };
        match self.definition(input) {
            Some(Node::Input(source, is_source_negated)) => Some(Node::Input(
                source,
                is_negated != is_source_negated,
            )),
            _ => None,
        }
    }
}

impl Pair {
    // Whether these are the negations of its nodes, in order.
    fn is_opposite(self, first: Node, second: Node) -> bool {
        self.first.not() == first && self.second.not() == second
    }
}

fn has_same(premises: &[Premise], premise: &Premise) -> bool {
    premises.iter().any(|it| it.is_same(premise))
}
