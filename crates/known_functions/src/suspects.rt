//! Clauses that no definition makes true by itself: what the existentials without a definition have
//! to see to.

use crate::known_inputs::KnownInputs;
use aig_graph::{Graph, Node};
use dq_formula::Formula;
use dq_lits::{Lit, Memory};
use std::alloc::Global;

/// A formula's definitions, by place of the existential, and the graph that they stand in.
#[derive(Drop)]
pub(crate) struct Defined<'f, 'g, 'n> {
    pub f: &'f Formula,
    pub graph: &'g Graph,
    pub nodes: &'n [Option<Node>],
}

impl Defined<'_, '_, '_> {
    /// The definition of a variable, if it has one.
    pub(crate) fn node_of(&self, v: u64) -> Option<Node> {
        match self.f.existential_place(v) {
            Some(place) => match self.nodes.get(place) {
                Some(node) => *node,
                None => None,
            },
            None => None,
        }
    }

    /// The numbers of the clauses that no definition makes true, by few looks. Time follows the
    /// literals. No contract speaks of what is found.
    pub(crate) fn suspects(&self, alloc: Global) -> Result<Vec<usize>, Memory> {
        let mut known = KnownInputs::new(alloc, self.graph)?;
        self.suspects_by(alloc, &mut known)
    }

    fn suspects_by(&self, alloc: Global, known: &mut KnownInputs) -> Result<Vec<usize>, Memory> {
        let mut suspects = Vec::new(alloc);
        for number in 0..self.f.clauses() {
            if !self.makes_true(self.f.clause(number), known) {
                suspects.push(number)?;
            }
        }
        Ok(suspects)
    }

    // Whether some literal of a clause is true by its variable's definition where the others are
    // false.
    fn makes_true(&self, clause: &[Lit], known: &mut KnownInputs) -> bool {
        for l in clause {
            self.say(*l, Some(l.is_neg()), known);
        }
        let is_true = self.is_one_true(clause, known);
        for l in clause {
            self.say(*l, None, known);
        }
        is_true
    }

    fn is_one_true(&self, clause: &[Lit], known: &mut KnownInputs) -> bool {
        for l in clause {
            if let Some(node) = self.node_of(l.var()) {
                if known.value(node) == Some(!l.is_neg()) {
                    return true;
                }
            }
        }
        false
    }

    // Says what is known of a literal's variable.
    fn say(&self, l: Lit, value: Option<bool>, known: &mut KnownInputs) {
        let universals = self.f.universals().len();
        match (
            self.f.universal_place(l.var()),
            self.f.existential_place(l.var()),
        ) {
            (Some(place), _) => known.set(place, value),
            (None, Some(place)) => known.set(universals.saturating_add(place), value),
            (None, None) => {}
        }
    }
}
