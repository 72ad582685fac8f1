//! Which sign the literals of each variable have more often (R. Jeroslow, J. Wang, "Solving
//! propositional satisfiability problems", 1990, weigh them so). It is where a search begins that
//! knows nothing else of a formula. No contract speaks of it: who uses what it proposes tests it.

ghost use Rattle.std.specs.Prelude.{All, IfOk};
ghost use Rattle.repair_loop.specs.Constants.{IsConstant};

use aig_graph::Node;
use dq_formula::Formula;
use dq_lits::{Lit, Memory, Row};
use std::alloc::Global;

/// How often the literals of each variable are positive and negative, universals and existentials in
/// order of declaration.
#[derive(Drop)]
pub(crate) struct Signs {
    universals: Vec<SignCounts>,
    existentials: Vec<SignCounts>,
}

#[derive(Clone, Copy)]
struct SignCounts {
    positive: u64,
    negative: u64,
}

// No literals yet.
const NONE: SignCounts = SignCounts {
    positive: 0,
    negative: 0,
};

impl Signs {
    /// The signs in all clauses.
    pub(crate) fn of(alloc: Global, f: &Formula) -> Result<Signs, Memory> {
        let mut signs = Signs {
            universals: vec![in alloc; NONE; f.universals().len()]?,
            existentials: vec![in alloc; NONE; f.existentials().len()]?,
        };
        for number in 0..f.clauses() {
            signs.note(f, f.clause(number));
        }
        Ok(signs)
    }

    fn note(&mut self, f: &Formula, clause: &[Lit]) {
        for l in clause {
            self.note_literal(f, *l);
        }
    }

    fn note_literal(&mut self, f: &Formula, l: Lit) {
        if let Some(place) = f.universal_place(l.var()) {
            add(&mut self.universals, place, l.is_neg());
        } else if let Some(place) = f.existential_place(l.var()) {
            add(&mut self.existentials, place, l.is_neg());
        }
    }

    /// A row at which more literals of each universal are false than true.
    pub(crate) fn row(&self, alloc: Global) -> Result<Row, Memory> {
        let mut row = Row::new(alloc, self.universals.len())?;
        for place in 0..self.universals.len() {
            row.set(place, !is_mostly_positive(&self.universals, place));
        }
        Ok(row)
    }

    /// Whether all clauses are true at that row with these constants.
    pub(crate) fn agree(&self, f: &Formula) -> bool {
        (0..f.clauses()).all(|number| self.have_true(f, f.clause(number)))
    }

    /// Whether constants of existentials without a definition make each clause of these numbers true.
    pub(crate) fn settle(&self, f: &Formula, nodes: &[Option<Node>], numbers: &[usize]) -> bool {
        numbers
            .iter()
            .all(|number| self.settle_numbered(f, nodes, *number))
    }

    fn settle_numbered(&self, f: &Formula, nodes: &[Option<Node>], number: usize) -> bool {
        number < f.clauses() && self.settle_clause(f, nodes, f.clause(number))
    }

    fn settle_clause(&self, f: &Formula, nodes: &[Option<Node>], clause: &[Lit]) -> bool {
        clause.iter().any(|l| self.settle_literal(f, nodes, *l))
    }

    fn settle_literal(&self, f: &Formula, nodes: &[Option<Node>], l: Lit) -> bool {
        match f.existential_place(l.var()) {
            Some(place) => is_undefined(nodes, place) && self.bit(f, l.var()) != l.is_neg(),
            None => false,
        }
    }

    fn have_true(&self, f: &Formula, clause: &[Lit]) -> bool {
        clause.iter().any(|l| self.bit(f, l.var()) != l.is_neg())
    }

    fn bit(&self, f: &Formula, v: u64) -> bool {
        if let Some(place) = f.universal_place(v) {
            return !is_mostly_positive(&self.universals, place);
        }
        match f.existential_place(v) {
            Some(place) => is_mostly_positive(&self.existentials, place),
            None => false,
        }
    }

    /// For each existential the constant at which more of its literals are true.
    pub(crate) fn constants(&self, alloc: Global) -> Result<Vec<Option<Node>>, Memory>
        ensures { IfOk result (λ nodes. All IsConstant nodes.items) }
    {
        let mut nodes = Vec::new(alloc);
        for place in 0..self.existentials.len() {
            let bit = is_mostly_positive(&self.existentials, place);
            nodes.push(Some(Node::constant(bit)))?;
        }
        Ok(nodes)
    }
}

fn is_undefined(nodes: &[Option<Node>], place: usize) -> bool {
    place < nodes.len() && nodes[place].is_none()
}

fn is_mostly_positive(counts: &[SignCounts], place: usize) -> bool {
    match counts.get(place) {
        Some(found) => found.positive >= found.negative,
        None => true,
    }
}

fn add(counts: &mut Vec<SignCounts>, place: usize, negative: bool) {
    if let Some(found) = counts.get_mut(place) {
        if negative {
            found.negative = found.negative.saturating_add(1);
        } else {
            found.positive = found.positive.saturating_add(1);
        }
    }
}
