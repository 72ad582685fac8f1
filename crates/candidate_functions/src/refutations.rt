//! How often rows refuted guesses. One that is wrong again and again is dropped: the points then say
//! more than it does.
//!
//! A guess that is wrong at the newest row of eight turns, and of more than half of its turns, is
//! dropped; it comes back if it is right more often later.

ghost use Rattle.std.specs.Prelude.{◌≡◌, ◌≤◌, ◌<◌, ℕ, length, All, IfOk, None, Some, slice_index_or};
ghost use Rattle.aig_graph.specs.Graph.{IsNode};
ghost use Rattle.aig_graph.specs.declared.nodes.Node.{Node as NodeState};
ghost use Rattle.dq_formula.specs.Prefix.{IsLawful, existential_variables};
ghost use Rattle.candidate_functions.specs.Candidates.{AreGuesses};

use crate::definitions::given_at;
use crate::differing::values_at;
use crate::outputs::Known;
use aig_graph::{Graph, Node};
use dq_lits::{Memory, Row};
use std::alloc::Global;

// A guess is dropped where so many rows refuted it at least, and more than half of them.
const MOST_REFUTED: usize = 8;

// At how many rows a guess was looked at, and how many of them refuted it.
#[derive(Clone, Copy)]
struct Count {
    rows: usize,
    refuted: usize,
}

const NO_COUNT: Count = Count {
    rows: 0,
    refuted: 0,
};

/// For each existential, by its place, how often rows refuted its guess. No contract speaks of it.
#[derive(Drop)]
pub(crate) struct Refutations {
    counts: Vec<Count>,
}

impl Refutations {
    pub(crate) fn new(alloc: Global) -> Refutations {
        Refutations {
            counts: Vec::new(alloc),
        }
    }

    /// Compares each guess with its existential's point at the newest row.
    pub(crate) fn count(
        &mut self,
        alloc: Global,
        known: &Known,
        graph: &Graph,
    ) -> Result<(), Memory>
        requires short { All (λ row. length row ≤ graph.now.inputs) known.now.table.now.rows }
        requires variables { known.now.points.now.variables ≡ existential_variables known.now.f.now }
        requires as_many { length known.now.points.now.rows ≡ length known.now.table.now.rows }
        requires guesses { AreGuesses known.now.f.now graph.now known.now.guesses.now }
    {
        let newest = known.table.rows();
        if newest == 0 || known.guesses.is_empty() {
            return Ok(());
        }
        let guesses = guessed_nodes(alloc, known, graph)?;
        let mut buf = Row::new(alloc, graph.len())?;
        let values = values_at(alloc, &guesses, known.table.row(newest), graph, &mut buf)?;
        self.compare(known, &values, newest)
    }

    // The same, where the guesses' bits at the row of a round are known.
    fn compare(&mut self, known: &Known, values: &Row, round: u64) -> Result<(), Memory>
        requires from_one { 1 ≤ round }
        requires last { round ≤ length known.now.points.now.rows }
        requires variables { known.now.points.now.variables ≡ existential_variables known.now.f.now }
    {
        known.f.every_formula_is_lawful();
        for place in 0..known.f.existentials().len() {
            if place >= self.counts.len() {
                self.counts.push(NO_COUNT)?;
            }
            if given_at(known.guesses, place).is_some() && place < values.len() {
                let point = known.points.bit(known.f.existentials()[place], round);
                self.note(place, values.get(place) != point);
            }
        }
        Ok(())
    }

    fn note(&mut self, place: usize, is_refuted: bool) {
        if let Some(count) = self.counts.get_mut(place) {
            count.rows = count.rows.saturating_add(1);
            if is_refuted {
                count.refuted = count.refuted.saturating_add(1);
            }
        }
    }

    /// The guess of the existential at a place, if it wasn't dropped.
    pub(crate) fn standing(&self, guesses: &[Option<Node>], place: usize) -> Option<Node>
        ensures { (n : NodeState) → result ≡ Some n → slice_index_or guesses.now place None ≡ Some n }
    {
        if self.is_dropped(place) {
            return None;
        }
        given_at(guesses, place)
    }

    fn is_dropped(&self, place: usize) -> bool {
        match self.counts.get(place) {
            Some(count) => {
                let right = count.rows.saturating_sub(count.refuted);
                count.refuted >= MOST_REFUTED && count.refuted > right
            }
            None => false,
        }
    }
}

// The guess of each existential, or any node where it has none.
fn guessed_nodes(alloc: Global, known: &Known, graph: &Graph) -> Result<Vec<Node>, Memory>
    requires guesses { AreGuesses known.now.f.now graph.now known.now.guesses.now }
    ensures { IfOk result (λ nodes. All (IsNode graph.now) nodes.items) }
{
    known.f.every_formula_is_lawful();
    let mut nodes = Vec::new(alloc);
    for place in 0..known.f.existentials().len() {
        nodes.push(guessed_node(known, graph, place))?;
    }
    Ok(nodes)
}

fn guessed_node(known: &Known, graph: &Graph, place: usize) -> Node
    requires lawful { IsLawful known.now.f.now }
    requires place { place < length known.now.f.now.existentials }
    requires guesses { AreGuesses known.now.f.now graph.now known.now.guesses.now }
    ensures { IsNode graph.now result }
{
    // The call shows the graph's invariant.
    let _ = graph.inputs();
    match given_at(known.guesses, place) {
        Some(guess) => guess,
        None => Node::constant(false),
    }
}
