//! Failing rows that differ from the newest in a universal that no existential without a definition
//! sees. Those existentials have the same bits at both rows, so that where a box lacks an input two
//! rows often refute the formula. Candidates are evaluated there, and the solver isn't asked.
//!
//! Such rows are looked for while there are few rows, and then at each power of two. What is answered
//! is a failure, and that is the contract.

ghost use Rattle.std.specs.Prelude.{List, Bool, IfOk, IfSome};
ghost use Rattle.dq_lits.specs.Formula.{IsWellFormed};
ghost use Rattle.aig_graph.specs.Outputs.{outputs_of};
ghost use Rattle.circuit_cnf.specs.Failing.{IsFailure};
ghost use Rattle.known_functions.specs.Searching.{HasInputs};
ghost use Rattle.repair_loop.specs.Searching.{AreBuilt};

use crate::judging::Candidates;
use crate::searches::{Known, Search};
use crate::worse_rows::count_literals;
use aig_graph::Node;
use circuit_cnf::Failure;
use dq_formula::{Deps, Formula};
use dq_lits::{Memory, Row};
use dq_session::ClauseDatabase;
use std::alloc::Global;

// Up to so many rows they are looked for at each.
const FEW_ROWS: u64 = 8;
// How many gates, literals and bits are looked at for a round at most.
const MOST_LOOKS: usize = 1 << 21;

impl<'f, 'p> Search<'f, 'p> {
    // How candidates fail at such a row, if they do at one of those that are looked at.
    pub(crate) fn find_unseen_turn(
        &self,
        candidates: &Candidates,
        database: &ClauseDatabase,
        known: &Known,
    ) -> Result<Option<Failure>, Memory>
        requires formula { IsWellFormed self.now.f.now }
        requires inputs { HasInputs self.now.f.now candidates.now.graph.now }
        requires candidates { (rows : List (List Bool)) × AreBuilt self.now.f.now
            candidates.now.graph.now rows candidates.now.outputs.now }
        ensures { IfOk result (λ found. IfSome found (λ failure. IsFailure self.now.f.now
            (outputs_of self.now.f.now candidates.now.graph.now candidates.now.outputs.now)
            failure.row failure.values failure.j)) }
    {
        let rows = database.table().rows();
        if rows == 0 || rows > FEW_ROWS && !rows.is_power_of_two() {
            return Ok(None);
        }
        let newest = database.table().row(rows);
        let seen = seen_by_free(self.alloc, self.f, &known.definitions.nodes)?;
        Ok(self.turn_unseen(candidates, newest, &seen))
    }

    // The same among the turns of universals that aren't marked as seen.
    fn turn_unseen(&self, candidates: &Candidates, newest: &Row, seen: &Row) -> Option<Failure>
        requires formula { IsWellFormed self.now.f.now }
        requires inputs { HasInputs self.now.f.now candidates.now.graph.now }
        requires candidates { (rows : List (List Bool)) × AreBuilt self.now.f.now
            candidates.now.graph.now rows candidates.now.outputs.now }
        ensures { IfSome result (λ failure. IsFailure self.now.f.now
            (outputs_of self.now.f.now candidates.now.graph.now candidates.now.outputs.now)
            failure.row failure.values failure.j) }
    {
        if newest.len() != self.f.universals().len() {
            return None;
        }
        let looks = candidates
            .graph
            .len()
            .saturating_add(count_literals(self.f));
        let mut left = MOST_LOOKS / looks.saturating_add(newest.len()).max(1) + 1;
        for place in 0..seen.len() {
            if left == 0 {
                return None;
            }
            if !seen.get(place) {
                left -= 1;
                let found = self.turned(candidates, newest, place);
                if found.is_some() {
                    return found;
                }
            }
        }
        None
    }
}

// For each universal whether an existential that has no node sees it.
fn seen_by_free(alloc: Global, f: &Formula, nodes: &[Option<Node>]) -> Result<Row, Memory> {
    let mut seen = Row::new(alloc, f.universals().len())?;
    let mut first = 0;
    for (y, node) in f.existentials().iter().zip(nodes) {
        if node.is_none() && f.is_existential(*y) {
            match f.deps_of(*y) {
                Deps::FirstOf(n) => first = first.max(*n),
                Deps::Listed(vars) => mark(f, vars.items(), &mut seen),
            }
        }
    }
    let first = &f.universals()[..first.min(f.universals().len())];
    mark(f, first, &mut seen);
    Ok(seen)
}

// Marks the places of universals.
fn mark(f: &Formula, universals: &[u64], seen: &mut Row) {
    for x in universals {
        let place = f.place_of(*x);
        if place < seen.len() {
            seen.set(place, true);
        }
    }
}
