//! Failing rows at which more clauses are false. Where a formula is clauses rather than circuits, a
//! row tells the more the more clauses are false there, and the solver looks for one alone.
//!
//! Where most clauses state gates it costs rounds: a row at which many outputs are wrong makes
//! several boxes wrong at once. What is answered is a failure, and that is the contract.

ghost use Rattle.std.specs.Prelude.{◌≡◌, List, Bool, length, IfSome};
ghost use Rattle.dq_lits.specs.Formula.{IsWellFormed};
ghost use Rattle.aig_graph.specs.Outputs.{outputs_of};
ghost use Rattle.circuit_cnf.specs.Failing.{IsFailure};
ghost use Rattle.known_functions.specs.Searching.{HasInputs};
ghost use Rattle.repair_loop.specs.Searching.{AreBuilt};

use crate::judging::Candidates;
use crate::searches::{Known, Search};
use circuit_cnf::{Failure, failure_at};
use dq_formula::Formula;
use dq_lits::{Lit, Row};
use dq_session::ClauseDatabase;

// How many gates, literals and bits are looked at for a row at most.
const MOST_LOOKS: usize = 1 << 24;

impl<'f, 'p> Search<'f, 'p> {
    // How candidates fail at a row near that of a failure, at which no fewer clauses are false. Each
    // bit is turned in turn and stays so where that makes more clauses false. Want of memory leaves
    // the row as it is.
    pub(crate) fn find_worse(
        &self,
        candidates: &Candidates,
        database: &ClauseDatabase,
        known: &Known,
        failure: Failure,
    ) -> Failure
        requires formula { IsWellFormed self.now.f.now }
        requires inputs { HasInputs self.now.f.now candidates.now.graph.now }
        requires candidates { (rows : List (List Bool)) × AreBuilt self.now.f.now
            candidates.now.graph.now rows candidates.now.outputs.now }
        requires failure { IsFailure self.now.f.now
            (outputs_of self.now.f.now candidates.now.graph.now candidates.now.outputs.now)
            failure.row failure.values failure.j }
        ensures { IsFailure self.now.f.now
            (outputs_of self.now.f.now candidates.now.graph.now candidates.now.outputs.now)
            result.row result.values result.j }
    {
        let mut worst = failure;
        let mut most = count_false(self.f, &worst);
        for place in 0..self.most_turns(candidates, database, known) {
            if let Some(found) = self.turned(candidates, &worst.row, place) {
                let count = count_false(self.f, &found);
                if count > most {
                    worst = found;
                    most = count;
                }
            }
        }
        worst
    }

    // How many bits are turned. None where most existentials have a definition, since rows that make
    // many outputs of a circuit wrong take more rounds there; and every other row stays as it is
    // found.
    fn most_turns(
        &self,
        candidates: &Candidates,
        database: &ClauseDatabase,
        known: &Known,
    ) -> usize {
        let nodes = &known.definitions.nodes;
        let free = nodes.iter().filter(|node| node.is_none()).count();
        if database.table().rows() % 2 == 0 || free < nodes.len().saturating_sub(free) {
            return 0;
        }
        let bits = self.f.universals().len();
        let looks = candidates
            .graph
            .len()
            .saturating_add(count_literals(self.f));
        bits.min(MOST_LOOKS / looks.saturating_add(bits).max(1))
    }

    // How candidates fail at a row with the bit at a place turned, if they do.
    pub(crate) fn turned(&self, candidates: &Candidates, row: &Row, place: usize) -> Option<Failure>
        requires formula { IsWellFormed self.now.f.now }
        requires inputs { HasInputs self.now.f.now candidates.now.graph.now }
        requires candidates { (rows : List (List Bool)) × AreBuilt self.now.f.now
            candidates.now.graph.now rows candidates.now.outputs.now }
        requires whole { length row.now ≡ length self.now.f.now.universals }
        ensures { IfSome result (λ failure. IsFailure self.now.f.now
            (outputs_of self.now.f.now candidates.now.graph.now candidates.now.outputs.now)
            failure.row failure.values failure.j) }
    {
        if place >= row.len() {
            return None;
        }
        let Ok(mut turned) = row.copy() else {
            return None;
        };
        turned.set(place, !row.get(place));
        let nodes = candidates.outputs.items();
        match failure_at(self.alloc, candidates.graph, self.f, nodes, &turned) {
            Ok(found) => found,
            Err(_) => None,
        }
    }
}

// How many literals the clauses have together, and one for each clause.
pub(crate) fn count_literals(f: &Formula) -> usize {
    let mut count = 0usize;
    for number in 0..f.clauses() {
        count = count
            .saturating_add(f.clause(number).len())
            .saturating_add(1);
    }
    count
}

// How many clauses are false in a failure. No contract says so: it only chooses among rows.
fn count_false(f: &Formula, failure: &Failure) -> usize {
    let mut count = 0usize;
    for number in 0..f.clauses() {
        if !is_true(f, failure, f.clause(number)) {
            count = count.saturating_add(1);
        }
    }
    count
}

fn is_true(f: &Formula, failure: &Failure, clause: &[Lit]) -> bool {
    clause
        .iter()
        .any(|l| bit_of(f, failure, l.var()) != l.is_neg())
}

fn bit_of(f: &Formula, failure: &Failure, v: u64) -> bool {
    if let Some(place) = f.universal_place(v) {
        return bit_at(&failure.row, place);
    }
    match f.existential_place(v) {
        Some(place) => bit_at(&failure.values, place),
        None => false,
    }
}

fn bit_at(row: &Row, place: usize) -> bool {
    place < row.len() && row.get(place)
}
