//! Failing rows among those that are drawn, before the solver is asked: random simulation, as circuits
//! are compared by it (A. Mishchenko, S. Chatterjee, R. Brayton, N. Een, "Improvements to combinational
//! equivalence checking", 2006), under the premise of a clause. 64 rows are evaluated at once.
//!
//! Where boxes feed one another the rows' later bits hang on earlier boxes, and rows drawn at random
//! tell little of those that come late: a premise is left that few passes don't settle, and nothing is
//! drawn before the solver's first rows, unless all rows are. What is answered is a failure, and that
//! is the contract.

ghost use Rattle.std.specs.Prelude.{◌≡◌, List, Bool, All, length, IfOk, IfSome};
ghost use Rattle.dq_lits.specs.Formula.{IsWellFormed};
ghost use Rattle.aig_graph.specs.Graph.{IsNode};
ghost use Rattle.aig_graph.specs.Outputs.{outputs_of};
ghost use Rattle.circuit_cnf.specs.Failing.{IsFailure};
ghost use Rattle.known_functions.specs.Searching.{HasInputs};
ghost use Rattle.repair_loop.specs.Searching.{AreBuilt};

use crate::draws::Draws;
use crate::judging::Candidates;
use crate::premises::Premise;
use crate::searches::{Known, Search};
use crate::worse_rows::count_literals;
use circuit_cnf::{Failure, failure_at};
use dq_formula::Formula;
use dq_lits::{Lit, Memory, Row};
use dq_session::ClauseDatabase;
use std::alloc::Global;

// So many rows are the solver's, unless all rows are drawn.
const FIRST_ROWS: u64 = 14;
// How often the candidates are evaluated for 64 rows at most, until a premise holds there.
const MOST_PASSES: usize = 4;
// How many gates, literals and bits are looked at for a round at most.
const MOST_LOOKS: usize = 1 << 21;

impl<'f, 'p> Search<'f, 'p> {
    // How candidates fail at a row that is drawn, if they do at one.
    pub(crate) fn find_drawn(
        &self,
        candidates: &Candidates,
        database: &ClauseDatabase,
        known: &Known,
    ) -> Result<Option<Failure>, Memory>
        requires formula { IsWellFormed self.now.f.now }
        requires inputs { HasInputs self.now.f.now candidates.now.graph.now }
        requires candidates { (rows : List (List Bool)) × AreBuilt self.now.f.now
            candidates.now.graph.now rows candidates.now.outputs.now }
        ensures { IfOk result (λ found. IfSome found (λ failure. IsFailure self.now.f.now
            (outputs_of self.now.f.now candidates.now.graph.now candidates.now.outputs.now)
            failure.row failure.values failure.j)) }
    {
        if known.premises.is_empty() {
            return Ok(None);
        }
        let most = self.most_draws(candidates) / known.premises.len().max(1);
        for premise in &known.premises {
            let draws = Draws::new(self.alloc, self.f, database.table(), premise, most)?;
            let found = self.find_under(candidates, database, known, draws)?;
            if found.is_some() {
                return Ok(found);
            }
        }
        Ok(None)
    }

    // The same among rows under one premise.
    fn find_under(
        &self,
        candidates: &Candidates,
        database: &ClauseDatabase,
        known: &Known,
        draws: Draws,
    ) -> Result<Option<Failure>, Memory>
        requires formula { IsWellFormed self.now.f.now }
        requires inputs { HasInputs self.now.f.now candidates.now.graph.now }
        requires candidates { (rows : List (List Bool)) × AreBuilt self.now.f.now
            candidates.now.graph.now rows candidates.now.outputs.now }
        ensures { IfOk result (λ found. IfSome found (λ failure. IsFailure self.now.f.now
            (outputs_of self.now.f.now candidates.now.graph.now candidates.now.outputs.now)
            failure.row failure.values failure.j)) }
    {
        if database.table().rows() < FIRST_ROWS && !draws.are_all() {
            return Ok(None);
        }
        match self.draw_failing(candidates, known, draws)? {
            Some(row) if row.len() == self.f.universals().len() => {
                let nodes = candidates.outputs.items();
                failure_at(self.alloc, candidates.graph, self.f, nodes, &row)
            }
            _ => Ok(None),
        }
    }

    // A row that is drawn at which some clause seems to be false.
    fn draw_failing(
        &self,
        candidates: &Candidates,
        known: &Known,
        draws: Draws,
    ) -> Result<Option<Row>, Memory>
        requires { All (IsNode candidates.now.graph.now) candidates.now.outputs.now }
    {
        let suspects = known.definitions.suspects();
        let mut draws = draws;
        let mut words = vec![in self.alloc; 0u64; candidates.graph.inputs()]?;
        for number in 0..draws.count() {
            draws.draw(number, &mut words)?;
            if !self.settle(candidates, draws.premise, &mut words)? {
                return Ok(None);
            }
            let is_false = false_rows(self.f, suspects, &words);
            if let Some(b) = draws.choose(is_false) {
                return Ok(Some(row_of(self.alloc, self.f, &words, b)?));
            }
        }
        Ok(None)
    }

    // How often 64 rows may be drawn in a round.
    fn most_draws(&self, candidates: &Candidates) -> usize {
        let bits = self.f.universals().len().saturating_mul(64);
        let looks = candidates
            .graph
            .len()
            .saturating_add(count_literals(self.f))
            .saturating_add(bits);
        MOST_LOOKS / looks.max(1)
    }

    // Gives existentials what the candidates have, and universals what a premise says, until both
    // agree at all of these rows: whether they do behind few passes.
    fn settle(
        &self,
        candidates: &Candidates,
        premise: &Premise,
        words: &mut Vec<u64>,
    ) -> Result<bool, Memory>
        requires { All (IsNode candidates.now.graph.now) candidates.now.outputs.now }
    {
        for _ in 0..MOST_PASSES {
            if words.len() != candidates.graph.inputs() {
                return Ok(false);
            }
            let values = values_at(self.alloc, candidates, words)?;
            put_values(&values, self.f.universals().len(), words);
            if !put_equalities(premise, words) {
                return Ok(true);
            }
        }
        Ok(false)
    }
}

// What the candidates have at 64 rows, by existential.
fn values_at(alloc: Global, candidates: &Candidates, words: &[u64]) -> Result<Vec<u64>, Memory>
    requires nodes { All (IsNode candidates.now.graph.now) candidates.now.outputs.now }
    requires inputs { length words.now ≡ candidates.now.graph.now.inputs }
{
    let graph = candidates.graph;
    let nodes = candidates.outputs.items();
    let mut buf = vec![in alloc; 0u64; graph.len()]?;
    let mut values = vec![in alloc; 0u64; nodes.len()]?;
    graph.values_by_words(nodes, words, &mut buf, &mut values);
    Ok(values)
}

// Puts words behind the first ones.
fn put_values(values: &[u64], first: usize, words: &mut Vec<u64>) {
    for (place, value) in values.iter().enumerate() {
        if let Some(word) = words.get_mut(first.wrapping_add(place)) {
            *word = *value;
        }
    }
}

// Gives universals what they equal, and says whether some word changed.
fn put_equalities(premise: &Premise, words: &mut Vec<u64>) -> bool {
    let mut is_changed = false;
    for it in &premise.equalities {
        let value = signed(word_at(words, it.input), it.is_negated);
        if let Some(word) = words.get_mut(it.place) {
            is_changed = is_changed || *word != value;
            *word = value;
        }
    }
    is_changed
}

// At which of 64 rows one of these clauses is false.
fn false_rows(f: &Formula, suspects: &[usize], words: &[u64]) -> u64 {
    let mut rows = 0;
    for number in suspects {
        if *number < f.clauses() {
            rows |= rows_without(f, f.clause(*number), words);
        }
    }
    rows
}

// At which of 64 rows a clause is false.
fn rows_without(f: &Formula, clause: &[Lit], words: &[u64]) -> u64 {
    let mut rows = u64::MAX;
    for l in clause {
        rows &= signed(variable_word(f, words, l.var()), !l.is_neg());
    }
    rows
}

fn variable_word(f: &Formula, words: &[u64], v: u64) -> u64 {
    match (f.universal_place(v), f.existential_place(v)) {
        (Some(place), _) => word_at(words, place),
        (None, Some(place)) => word_at(words, f.universals().len().saturating_add(place)),
        (None, None) => 0,
    }
}

fn word_at(words: &[u64], place: usize) -> u64 {
    match words.get(place) {
        Some(word) => *word,
        None => 0,
    }
}

fn signed(word: u64, is_negated: bool) -> u64 {
    if is_negated { !word } else { word }
}

// One of 64 rows of the universals.
fn row_of(alloc: Global, f: &Formula, words: &[u64], b: u64) -> Result<Row, Memory> {
    let universals = f.universals().len();
    let mut row = Row::new(alloc, universals)?;
    for place in 0..universals {
        if place < row.len() {
            row.set(place, has_bit(word_at(words, place), b));
        }
    }
    Ok(row)
}

/// Whether a word has a bit, from 0 on.
pub(crate) fn has_bit(word: u64, b: u64) -> bool {
    b < 64 && (word >> b) % 2 == 1
}
