//! Which literal is decided: the most active one of the newest open clause is made true.
//!
//! A clause is open where it has no true literal. No clause holds a selector that isn't negated, so
//! that no decision makes a selector true.

ghost use Rattle.std.specs.Prelude.{◌≡◌, ◌≤◌, ◌⊎◌, List, true, false, length, All, MatchOption, Some, None};
ghost use Rattle.std.specs.List.{list_any};
ghost use Rattle.dq_lits.specs.Literal.{Literal, variable_of, same_literal};
ghost use Rattle.dq_lits.specs.Derivation.{holds, status_of, stuck};
ghost use Rattle.oracle.specs.Fit.{live_in};
ghost use Rattle.hint_log.specs.ProductiveLog.{IsClosed};
ghost use Rattle.learning_trail.specs.Steps.{literals_of};
ghost use Rattle.dq_lits.specs.Truth.{IsFree};
ghost use Rattle.cdcl_core.specs.Runs.{BeginsTrue};
ghost use Rattle.learning_trail.specs.Passes.{AreWithin, IsOpening};
ghost use Rattle.cdcl_core.specs.Passes.{AreTrueWithin};

use crate::clauses::{ClauseStore, Watched};
use crate::positions::{Positions, Span};
use dq_lits::Lit;
use learning_trail::{
    Activities, Clauses, Code, Trail, is_false, is_true, next_not_false, open_literal_at,
};

/// A clause that has no true literal, and a literal of it without a value.
#[derive(Clone, Copy)]
pub(crate) struct Open {
    pub(crate) id: u64,
    pub(crate) literal: Lit,
    /// Where the literal stands, if the clause is long.
    pub(crate) place: usize,
}

/// The newest open clause, sought where it may be at first, and then among all.
pub(crate) fn open_clause(
    trail: &Trail,
    clauses: &ClauseStore,
    activities: &Activities,
    positions: &Positions,
) -> Option<Open>
    requires in_range { AreWithin trail.now.room clauses.now.clauses }
    requires closed { IsClosed (live_in clauses.now.clauses) (literals_of trail.now.steps) }
    ensures { MatchOption result (IsOpening clauses.now.clauses (literals_of trail.now.steps) None)
        (λ open'.
        IsOpening clauses.now.clauses (literals_of trail.now.steps) (Some open'.literal)) }
{
    for span in [positions.newest(), positions.rest()] {
        let open = newest_open(trail, clauses, activities, span);
        if open.is_some() {
            return open;
        }
    }
    let all = Span {
        from: clauses.len(),
        down_to: 0,
    };
    newest_open(trail, clauses, activities, all)
}

// The newest open clause of a span. Where a clause begins with a true literal, so do those before
// it that begin alike: the clauses of a group that is switched off are passed in one step.
fn newest_open(
    trail: &Trail,
    clauses: &ClauseStore,
    activities: &Activities,
    span: Span,
) -> Option<Open>
    requires in_range { AreWithin trail.now.room clauses.now.clauses }
    requires closed { IsClosed (live_in clauses.now.clauses) (literals_of trail.now.steps) }
    ensures { MatchOption result
        (AreTrueWithin span.from span.down_to clauses.now.clauses (literals_of trail.now.steps))
        (λ open'.
        IsOpening clauses.now.clauses (literals_of trail.now.steps) (Some open'.literal)) }
{
    let mut id = span.from.min(clauses.len());
    while id > span.down_to {
        let start = clauses.start(id);
        if !begins_true(trail, clauses.lits(id)) {
            let alike = Span {
                from: id,
                down_to: larger(start, span.down_to),
            };
            let open = newest_in(trail, clauses, activities, alike);
            if open.is_some() {
                return open;
            }
        }
        id = start;
    }
    None
}

// The larger one of two ids.
fn larger(id: u64, other: u64) -> u64
    ensures { (result ≡ id) ⊎ (result ≡ other) }
{
    if id < other { other } else { id }
}

// Whether a clause's first literal is true.
fn begins_true(trail: &Trail, lits: &[Code]) -> bool
    requires { All (λ l. variable_of l ≤ trail.now.room) lits.now }
    ensures { result ≡ true → BeginsTrue (literals_of trail.now.steps) lits.now }
{
    match lits.first() {
        Some(l) => is_true(trail, *l),
        None => false,
    }
}

// The newest open clause of a span, clause by clause.
fn newest_in(
    trail: &Trail,
    clauses: &ClauseStore,
    activities: &Activities,
    span: Span,
) -> Option<Open>
    requires in_range { AreWithin trail.now.room clauses.now.clauses }
    requires closed { IsClosed (live_in clauses.now.clauses) (literals_of trail.now.steps) }
    requires ids { span.from ≤ length clauses.now.clauses }
    ensures { MatchOption result
        (AreTrueWithin span.from span.down_to clauses.now.clauses (literals_of trail.now.steps))
        (λ open'.
        IsOpening clauses.now.clauses (literals_of trail.now.steps) (Some open'.literal)) }
{
    let mut id = span.from;
    while id > span.down_to {
        let open = open_in(trail, clauses, activities, id);
        if open.is_some() {
            return open;
        }
        id -= 1;
    }
    None
}

// A literal without a value of the clause with an id, where it has no true literal.
fn open_in(trail: &Trail, clauses: &ClauseStore, activities: &Activities, id: u64) -> Option<Open>
    requires in_range { AreWithin trail.now.room clauses.now.clauses }
    requires closed { IsClosed (live_in clauses.now.clauses) (literals_of trail.now.steps) }
    requires from_one { 1 ≤ id }
    requires is_id { id ≤ length clauses.now.clauses }
    ensures { MatchOption result
        ((c : List Literal) → live_in clauses.now.clauses id ≡ Some c
        → list_any (holds (literals_of trail.now.steps)) c ≡ true)
        (λ open'.
        IsOpening clauses.now.clauses (literals_of trail.now.steps) (Some open'.literal)) }
{
    if is_watch_true(trail, clauses.watched(id)) {
        return None;
    }
    let lits = clauses.lits(id);
    let place = place_in(trail, clauses, lits, id);
    match open_literal_at(trail, lits, place, activities) {
        Some(literal) => Some(Open { id, literal, place }),
        None => None,
    }
}

// Where a clause is to be looked at first; behind its end, where it isn't long.
fn place_in(trail: &Trail, clauses: &ClauseStore, lits: &[Code], id: u64) -> usize
    requires { All (λ l. variable_of l ≤ trail.now.room) lits.now }
{
    match clauses.cursor(id, lits) {
        Some(from) => next_opposed(trail, clauses, lits, from),
        None => lits.len(),
    }
}

// The place itself, where its literal isn't false; else the next one of a literal that isn't false and
// whose negation some clause is watched at. Where there is none, the next one of a literal that isn't
// false: a literal that no clause opposes can always be made true, and nothing is learned from it.
fn next_opposed(trail: &Trail, clauses: &ClauseStore, lits: &[Code], from: usize) -> usize
    requires { All (λ l. variable_of l ≤ trail.now.room) lits.now }
{
    for place in from..lits.len() {
        if !is_false(trail, lits[place]) && (place == from || clauses.is_opposed(lits[place])) {
            return place;
        }
    }
    next_not_false(trail, lits, from)
}

// Whether one of two literals is true, where they differ.
fn is_watch_true(trail: &Trail, watched: Watched) -> bool
    requires { same_literal watched.first watched.second ≡ false
        → (variable_of watched.first ≤ trail.now.room)
        × (variable_of watched.second ≤ trail.now.room) }
    ensures { result ≡ true → (same_literal watched.first watched.second ≡ false)
        × ((holds (literals_of trail.now.steps) watched.first ≡ true)
        ⊎ (holds (literals_of trail.now.steps) watched.second ≡ true)) }
{
    watched.first != watched.second
        && (is_true(trail, watched.first) || is_true(trail, watched.second))
}
