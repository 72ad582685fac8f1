//! Propagation, by watched literals.
//!
//! The clauses that are watched at the negation of a true literal are visited once that literal was
//! made true. Where the other watched literal is true, a clause stays as it is. Else it is watched
//! at another literal that isn't false; and where there is none, it makes the other watched literal
//! true, or it is falsified. So where a watched literal is false and was processed, the other one
//! is true; and it was true at the end of the same level, so that going back over levels leaves all
//! watches as they are.

ghost use Rattle.std.specs.Prelude.{◌≡◌, ◌≤◌, ◌<◌, ◌-◌, [], ℕ, List, true, length, drop, All, MatchOption, Some, Contains};
ghost use Rattle.std.specs.List.{list_any};
ghost use Rattle.dq_lits.specs.Literal.{Literal, variable_of, opposite};
ghost use Rattle.dq_lits.specs.Derivation.{holds, status_of, falsified};
ghost use Rattle.oracle.specs.Fit.{live_in};
ghost use Rattle.learning_trail.specs.Steps.{literals_of, Grown};
ghost use Rattle.learning_trail.specs.Sound.{IsSound};
ghost use Rattle.learning_trail.specs.Passes.{AreWithin};
ghost use Rattle.cdcl_core.specs.Chains.{watch_at, IsLinked, HasList, FitIds, with_open, IsLeft};
ghost use Rattle.cdcl_core.specs.Watching.{AreShort, CanPropagate, AreSame};
ghost use Rattle.cdcl_core.specs.Visits.{IsOtherAt, IsVisitable, IsLooked, IsOther, AreOthersFalse, IsVisited, IsListVisited, IsPlaceVisited, IsTrailVisited, IsProcessed};

use crate::arenas::Arena;
use crate::cursors::{Cursors, has_place};
use crate::delays::still_waits;
use crate::watches::{OpenList, Watches, close, first_of, has_list, put_back, put_elsewhere};
use dq_lits::TruthValue;
use learning_trail::{ClauseStatus, Code, Step, Trail, is_false, is_true, status_of};

/// Propagates to the end, or to a falsified clause, whose id it answers. All literals but the
/// newest one were processed. The clauses that are watched second at a false literal may wait for
/// those that are watched first at one.
pub(crate) fn propagate(
    trail: &mut Trail,
    arena: &Arena,
    first: &mut Watches,
    second: &mut Watches,
    short: &[u64],
    cursors: &mut Cursors,
    waits: bool,
) -> Option<u64>
    requires visitable { IsVisitable arena.now.clauses trail.old first.old second.old }
    requires linked { IsLinked first.old 0 [] }
    requires second_linked { IsLinked second.old 0 [] }
    requires short { AreShort arena.now.clauses first.old.literals.items second.old.literals.items
        short.now }
    requires ready { CanPropagate arena.now.clauses first.old.literals.items second.old.literals.items
        trail.old.steps }
    ensures { IsTrailVisited arena.now.clauses trail.old trail.new first.old first.new second.old
        second.new result }
{
    let done = trail.len();
    if done == 0 {
        if let Some(id) = pass_short(trail, arena, short) {
            return Some(id);
        }
        return visit_from(trail, arena, cursors, first, second, 0, waits);
    }
    visit_from(trail, arena, cursors, first, second, done - 1, waits)
}

// Makes the literals of short clauses true.
fn pass_short(trail: &mut Trail, arena: &Arena, short: &[u64]) -> Option<u64>
    requires in_range { AreWithin trail.old.room arena.now.clauses }
    requires sound { IsSound (live_in arena.now.clauses) trail.old.steps }
    requires few { length trail.old.steps ≤ trail.old.room }
    requires ids { (id : ℕ) → Contains short.now id → (1 ≤ id) × (id ≤ length arena.now.clauses) }
    ensures room { trail.new.room ≡ trail.old.room }
    ensures sound { IsSound (live_in arena.now.clauses) trail.new.steps }
    ensures grown { Grown trail.old.steps trail.new.steps }
    ensures few { length trail.new.steps ≤ trail.new.room }
    ensures passed { MatchOption result
        ((id : ℕ) (c : List Literal) → Contains short.now id → live_in arena.now.clauses id ≡ Some c
        → AreSame c
        → list_any (holds (literals_of trail.new.steps)) c ≡ true)
        (λ id. status_of (literals_of trail.new.steps) (live_in arena.now.clauses id) ≡ falsified) }
{
    for id in short {
        match status_of(trail, arena.lits(*id)) {
            ClauseStatus::Falsified => return Some(*id),
            ClauseStatus::Unit(l) => trail.push(Step {
                literal: l,
                reason: Some(*id),
            }),
            ClauseStatus::Stuck => {}
        }
    }
    None
}

// Visits the clauses that are watched at the negation of a true literal, from a place of the trail
// on. Those that are watched second at one wait until those that are watched first were visited, at
// this literal and at so many further ones, or at the same literal alone.
fn visit_from(
    trail: &mut Trail,
    arena: &Arena,
    cursors: &mut Cursors,
    first: &mut Watches,
    second: &mut Watches,
    from: usize,
    waits: bool,
) -> Option<u64>
    requires visitable { IsVisitable arena.now.clauses trail.old first.old second.old }
    requires linked { IsLinked first.old 0 [] }
    requires second_linked { IsLinked second.old 0 [] }
    requires processed { IsProcessed arena.now.clauses first.old.literals.items
        second.old.literals.items trail.old.steps from from }
    ensures { IsTrailVisited arena.now.clauses trail.old trail.new first.old first.new second.old
        second.new result }
{
    let mut at = from;
    let mut second_at = from;
    'visits: loop {
        let is_more = at < trail.len();
        let wait = still_waits(waits, second_at, at);
        if second_at < at && !(wait && is_more) {
            if let Some(id) = visit_at(trail, arena, cursors, second, first, second_at) {
                return Some(id);
            }
            second_at += 1;
        } else if is_more {
            if let Some(id) = visit_at(trail, arena, cursors, first, second, at) {
                return Some(id);
            }
            at += 1;
        } else {
            return None;
        }
    }
}

// Visits the clauses that are watched at the negation of the literal at a place of the trail.
fn visit_at(
    trail: &mut Trail,
    arena: &Arena,
    cursors: &mut Cursors,
    these: &mut Watches,
    others: &Watches,
    at: usize,
) -> Option<u64>
    requires visitable { IsVisitable arena.now.clauses trail.old these.old others.now }
    requires linked { IsLinked these.old 0 [] }
    requires within { at < length trail.old.steps }
    ensures { IsPlaceVisited arena.now.clauses trail.old trail.new these.old these.new others.now at
        result }
{
    match trail.literal_at(at) {
        None => unreachable!(),
        Some(l) => {
            let code = Code::of(l.not());
            visit_list(trail, arena, cursors, these, others, code)
        }
    }
}

// Visits the clauses on a false literal's list.
fn visit_list(
    trail: &mut Trail,
    arena: &Arena,
    cursors: &mut Cursors,
    these: &mut Watches,
    others: &Watches,
    l: Code,
) -> Option<u64>
    requires visitable { IsVisitable arena.now.clauses trail.old these.old others.now }
    requires linked { IsLinked these.old 0 [] }
    requires in_range { variable_of l ≤ trail.old.room }
    requires false_now { holds (literals_of trail.old.steps) (opposite l) ≡ true }
    ensures { IsListVisited arena.now.clauses trail.old trail.new these.old these.new others.now l
        result }
{
    if !has_list(these, l) {
        return None;
    }
    let mut list = OpenList {
        literal: l,
        first: 0,
    };
    let mut at = first_of(these, l);
    'visits: loop {
        if at == 0 {
            close(these, list);
            return None;
        }
        match visit(trail, arena, cursors, these, others, &mut list, at) {
            Some(next) => at = next,
            None => {
                put_all_back(these, list, at);
                return Some(at);
            }
        }
    }
}

// Puts the clauses that are left to visit back on the list that is visited, and ends its visits.
fn put_all_back(these: &mut Watches, list: OpenList, first: u64)
    requires left { IsLeft (with_open these.old list) first list.literal }
    requires list { HasList these.old list.literal }
    ensures linked { IsLinked these.new 0 [] }
    ensures literals { these.new.literals.items ≡ these.old.literals.items }
    ensures lists { length these.new.heads.items ≡ length these.old.heads.items }
{
    let mut kept = list;
    let mut at = first;
    while at != 0 {
        at = put_back(these, &mut kept, at);
    }
    close(these, kept);
}

/// What a look at a clause comes to that is watched at a false literal.
#[derive(Clone, Copy)]
pub(crate) enum Look {
    /// The other watched literal is true.
    Kept,
    /// Another literal isn't false.
    Moved(Code),
    /// All are false.
    Falsified,
}

// Looks at a clause that is watched at a false literal, and puts it on a list; gives the next one,
// or none where it is falsified.
fn visit(
    trail: &mut Trail,
    arena: &Arena,
    cursors: &mut Cursors,
    these: &mut Watches,
    others: &Watches,
    list: &mut OpenList,
    id: u64,
) -> Option<u64>
    requires visitable { IsVisitable arena.now.clauses trail.old (with_open these.old list.old)
        others.now }
    requires from_one { 1 ≤ id }
    requires is_id { id ≤ length arena.now.clauses }
    requires nexts { length these.old.nexts.items ≡ length arena.now.clauses }
    requires list { HasList these.old list.old.literal }
    requires fits { FitIds (with_open these.old list.old) }
    requires in_range { variable_of list.old.literal ≤ trail.old.room }
    requires watched { watch_at these.old.literals.items (id - 1) ≡ list.old.literal }
    requires false_now { holds (literals_of trail.old.steps) (opposite list.old.literal) ≡ true }
    ensures visited { IsVisited arena.now.clauses trail.old trail.new (with_open these.old list.old)
        (with_open these.new list.new) others.now list.old.literal id result }
    ensures literal { list.new.literal ≡ list.old.literal }
{
    let other = others.literals[id as usize - 1];
    if is_true(trail, other) {
        return Some(put_back(these, list, id));
    }
    match look_at(trail, arena.lits(id), cursors, other, id) {
        Look::Kept => Some(put_back(these, list, id)),
        Look::Moved(k) => Some(put_elsewhere(these, id, k)),
        Look::Falsified => None,
    }
}

// Looks at a clause, beside its other watched literal, which it makes true where all others are
// false.
fn look_at(trail: &mut Trail, lits: &[Code], cursors: &mut Cursors, other: Code, id: u64) -> Look
    requires in_range { All (λ l. variable_of l ≤ trail.old.room) lits.now }
    requires other_in_range { variable_of other ≤ trail.old.room }
    requires few { length trail.old.steps ≤ trail.old.room }
    ensures few { length trail.new.steps ≤ trail.new.room }
    ensures looked { IsLooked lits.now id trail.old trail.new other result }
{
    match other_literal(trail, lits, cursors, other, id) {
        Some(k) => Look::Moved(k),
        None => match trail.code_value(other) {
            TruthValue::True => Look::Kept,
            TruthValue::False => Look::Falsified,
            TruthValue::Unassigned => {
                trail.push(Step {
                    literal: other.lit(),
                    reason: Some(id),
                });
                Look::Kept
            }
        },
    }
}

// A literal that isn't false, beside the other watched literal.
fn other_literal(
    trail: &Trail,
    lits: &[Code],
    cursors: &mut Cursors,
    other: Code,
    id: u64,
) -> Option<Code>
    requires { All (λ l. variable_of l ≤ trail.now.room) lits.now }
    ensures { MatchOption result (AreOthersFalse (literals_of trail.now.steps) lits.now other)
        (λ k. IsOther (literals_of trail.now.steps) lits.now other k) }
{
    if has_place(lits) {
        return other_from_place(trail, lits, cursors, other, id);
    }
    first_other(trail, lits, other)
}

// The same from where the clause was looked at last: what stands behind that place at first, and then
// what stands before it.
fn other_from_place(
    trail: &Trail,
    lits: &[Code],
    cursors: &mut Cursors,
    other: Code,
    id: u64,
) -> Option<Code>
    requires { All (λ l. variable_of l ≤ trail.now.room) lits.now }
    ensures { MatchOption result (AreOthersFalse (literals_of trail.now.steps) lits.now other)
        (λ k. IsOther (literals_of trail.now.steps) lits.now other k) }
{
    let from = cursors.watched(id).min(lits.len());
    match next_other(trail, lits, other, from) {
        Some(place) => {
            cursors.watch(id, place);
            Some(lits[place])
        }
        None => {
            cursors.watch(id, 0);
            first_other(trail, &lits[..from], other)
        }
    }
}

// The first place, from one on, of a literal that isn't false, beside the other watched literal.
fn next_other(trail: &Trail, lits: &[Code], other: Code, from: usize) -> Option<usize>
    requires { All (λ l. variable_of l ≤ trail.now.room) lits.now }
    ensures { MatchOption result
        (AreOthersFalse (literals_of trail.now.steps) (drop from lits.now) other)
        (IsOtherAt (literals_of trail.now.steps) lits.now other) }
{
    for place in from..lits.len() {
        if lits[place] != other && !is_false(trail, lits[place]) {
            return Some(place);
        }
    }
    None
}

// The first literal that isn't false, beside the other watched literal.
fn first_other(trail: &Trail, lits: &[Code], other: Code) -> Option<Code>
    requires { All (λ l. variable_of l ≤ trail.now.room) lits.now }
    ensures { MatchOption result (AreOthersFalse (literals_of trail.now.steps) lits.now other)
        (λ k. IsOther (literals_of trail.now.steps) lits.now other k) }
{
    for l in lits {
        if *l != other && !is_false(trail, *l) {
            return Some(*l);
        }
    }
    None
}
