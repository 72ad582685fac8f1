//! What a conflict teaches: the clause of the first unique implication point, with its hints.
//!
//! The analysis takes the trail back from a falsified clause. Invariant: from any literals that
//! cover the marked ones of the trail, the hints, read newest first, lead to the conflict; so a
//! literal that is resolved adds its reason in front. Where only one marked literal is left of the
//! newest level, the trail below it stays as it is; marked literals there whose reasons rest on
//! marked ones alone are resolved too, and the negations of the others are the clause.
//!
//! Marks that aren't clear are listed, so that a conflict costs what it touches; minimisation sorts
//! the places of the marked literals and passes these alone.

ghost use Rattle.std.specs.Prelude.{◌≡◌, ◌<◌, ◌≤◌, ◌==◌, ◌||◌, ◌&&◌, ◌++◌, ◌∷◌, [], not, ℕ, List, true, length, All, OnOk, IfOk, Some, IsSome, IfSome};
ghost use Rattle.std.specs.List.{list_all};
ghost use Rattle.dq_lits.specs.Literal.{Literal, variable_of};
ghost use Rattle.dq_lits.specs.Derivation.{status_of, falsified};
ghost use Rattle.oracle.specs.Fit.{live_in};
ghost use Rattle.learning_trail.specs.Steps.{literals_of, decision_of};
ghost use Rattle.learning_trail.specs.Sound.{IsSound};
ghost use Rattle.learning_trail.specs.Marks.{marked, stands_on, is_level_marked};
ghost use Rattle.learning_trail.specs.Passes.{AreMarkable};
ghost use Rattle.learning_trail.specs.Backing.{IsFirstPoint, IsTrimmed, IsRedundant};
ghost use Rattle.learning_trail.specs.Lessons.{IsLesson};
ghost use Rattle.learning_trail.specs.Noting.{Noted};

use crate::activities::Activities;
use crate::clauses::Clauses;
use crate::codes::Code;
use crate::levels::is_level_marked;
use crate::notes::Notes;
use crate::trails::{Step, Trail};
use dq_lits::{Lit, Memory};

/// Takes literals back from a falsified clause to the first that it rests on alone, and notes the
/// clause that this teaches, oldest literal first, with its hints in order. Where memory is refused
/// for a note, trail and notes stay as far as they have come.
pub fn analyse<C: Clauses>(
    trail: &mut Trail,
    clauses: &C,
    notes: &mut Notes,
    activities: &mut Activities,
    conflict: u64,
) -> Result<Step, Memory>
    requires sound { IsSound (live_in (C.clauses clauses.now)) trail.old.steps }
    requires within { AreMarkable (length notes.old.marks) (C.clauses clauses.now) }
    requires in_range { trail.old.room < length notes.old.marks }
    requires conflict { status_of (literals_of trail.old.steps)
        (live_in (C.clauses clauses.now) conflict) ≡ falsified }
    requires decided { IsSome (decision_of trail.old.steps) }
    ensures len { length notes.new.marks ≡ length notes.old.marks }
    ensures room { trail.new.room ≡ trail.old.room }
    ensures lesson { IfOk result (λ first. IsLesson (live_in (C.clauses clauses.now)) trail.old
        trail.new first notes.new.marks notes.new.literals notes.new.hints) }
{
    begin(clauses, notes, activities, conflict)?;
    let first = back_to_first(trail, clauses, notes, activities)?;
    notes.add_literal(first.literal.not())?;
    add_rest(trail, clauses, notes)?;
    notes.turn();
    Ok(first)
}

/// Begins with a falsified clause.
pub fn begin<C: Clauses>(
    clauses: &C,
    notes: &mut Notes,
    activities: &mut Activities,
    conflict: u64,
) -> Result<(), Memory>
    requires from_one { 1 ≤ conflict }
    requires is_id { conflict ≤ length (C.clauses clauses.now) }
    requires within { AreMarkable (length notes.old.marks) (C.clauses clauses.now) }
    ensures len { length notes.new.marks ≡ length notes.old.marks }
    ensures hints { OnOk result (notes.new.hints ≡ conflict ∷ []) }
    ensures literals { notes.new.literals ≡ [] }
    ensures marked { OnOk result ((c : List Literal) (v : ℕ)
        → live_in (C.clauses clauses.now) conflict ≡ Some c
        → marked notes.new.marks v ≡ stands_on c v) }
{
    notes.clear();
    let lits = clauses.lits(conflict);
    notes.add_hint(conflict, lits)?;
    activities.bump(lits);
    Ok(())
}

/// Puts the literals of its reason in place of a marked literal.
pub fn resolve<C: Clauses>(
    clauses: &C,
    notes: &mut Notes,
    l: Lit,
    reason: u64,
) -> Result<(), Memory>
    requires from_one { 1 ≤ reason }
    requires is_id { reason ≤ length (C.clauses clauses.now) }
    requires within { AreMarkable (length notes.old.marks) (C.clauses clauses.now) }
    requires in_range { variable_of l < length notes.old.marks }
    ensures len { length notes.new.marks ≡ length notes.old.marks }
    ensures places { notes.new.places ≡ notes.old.places }
    ensures hints { OnOk result (notes.new.hints ≡ notes.old.hints ++ reason ∷ []) }
    ensures literals { notes.new.literals ≡ notes.old.literals }
    ensures marked { OnOk result ((c : List Literal) (v : ℕ)
        → live_in (C.clauses clauses.now) reason ≡ Some c
        → marked notes.new.marks v
        ≡ (not (variable_of l == v) && (marked notes.old.marks v || stands_on c v))) }
{
    notes.add_hint(reason, clauses.lits(reason))?;
    notes.unmark(l);
    Ok(())
}

// Takes literals back, down to the only marked one that is left of the newest level, and answers
// it.
fn back_to_first<C: Clauses>(
    trail: &mut Trail,
    clauses: &C,
    notes: &mut Notes,
    activities: &mut Activities,
) -> Result<Step, Memory>
    requires sound { IsSound (live_in (C.clauses clauses.now)) trail.old.steps }
    requires within { AreMarkable (length notes.old.marks) (C.clauses clauses.now) }
    requires in_range { trail.old.room < length notes.old.marks }
    requires some { is_level_marked notes.old.marks trail.old.steps ≡ true }
    ensures len { length notes.new.marks ≡ length notes.old.marks }
    ensures room { trail.new.room ≡ trail.old.room }
    ensures first { IfOk result (λ first. IsFirstPoint (live_in (C.clauses clauses.now)) trail.old
        trail.new first notes.old notes.new) }
{
    while let Some(step) = trail.pop() {
        if notes.has(step.literal) {
            match step.reason {
                None => return Ok(step),
                Some(reason) => {
                    if !is_level_marked(notes, trail.steps()) {
                        return Ok(step);
                    }
                    resolve(clauses, notes, step.literal, reason)?;
                    activities.bump(clauses.lits(reason));
                }
            }
        }
    }
    unreachable!()
}

// Adds the negations of the marked literals, the newest first, but for those whose reasons rest on
// marked ones alone.
fn add_rest<C: Clauses>(trail: &Trail, clauses: &C, notes: &mut Notes) -> Result<(), Memory>
    requires sound { IsSound (live_in (C.clauses clauses.now)) trail.now.steps }
    requires within { AreMarkable (length notes.old.marks) (C.clauses clauses.now) }
    requires in_range { trail.now.room < length notes.old.marks }
    ensures len { length notes.new.marks ≡ length notes.old.marks }
    ensures trimmed { OnOk result
        (IsTrimmed (live_in (C.clauses clauses.now)) trail.now.steps [] notes.old notes.new) }
{
    notes.list_places(trail)?;
    let steps = trail.steps();
    let mut end = steps.len();
    let mut at = notes.places().len();
    while at > 0 {
        at -= 1;
        let place = notes.places()[at];
        if place < end {
            end = place;
            trim(clauses, notes, &steps[place])?;
        }
    }
    Ok(())
}

// Adds the negation of a step's literal, if it is marked and its reason doesn't rest on marked ones
// alone.
fn trim<C: Clauses>(clauses: &C, notes: &mut Notes, step: &Step) -> Result<(), Memory>
    requires within { AreMarkable (length notes.old.marks) (C.clauses clauses.now) }
    requires in_range { variable_of step.now.literal < length notes.old.marks }
    requires reason { IfSome step.now.reason
        (λ id. (1 ≤ id) × (id ≤ length (C.clauses clauses.now))) }
    ensures len { length notes.new.marks ≡ length notes.old.marks }
    ensures places { notes.new.places ≡ notes.old.places }
    ensures trimmed { OnOk result ((steps rest : List Step) (was : Noted)
        → IsSound (live_in (C.clauses clauses.now)) steps
        → IsTrimmed (live_in (C.clauses clauses.now)) steps (step.now ∷ rest) was notes.old
        → IsTrimmed (live_in (C.clauses clauses.now)) steps rest was notes.new) }
{
    if !notes.has(step.literal) {
        return Ok(());
    }
    match redundant_by(clauses, notes, step) {
        Some(reason) => resolve(clauses, notes, step.literal, reason)?,
        None => notes.add_literal(step.literal.not())?,
    }
    Ok(())
}

// The reason of a step, where all its other literals are marked.
fn redundant_by<C: Clauses>(clauses: &C, notes: &Notes, step: &Step) -> Option<u64>
    requires within { AreMarkable (length notes.now.marks) (C.clauses clauses.now) }
    requires reason { IfSome step.now.reason (λ id. (1 ≤ id) × (id ≤ length (C.clauses clauses.now))) }
    ensures { IfSome result
        (λ id. IsRedundant (live_in (C.clauses clauses.now)) notes.now.marks step.now id) }
{
    match step.reason {
        None => None,
        Some(reason) => {
            if are_others_marked(notes, clauses.lits(reason), step.literal) {
                Some(reason)
            } else {
                None
            }
        }
    }
}

// Whether all variables of a clause but one are marked.
fn are_others_marked(notes: &Notes, lits: &[Code], l: Lit) -> bool
    requires { All (λ k. variable_of k < length notes.now.marks) lits.now }
    ensures { result
        ≡ list_all (λ k. (variable_of k == variable_of l) || marked notes.now.marks (variable_of k))
        lits.now }
{
    lits.iter()
        .all(|k| k.var() == l.var() || notes.has_code(*k))
}
