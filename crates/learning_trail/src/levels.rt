//! Levels of a trail: each begins with a decision. They are taken back whole.

ghost use Rattle.std.specs.Prelude.{◌≡◌, ◌<◌, [], ◌∷◌, List, true, false, length, reverse, All, IsSome, IfSome, MatchOption};
ghost use Rattle.dq_lits.specs.Literal.{variable_of};
ghost use Rattle.learning_trail.specs.Steps.{is_decision, decision_of, under_level, IsUnder};
ghost use Rattle.learning_trail.specs.Marks.{is_level_marked};
ghost use Rattle.learning_trail.specs.Lessons.{IsJump, IsMarkedInLevel};

use crate::notes::Notes;
use crate::trails::{Step, Trail};
use dq_lits::Lit;

/// Whether a literal of the newest level is marked; of all literals, where nothing was decided.
pub fn is_level_marked(notes: &Notes, steps: &[Step]) -> bool
    requires { All (λ s. variable_of s.literal < length notes.now.marks) steps.now }
    ensures { result ≡ is_level_marked notes.now.marks (reverse steps.now) }
{
    let mut at = steps.len();
    while at > 0 {
        at -= 1;
        let step = &steps[at];
        if notes.has(step.literal) {
            return true;
        }
        if step.reason.is_none() {
            return false;
        }
    }
    false
}

/// The decision that the newest level began with.
pub fn last_decision(steps: &[Step]) -> Option<Lit>
    ensures { result ≡ decision_of (reverse steps.now) }
{
    let mut at = steps.len();
    while at > 0 {
        at -= 1;
        let step = &steps[at];
        if step.reason.is_none() {
            return Some(step.literal);
        }
    }
    None
}

// The newest marked literal of the newest level; of all literals, where nothing was decided.
fn marked_in_level(notes: &Notes, steps: &[Step]) -> Option<Lit>
    requires { All (λ s. variable_of s.literal < length notes.now.marks) steps.now }
    ensures { MatchOption result (is_level_marked notes.now.marks (reverse steps.now) ≡ false)
        (λ l. IsMarkedInLevel notes.now.marks (reverse steps.now) l) }
{
    let mut at = steps.len();
    while at > 0 {
        at -= 1;
        let step = &steps[at];
        if notes.has(step.literal) {
            return Some(step.literal);
        }
        if step.reason.is_none() {
            return None;
        }
    }
    None
}

// A marked literal of a trail's newest level. Where it is the newest one of the clause that was
// learned, it is found without a pass over the level, which may be long and stays.
fn level_mark(trail: &Trail, notes: &Notes) -> Option<Lit>
    requires { trail.now.room < length notes.now.marks }
    ensures { MatchOption result (is_level_marked notes.now.marks trail.now.steps ≡ false)
        (λ l. IsMarkedInLevel notes.now.marks trail.now.steps l) }
{
    if let Some(place) = newest_place(trail, notes.literals()) {
        let known = marked_at(trail, notes, place);
        if known.is_some() {
            return known;
        }
    }
    marked_in_level(notes, trail.steps())
}

/// Where the newest literal of a clause but the last one may stand, whose literals are in the order
/// of a trail.
pub fn newest_place(trail: &Trail, lits: &[Lit]) -> Option<usize> {
    if lits.len() < 2 {
        return None;
    }
    trail.place(lits[lits.len() - 2].var() as usize)
}

// The literal at a place, if it is marked and of the newest level.
fn marked_at(trail: &Trail, notes: &Notes, place: usize) -> Option<Lit>
    requires { trail.now.room < length notes.now.marks }
    ensures { IfSome result (λ l. IsMarkedInLevel notes.now.marks trail.now.steps l) }
{
    if place < trail.level_start() {
        return None;
    }
    let l = trail.literal_at(place)?;
    if notes.has(l) { Some(l) } else { None }
}

/// Takes back what is left of a step's level, and then levels until one has a marked literal, which
/// it answers, or none is left.
pub fn jump(trail: &mut Trail, notes: &Notes, step: &Step) -> Option<Lit>
    requires in_range { trail.old.room < length notes.now.marks }
    requires first { is_decision step.now ≡ false
        → is_level_marked notes.now.marks trail.old.steps ≡ false }
    requires decided { IsSome (decision_of (step.now ∷ trail.old.steps)) }
    ensures jumped { IsJump trail.old trail.new notes.now.marks }
    ensures under { IsUnder (step.now ∷ trail.old.steps) trail.new.steps }
    ensures level { IfSome result (λ l. IsMarkedInLevel notes.now.marks trail.new.steps l) }
{
    if step.reason.is_some() {
        back_over_level(trail);
    }
    back_to_marked_level(trail, notes)
}

// Takes levels back until one has a marked literal, or none is left.
fn back_to_marked_level(trail: &mut Trail, notes: &Notes) -> Option<Lit>
    requires { trail.old.room < length notes.now.marks }
    ensures jumped { IsJump trail.old trail.new notes.now.marks }
    ensures under { (steps : List Step) → IsUnder steps trail.old.steps
        → IsUnder steps trail.new.steps }
    ensures level { IfSome result (λ l. IsMarkedInLevel notes.now.marks trail.new.steps l) }
{
    'levels: loop {
        if let Some(l) = level_mark(trail, notes) {
            return Some(l);
        }
        if last_decision(trail.steps()).is_none() {
            return None;
        }
        back_over_level(trail);
    }
}

// Takes the newest level back.
fn back_over_level(trail: &mut Trail)
    ensures room { trail.new.room ≡ trail.old.room }
    ensures steps { trail.new.steps ≡ under_level trail.old.steps }
{
    while let Some(step) = trail.pop() {
        if step.reason.is_none() {
            return;
        }
    }
}

/// Takes all literals back.
pub fn back_to_start(trail: &mut Trail)
    ensures { trail.new ≡ record { room = trail.old.room; steps = [] } }
{
    while let Some(_step) = trail.pop() {}
}
