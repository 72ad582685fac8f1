//! Which literal of an open clause is decided: the most active one.

ghost use Rattle.std.specs.Prelude.{◌≡◌, ◌≤◌, ◌⊎◌, true, All, MatchOption, Some};
ghost use Rattle.std.specs.List.{list_any};
ghost use Rattle.dq_lits.specs.Literal.{variable_of, opposite};
ghost use Rattle.dq_lits.specs.Derivation.{holds, status_of, stuck};
ghost use Rattle.learning_trail.specs.Steps.{literals_of};
ghost use Rattle.dq_lits.specs.Truth.{IsFree};

use crate::activities::Activities;
use crate::codes::Code;
use crate::trails::Trail;
use dq_lits::{Lit, TruthValue};

/// The most active literal without a value, where the clause has no true literal.
pub fn open_literal(trail: &Trail, lits: &[Code], activities: &Activities) -> Option<Lit>
    requires in_range { All (λ l. variable_of l ≤ trail.now.room) lits.now }
    requires stuck { status_of (literals_of trail.now.steps) (Some lits.now) ≡ stuck }
    ensures { MatchOption result
        (list_any (holds (literals_of trail.now.steps)) lits.now ≡ true)
        (λ l. IsFree (literals_of trail.now.steps) l × (holds lits.now l ≡ true)) }
{
    let mut best = None;
    for l in lits {
        match trail.code_value(*l) {
            TruthValue::False => {}
            TruthValue::True => return None,
            TruthValue::Unassigned => best = Some(more_active(activities, &best, l.lit())),
        }
    }
    best
}

/// As `open_literal`, but that the literal at a place is looked at first: it is answered, if it has
/// no value.
pub fn open_literal_at(
    trail: &Trail,
    lits: &[Code],
    place: usize,
    activities: &Activities,
) -> Option<Lit>
    requires in_range { All (λ l. variable_of l ≤ trail.now.room) lits.now }
    requires stuck { status_of (literals_of trail.now.steps) (Some lits.now) ≡ stuck }
    ensures { MatchOption result
        (list_any (holds (literals_of trail.now.steps)) lits.now ≡ true)
        (λ l. IsFree (literals_of trail.now.steps) l × (holds lits.now l ≡ true)) }
{
    if place < lits.len() {
        let l = lits[place];
        match trail.code_value(l) {
            TruthValue::False => {}
            TruthValue::True => return None,
            TruthValue::Unassigned => return Some(l.lit()),
        }
    }
    open_literal(trail, lits, activities)
}

/// The first place, from one on, of a literal that isn't false; 0, where there is none. It is a
/// place to go on from, and no contract speaks of it.
pub fn next_not_false(trail: &Trail, lits: &[Code], from: usize) -> usize
    requires { All (λ l. variable_of l ≤ trail.now.room) lits.now }
{
    for place in from..lits.len() {
        if !is_false(trail, lits[place]) {
            return place;
        }
    }
    0
}

/// Whether a literal is false.
pub fn is_false(trail: &Trail, l: Code) -> bool
    requires { variable_of l ≤ trail.now.room }
    ensures { result ≡ holds (literals_of trail.now.steps) (opposite l) }
{
    match trail.code_value(l) {
        TruthValue::True => false,
        TruthValue::False => true,
        TruthValue::Unassigned => false,
    }
}

// One of the two.
fn more_active(activities: &Activities, best: &Option<Lit>, l: Lit) -> Lit
    ensures { (result ≡ l) ⊎ (best.now ≡ Some result) }
{
    match best {
        None => l,
        Some(k) => {
            if activities.is_more_active(l, *k) {
                l
            } else {
                *k
            }
        }
    }
}
