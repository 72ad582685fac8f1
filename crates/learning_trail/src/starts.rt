//! Where the levels of a trail begin, the newest one last.

ghost use Rattle.std.specs.Prelude.{◌≡◌, ◌<◌, ◌≤◌, ◌∷◌, [], ℕ, List, length, reverse, vec_capacity, slice_index_or, if◌then◌else◌};
ghost use Rattle.learning_trail.specs.Steps.{is_decision};

use crate::trails::Step;

/// Notes that a level begins at a place, if the step there is a decision.
pub(crate) fn put_start(starts: &mut Vec<usize>, step: &Step, at: usize)
    requires { length starts.old.items < vec_capacity starts.old }
    ensures starts { reverse starts.new.items
        ≡ (if is_decision step.now then at ∷ reverse starts.old.items else reverse starts.old.items) }
    ensures capacity { vec_capacity starts.old ≤ vec_capacity starts.new }
{
    if step.reason.is_none() {
        starts.push_reserved(at);
    }
}

/// Takes away where the newest level begins, if its newest step is a decision.
pub(crate) fn take_start(starts: &mut Vec<usize>, step: &Step)
    ensures starts { (at : ℕ) (rest : List ℕ)
        → reverse starts.old.items ≡ (if is_decision step.now then at ∷ rest else rest)
        → reverse starts.new.items ≡ rest }
    ensures capacity { vec_capacity starts.old ≤ vec_capacity starts.new }
{
    if step.reason.is_none() {
        let _start = starts.pop();
    }
}

/// Where the newest level begins; 0, where none does.
pub(crate) fn newest_start(starts: &[usize]) -> usize
    ensures { result ≡ slice_index_or (reverse starts.now) 0 0 }
{
    if starts.is_empty() {
        0
    } else {
        starts[starts.len() - 1]
    }
}
