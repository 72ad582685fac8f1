//! Where a trail goes on from, once a clause was learned.

ghost use Rattle.std.specs.Prelude.{◌≡◌, ◌≤◌, ◌<◌, ◌∷◌, [], false, length, IsSome, MatchOption};
ghost use Rattle.dq_lits.specs.Literal.{variable_of};
ghost use Rattle.learning_trail.specs.Steps.{literals_of, decision_of, is_decision};
ghost use Rattle.dq_lits.specs.Truth.{IsFree};
ghost use Rattle.learning_trail.specs.Marks.{is_level_marked};
ghost use Rattle.learning_trail.specs.Lessons.{IsLanded, LandsInLevel};

use crate::levels::{back_to_start, jump};
use crate::notes::Notes;
use crate::trails::{Step, Trail};
use dq_lits::Lit;

/// Takes levels back to where the clause learned from a step is unit, and makes its literal true, or
/// takes everything back.
pub fn land(trail: &mut Trail, notes: &Notes, first: &Step, id: u64, is_due: bool) -> Option<Lit>
    requires in_range { trail.old.room < length notes.now.marks }
    requires first { is_decision first.now ≡ false
        → is_level_marked notes.now.marks trail.old.steps ≡ false }
    requires decided { IsSome (decision_of (first.now ∷ trail.old.steps)) }
    requires variable { variable_of first.now.literal ≤ trail.old.room }
    requires free { IsFree (literals_of trail.old.steps) first.now.literal }
    ensures landed { IsLanded trail.old trail.new first.now notes.now.marks id }
    ensures level { MatchOption result (trail.new.steps ≡ [])
        (λ l. LandsInLevel trail.old trail.new first.now notes.now.marks id l) }
    ensures few { length trail.new.steps ≤ trail.new.room }
{
    if is_due {
        back_to_start(trail);
        return None;
    }
    match jump(trail, notes, first) {
        None => {
            back_to_start(trail);
            None
        }
        Some(l) => {
            trail.push(Step {
                literal: first.literal.not(),
                reason: Some(id),
            });
            Some(l)
        }
    }
}
