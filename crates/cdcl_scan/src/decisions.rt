//! Which literal is decided: the most active one of the newest open clause is made true.
//!
//! A clause is open where it has no true literal. No clause holds a selector that isn't negated, so
//! that no decision makes a selector true.

ghost use Rattle.std.specs.Prelude.{◌≡◌, ◌≤◌, ◌⊎◌, true, All, MatchOption, Some};
ghost use Rattle.std.specs.List.{list_any};
ghost use Rattle.dq_lits.specs.Literal.{variable_of};
ghost use Rattle.dq_lits.specs.Derivation.{holds, status_of, stuck};
ghost use Rattle.oracle.specs.Fit.{live_in};
ghost use Rattle.hint_log.specs.ProductiveLog.{IsClosed};
ghost use Rattle.learning_trail.specs.Steps.{literals_of};
ghost use Rattle.dq_lits.specs.Truth.{IsFree};
ghost use Rattle.learning_trail.specs.Passes.{AreWithin, IsOpening};

use crate::clauses::ClauseStore;
use dq_lits::Lit;
use learning_trail::{Activities, Clauses, Trail, open_literal};

/// A literal without a value of the newest clause that has no true literal.
pub(crate) fn newest_open(
    trail: &Trail,
    clauses: &ClauseStore,
    activities: &Activities,
) -> Option<Lit>
    requires in_range { AreWithin trail.now.room clauses.now.clauses }
    requires closed { IsClosed (live_in clauses.now.clauses) (literals_of trail.now.steps) }
    ensures { IsOpening clauses.now.clauses (literals_of trail.now.steps) result }
{
    let mut id = clauses.len();
    while id > 0 {
        match open_literal(trail, clauses.lits(id), activities) {
            Some(l) => return Some(l),
            None => id -= 1,
        }
    }
    None
}
