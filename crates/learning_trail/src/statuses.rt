//! How a clause stands under a trail.

ghost use Rattle.std.specs.Prelude.{◌≡◌, ◌≤◌, Some, None, All, MatchOption, true};
ghost use Rattle.std.specs.List.{list_any};
ghost use Rattle.dq_lits.specs.Literal.{variable_of, same_literal};
ghost use Rattle.dq_lits.specs.Derivation.{status_of, holds, stuck};
ghost use Rattle.learning_trail.specs.Steps.{literals_of};
ghost use Rattle.dq_lits.specs.Truth.{IsFree};
ghost use Rattle.learning_trail.specs.Extension.{seen};
ghost use Rattle.dq_lits.specs.Extension.{with_free, with_literal};

use crate::codes::Code;
use crate::trails::Trail;
use dq_lits::{Lit, TruthValue};

/// How a clause stands under a trail.
#[derive(Clone, Copy)]
pub enum ClauseStatus {
    /// Each of its literals is false.
    Falsified,
    /// As a set it has one literal that isn't false, and this one is unassigned.
    Unit(Lit),
    /// It has a true literal or two that aren't false.
    Stuck,
}

pub fn status_of(trail: &Trail, lits: &[Code]) -> ClauseStatus
    requires { All (λ l. variable_of l ≤ trail.now.room) lits.now }
    ensures { seen result ≡ status_of (literals_of trail.now.steps) (Some lits.now) }
{
    let mut status = ClauseStatus::Falsified;
    for l in lits {
        status = status.with_literal(l.lit(), trail.code_value(*l));
        if status.is_stuck() {
            return status;
        }
    }
    status
}

/// Whether a literal is true.
pub fn is_true(trail: &Trail, l: Code) -> bool
    requires { variable_of l ≤ trail.now.room }
    ensures { result ≡ true → holds (literals_of trail.now.steps) l ≡ true }
{
    match trail.code_value(l) {
        TruthValue::True => true,
        TruthValue::False => false,
        TruthValue::Unassigned => false,
    }
}

impl ClauseStatus {
    fn is_stuck(&self) -> bool
        ensures { result ≡ true → self.now ≡ ClauseStatus.Stuck }
    {
        match self {
            ClauseStatus::Stuck => true,
            _ => false,
        }
    }

    // With one more literal, of this value.
    fn with_literal(&self, l: Lit, value: TruthValue) -> ClauseStatus
        ensures { seen result ≡ with_literal (seen self.now) l value }
    {
        match value {
            TruthValue::False => *self,
            TruthValue::True => ClauseStatus::Stuck,
            TruthValue::Unassigned => self.with_free(l),
        }
    }

    fn with_free(&self, l: Lit) -> ClauseStatus
        ensures { seen result ≡ with_free (seen self.now) l }
    {
        match self {
            ClauseStatus::Falsified => ClauseStatus::Unit(l),
            ClauseStatus::Unit(other) => {
                if *other == l {
                    *self
                } else {
                    ClauseStatus::Stuck
                }
            }
            ClauseStatus::Stuck => ClauseStatus::Stuck,
        }
    }
}
