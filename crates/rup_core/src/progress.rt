//! What a hint does.

ghost use Rattle.std.specs.Prelude.{◌≡◌, IfOk, IsOk, OnErr};
ghost use Rattle.rup_core.specs.Extension.{seen, UnitIsFree, UnitStandsWithin};
ghost use Rattle.rup_core.specs.HintStep.{IsStep};

use crate::statuses::ClauseStatus;
use crate::trails::{Trail, place_of};
use dq_lits::Memory;

/// How the hints of a line stand so far.
#[derive(Clone, Copy)]
pub(crate) enum Progress {
    /// Each of them propagates.
    Going,
    /// The last one is falsified, and those before it propagate.
    Refuted,
    /// One is at fault, or the line holds a literal beside its negation.
    Faulty,
}

/// One more hint, where all so far propagate, by the status of its clause: the literal of a unit
/// clause becomes true.
#[inline(always)]
pub(crate) fn propagate(trail: &mut Trail, status: ClauseStatus) -> Result<Progress, Memory>
    requires { UnitIsFree trail.old.trues (seen status) }
    ensures step { IfOk result
        (λ next. IsStep (seen status) trail.old.trues next trail.new.trues) }
    ensures variables { trail.new.variables ≡ trail.old.variables }
    ensures err { OnErr result (trail.new ≡ trail.old) }
    ensures marked { UnitStandsWithin trail.old.variables (seen status) → IsOk result }
{
    match status {
        ClauseStatus::Unit(l) => {
            trail.assign(place_of(l), l)?;
            Ok(Progress::Going)
        }
        ClauseStatus::Falsified => Ok(Progress::Refuted),
        ClauseStatus::Stuck => Ok(Progress::Faulty),
    }
}
