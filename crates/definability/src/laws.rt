//! What definitions say, and what leaves the copies as they stand. Each law is the contract of a
//! function without parameters.

ghost use Rattle.definability.specs.Defining.{DefinitionsAreForced};
ghost use Rattle.definability.specs.Leaving.{EnginesLeaveStores, RoundsLeaveStores, BeginningsLeaveStores, ClausesLeaveStores, SessionsLeaveCopies, CopiesAreGrouped, CopiesAreStored, ActiveGroupsAreStored};
ghost use Rattle.definability.specs.Preservation.{RoundsLeaveCopies};

use log_laws::laws::engines_leave_sessions;

/// Every choice that solves the formula has a definition's value.
pub fn definitions_are_forced()
    ensures { DefinitionsAreForced }
{}

/// A round leaves them as they stand.
pub fn rounds_leave_copies()
    ensures { RoundsLeaveCopies }
{}

/// What a call adds to the log of a session, in groups of its own, leaves the active copies as they
/// stand.
pub fn sessions_leave_copies()
    ensures { SessionsLeaveCopies }
{
    engines_leave_sessions();
}

/// What another engine adds to the log of a session, in groups of its own, leaves a store of copies
/// as it stands.
pub fn engines_leave_stores()
    ensures { EnginesLeaveStores }
{}

/// So does a round.
pub fn rounds_leave_stores()
    ensures { RoundsLeaveStores }
{}

/// So does the beginning of a search.
pub fn beginnings_leave_stores()
    ensures { BeginningsLeaveStores }
{}

/// So do clauses that are numbered behind all others.
pub fn added_clauses_leave_stores()
    ensures { ClausesLeaveStores }
{}

/// Copies have one group where their clauses are of one frame, and they are of one side.
pub fn copies_are_grouped()
    ensures { CopiesAreGrouped }
{}

/// The groups of copies are the store's.
pub fn copies_are_stored()
    ensures { CopiesAreStored }
{}

/// The active groups are among them.
pub fn active_groups_are_stored()
    ensures { ActiveGroupsAreStored }
{}
