//! What a log tells of its formula, by the definitions of `specs/` and those of `hint_log` alone.
//!
//! Each law is the contract of a function without parameters: it holds of all formulas and logs,
//! and a caller that needs it calls the function.

ghost use Rattle.log_laws.specs.Engines.{EnginesLeaveRest};
ghost use Rattle.log_laws.specs.Meaning.{InstancesHaveNoModel, DecidedFalseIsFalse, DecidedTrueIsTrue, LeavesSolve, RoundsAreFew, ClosedClausesAreSettled, NewClausesAreUnknown};
ghost use Rattle.log_laws.specs.Sessions.{DecidedLiveFalseIsFalse, DecidedLiveTrueIsTrue, SessionRoundsAreFew, PlainLogsAreSessions, EnginesLeaveSessions, CircuitsAddLive};

use dq_lits::laws::{derived_line_is_implied, expansion_lifts, skolem_functions_show_true};

/// Where an answer rests on instances alone, the instances of the rounds before it have no model.
pub fn instances_have_no_model()
    ensures { InstancesHaveNoModel }
{
    derived_line_is_implied();
}

/// What an answer decides as false is false.
pub fn decided_false_is_false()
    ensures { DecidedFalseIsFalse }
{
    instances_have_no_model();
    expansion_lifts();
}

/// Where an answer rests on gates and on faults of one group, each clause is true once the
/// existentials have their leaves' values.
pub fn leaves_solve()
    ensures { LeavesSolve }
{
    derived_line_is_implied();
}

/// What an answer decides as true is true.
pub fn decided_true_is_true()
    ensures { DecidedTrueIsTrue }
{
    leaves_solve();
    skolem_functions_show_true();
}

/// A productive log has at most as many rounds as there are rows of the universals.
pub fn rounds_are_few()
    ensures { RoundsAreFew }
{}

/// Where propagation has come to its end, each clause has a true literal, or two literals that
/// aren't false.
pub fn closed_clauses_are_settled()
    ensures { ClosedClausesAreSettled }
{}

/// A learned clause that is new by propagation has no literal beside its negation, and it contains
/// no earlier clause.
pub fn new_clauses_are_unknown()
    ensures { NewClausesAreUnknown }
{}

/// What an engine's call adds to a log leaves the rest: the points that engines keep, rows, names,
/// and the other engines' parts and groups.
pub fn engines_leave_the_rest()
    ensures { EnginesLeaveRest }
{}

/// In a session, what an answer decides as false for its search is false.
pub fn decided_live_false_is_false()
    ensures { DecidedLiveFalseIsFalse }
{
    derived_line_is_implied();
    expansion_lifts();
}

/// In a session, what an answer decides as true for its search is true.
pub fn decided_live_true_is_true()
    ensures { DecidedLiveTrueIsTrue }
{
    leaves_solve();
    skolem_functions_show_true();
}

/// A session has at most as many rounds as there are rows of the universals.
pub fn session_rounds_are_few()
    ensures { SessionRoundsAreFew }
{}

/// A log in which no search began is a session's exactly where it is productive, and its answers
/// decide the same.
pub fn plain_logs_are_sessions()
    ensures { PlainLogsAreSessions }
{}

/// What an engine's call adds to the log of a session leaves the rest.
pub fn engines_leave_sessions()
    ensures { EnginesLeaveSessions }
{}

/// What the circuits' engine adds, which speaks of the search's formula, is right in a session.
pub fn circuits_add_live()
    ensures { CircuitsAddLive }
{}
