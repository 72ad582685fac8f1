//! What each call leaves of a search that is under way. Each law is the contract of a function
//! without parameters.

ghost use Rattle.repair_loop.specs.Preservation.{SearchStatesAreGrouped, FailuresAreRounds, InstancesLeaveLogs, InstancesLeaveSearches, QuestionsLeaveSearches, TurnsLeaveSearches};

use circuit_cnf::laws::{checkers_stay, checkers_stay_with_rounds, failures_refute_rows};
use definability::laws::{
    active_groups_are_stored, copies_are_grouped, copies_are_stored, engines_leave_stores,
    rounds_leave_copies, rounds_leave_stores, sessions_leave_copies,
};
use dq_session::laws::{engines_leave_databases, instances_are_grouped, rounds_leave_databases};
use log_laws::laws::{circuits_add_live, engines_leave_sessions};

// Questions on definitions and rules.
pub(crate) fn questions_leave_searches()
    ensures { QuestionsLeaveSearches }
{
    engines_leave_sessions();
    engines_leave_databases();
    engines_leave_stores();
    checkers_stay();
}

// A check of circuits.
pub(crate) fn turns_leave_searches()
    ensures { TurnsLeaveSearches }
{
    engines_leave_sessions();
    circuits_add_live();
    engines_leave_databases();
    engines_leave_stores();
    sessions_leave_copies();
    active_groups_are_stored();
}

// Instances that are given, and searches over them.
pub(crate) fn instances_leave_searches()
    ensures { InstancesLeaveSearches }
{
    engines_leave_sessions();
    engines_leave_stores();
    sessions_leave_copies();
    active_groups_are_stored();
    checkers_stay();
}

// Candidates that fail have a round in hand.
pub(crate) fn failures_are_rounds()
    ensures { FailuresAreRounds }
{
    failures_refute_rows();
    rounds_leave_databases();
    checkers_stay_with_rounds();
    rounds_leave_copies();
    rounds_leave_stores();
}

// Copies and instances of a search state and its database are grouped by frames.
pub(crate) fn search_states_are_grouped()
    ensures { SearchStatesAreGrouped }
{
    instances_are_grouped();
    copies_are_grouped();
    copies_are_stored();
}

// What instances leave of the log, also where some were refused.
pub(crate) fn instances_leave_logs()
    ensures { InstancesLeaveLogs }
{
    engines_leave_sessions();
}
