//! What leaves a search state ready for the next search. Each law is the contract of a function without
//! parameters.

ghost use Rattle.repair_loop.specs.Changes.{ClausesCome, FramesClose, FramesOpen};

use definability::laws::added_clauses_leave_stores;
use dq_session::laws::{
    added_clauses_leave_databases, closed_frames_leave_databases, opened_frames_leave_databases,
};

/// A frame is opened.
pub fn opened_frames_leave_search_states()
    ensures { FramesOpen }
{
    opened_frames_leave_databases();
}

/// The newest frame is closed.
pub fn closed_frames_leave_search_states()
    ensures { FramesClose }
{
    closed_frames_leave_databases();
}

/// A clause is added to the newest frame.
pub fn added_clauses_leave_search_states()
    ensures { ClausesCome }
{
    added_clauses_leave_databases();
    added_clauses_leave_stores();
}
