//! What leaves a database as it stands. Each law is the contract of a function without parameters.

ghost use Rattle.dq_session.specs.Changing.{FramesOpen, FramesClose, ClausesCome};
ghost use Rattle.dq_session.specs.Grouped.{InstancesAreGrouped};
ghost use Rattle.dq_session.specs.Preservation.{EnginesLeaveDatabases, RoundsLeaveDatabases, BeginningsLeaveDatabases};

/// What another engine adds to the log, in groups of its own, leaves a database as it stands.
pub fn engines_leave_databases()
    ensures { EnginesLeaveDatabases }
{}

/// A new round leaves a database as it stands, but for the row that is to be added.
pub fn rounds_leave_databases()
    ensures { RoundsLeaveDatabases }
{}

/// The beginning of a search leaves a database as it stands.
pub fn beginnings_leave_databases()
    ensures { BeginningsLeaveDatabases }
{}

/// A frame that is opened leaves a database's instances as they stand.
pub fn opened_frames_leave_databases()
    ensures { FramesOpen }
{}

/// So does one that is closed.
pub fn closed_frames_leave_databases()
    ensures { FramesClose }
{}

/// So does a clause that is added to an open frame.
pub fn added_clauses_leave_databases()
    ensures { ClausesCome }
{}

/// Instances have one group where their clauses are of one frame, and nowhere else.
pub fn instances_are_grouped()
    ensures { InstancesAreGrouped }
{}
