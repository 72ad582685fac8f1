//! What leaves a table as it stands. Each law is the contract of a function without parameters.

ghost use Rattle.expansion.specs.Preservation.{RoundsLeaveTables};

/// A new round leaves a table as it stands, but for the row that is to be added.
pub fn rounds_leave_tables()
    ensures { RoundsLeaveTables }
{}
