//! What a database stands for that takes a script's commands, and what a session's log is then. Each law
//! is the contract of a function without parameters and with an empty body.

ghost use Rattle.session_runs.specs.LargerSessions.{SessionsTakeClauses, UndecidedTakesClauses};
ghost use Rattle.session_runs.specs.Laws.{DatabasesFollow, FollowingDatabasesStand, NumbersNameFormulas};

/// A database that follows a script follows it behind the next command too.
pub fn databases_follow()
    ensures { DatabasesFollow }
{}

/// Its formula of now is the script's, and its live clauses have the script's numbers.
pub fn following_databases_stand()
    ensures { FollowingDatabasesStand }
{}

/// The numbers of each search's clauses name its formula.
pub fn numbers_name_formulas()
    ensures { NumbersNameFormulas }
{}

/// A session's log is one over more clauses.
pub fn sessions_take_clauses()
    ensures { SessionsTakeClauses }
{}

/// What its last search left undecided stays so.
pub fn undecided_takes_clauses()
    ensures { UndecidedTakesClauses }
{}
