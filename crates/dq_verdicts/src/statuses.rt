//! The statuses of verdicts, as SAT solvers have them.

ghost use Rattle.std.specs.Prelude.{◌≡◌};
ghost use Rattle.dq_verdicts.specs.Statuses.{code};

/// A verdict, as the program's status tells it.
#[derive(Clone, Copy, PartialEq, Eq)]
pub enum SolveStatus {
    /// The formula is true.
    True,
    /// The formula is false.
    False,
    /// The steps didn't suffice.
    Unknown,
}

impl SolveStatus {
    /// The number that the program ends with.
    pub fn code(self) -> u8
        ensures { result ≡ code self }
    {
        match self {
            SolveStatus::True => 10,
            SolveStatus::False => 20,
            SolveStatus::Unknown => 0,
        }
    }
}
