//! The statuses that all commands share.

ghost use Rattle.std.specs.Prelude.{◌≡◌};
ghost use Rattle.dq_runs.specs.Statuses.{code};

/// Why a run gives no answer of its command.
#[derive(Clone, Copy, PartialEq, Eq)]
pub enum Failure {
    /// The words aren't the program's.
    Usage,
    /// The formula's text has a fault.
    RefusedFormula,
    /// A file can't be read.
    SourceFault,
    /// What is due can't be written to its end.
    SinkFault,
    WantOfMemory,
    /// A file is too long.
    TooLong,
}

impl Failure {
    /// The number that the program ends with.
    pub fn code(self) -> u8
        ensures { result ≡ code self }
    {
        match self {
            Failure::Usage => 1,
            Failure::RefusedFormula => 2,
            Failure::SourceFault => 3,
            Failure::SinkFault => 4,
            Failure::WantOfMemory => 5,
            Failure::TooLong => 6,
        }
    }
}
