//! The statuses of the checker's answers.

ghost use Rattle.std.specs.Prelude.{◌≡◌};
ghost use Rattle.dqcheck_core.specs.Statuses.{code};

/// What a certificate was judged to be, as the program's status tells it.
#[derive(Clone, Copy, PartialEq, Eq)]
pub enum CheckStatus {
    Accepted,
    /// Its text has a fault.
    RefusedCertificate,
    /// It is wrong.
    WrongCertificate,
    /// It has no proof, and there are too many universals to try all rows.
    Unproved,
}

impl CheckStatus {
    /// The number that the program ends with.
    pub fn code(self) -> u8
        ensures { result ≡ code self }
    {
        match self {
            CheckStatus::Accepted => 0,
            CheckStatus::RefusedCertificate => 7,
            CheckStatus::WrongCertificate => 8,
            CheckStatus::Unproved => 9,
        }
    }
}
