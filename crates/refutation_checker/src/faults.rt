//! Why a refutation isn't accepted.

ghost use Rattle.std.specs.Prelude.{◌≡◌};
ghost use Rattle.refutation_checker.specs.declared.faults.RefFault.TheVariants.{Memory as OutOfMemory};

use dq_lits::Memory;
use thiserror::Error;

/// Why a refutation isn't accepted.
#[derive(Clone, Copy, Debug, PartialEq, Eq, Error)]
pub enum RefFault {
    /// The first line that isn't derived, by its id.
    #[error("step {0}")]
    Step(u64),
    /// Every line is derived, and the last one isn't the empty clause, or there is none.
    #[error("no empty clause")]
    NoEmptyClause,
    #[error("out of memory")]
    Memory,
}

impl From<Memory> for RefFault {
    ghost from_gives = { λ _ fault. fault ≡ OutOfMemory };

    fn from(_refused: Memory) -> RefFault {
        RefFault::Memory
    }
}
