//! Why a circuit's proof isn't accepted.

ghost use Rattle.std.specs.Prelude.{◌≡◌};
ghost use Rattle.proof_checker.specs.declared.faults.ProofFault.TheVariants.{Memory as OutOfMemory};

use dq_lits::Memory;
use thiserror::Error;

/// Why a circuit's proof isn't accepted.
#[derive(Clone, Copy, Debug, PartialEq, Eq, Error)]
pub enum ProofFault {
    /// The first line that isn't derived, by its id.
    #[error("step {0}")]
    Step(u64),
    /// Every line is derived, and the last one isn't the empty clause, or there is none.
    #[error("no empty clause")]
    NoEmptyClause,
    #[error("out of memory")]
    Memory,
}

impl From<Memory> for ProofFault {
    ghost from_gives = { λ _ fault. fault ≡ OutOfMemory };

    fn from(_refused: Memory) -> ProofFault {
        ProofFault::Memory
    }
}
