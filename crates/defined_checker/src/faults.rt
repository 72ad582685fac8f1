//! What can be wrong with a text of definitions.

ghost use Rattle.std.specs.Prelude.{◌≡◌};
ghost use Rattle.defined_checker.specs.Answers.{stop_of};
ghost use Rattle.defined_checker.specs.declared.faults.DefStop.TheVariants.{Refused, Memory as OutOfMemory};

use cert_text::{CertRefusal, CertStop};
use dq_lits::Memory;
use thiserror::Error;

/// What is wrong with a block.
#[derive(Clone, Copy, Debug, PartialEq, Eq)]
pub enum DefinitionFault {
    /// The definition of the first variable reads the second one, which it may not; it is the least
    /// such.
    Reads(u64, u64),
    /// In the proof of the variable's definition the step with this id isn't derived.
    Step(u64, u64),
    /// The last step of the proof isn't the empty clause, or there is none.
    Unfinished(u64),
    /// The two assignments don't show that the variable has no definition.
    Pair(u64),
}

/// Why a text of definitions isn't accepted.
#[derive(Clone, Copy, Debug, PartialEq, Eq, Error)]
pub enum DefStop {
    /// The text has a fault.
    #[error("{0}")]
    Refused(CertRefusal),
    /// A block is at fault.
    #[error("{0:?}")]
    Invalid(DefinitionFault),
    #[error("out of memory")]
    Memory,
}

impl From<Memory> for DefStop {
    ghost from_gives = { λ _ stop. stop ≡ OutOfMemory };

    fn from(_refused: Memory) -> DefStop {
        DefStop::Memory
    }
}

impl From<CertRefusal> for DefStop {
    ghost from_gives = { λ refusal stop. stop ≡ Refused refusal };

    fn from(refusal: CertRefusal) -> DefStop {
        DefStop::Refused(refusal)
    }
}

/// The stop of a reader as one of the check.
pub(crate) fn text_stop(stop: CertStop) -> DefStop
    ensures { result ≡ stop_of stop }
{
    match stop {
        CertStop::Refused(refusal) => DefStop::Refused(refusal),
        CertStop::Memory => DefStop::Memory,
    }
}
