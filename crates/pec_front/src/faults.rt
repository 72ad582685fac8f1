//! What can be wrong with a partial design.

ghost use Rattle.std.specs.Prelude.{◌≡◌};
ghost use Rattle.pec_front.specs.declared.faults.LineStop.TheVariants.{Fault, Memory as LineOutOfMemory};
ghost use Rattle.pec_front.specs.declared.faults.PecStop.TheVariants.{Memory as OutOfMemory};
ghost use Rattle.pec_front.specs.Steps.{StopsAt};

use dq_lits::Memory;
use thiserror::Error;

/// Why an implementation and its comment are no partial design for a specification.
#[derive(Clone, Copy, Debug, PartialEq, Eq)]
pub enum PecFault {
    /// It has fewer inputs than the specification.
    InputShort,
    /// It hasn't as many outputs as the specification.
    OutputCount,
    /// Its comment doesn't begin with a line `pec B`.
    NoPec,
    /// More boxes than 1,000,000, or a formula over the limits of a formula.
    Limit,
    /// A box's line is missing.
    Truncated,
    /// A line that isn't a box's counts, literals of inputs and gates, and literals of further
    /// inputs.
    BadBox,
    /// A further input that was driven before.
    BoxTwice,
    /// A further input that no box drives.
    BoxMissing,
    /// A box that reads what depends on what it drives itself, or a later box.
    BoxOrder,
}

/// Why there is no design.
#[derive(Clone, Copy, Debug, PartialEq, Eq, Error)]
pub enum PecStop {
    /// The first refusal, by a line of the implementation and its name.
    #[error("line {line}: {name:?}")]
    Refused { line: u64, name: PecFault },
    #[error("out of memory")]
    Memory,
}

impl From<Memory> for PecStop {
    ghost from_gives = { λ _ stop. stop ≡ OutOfMemory };

    fn from(_refused: Memory) -> PecStop {
        PecStop::Memory
    }
}

/// Why a line stopped the reading.
#[derive(Clone, Copy, Debug, PartialEq, Eq, Error)]
pub(crate) enum LineStop {
    #[error("{0:?}")]
    Fault(PecFault),
    #[error("out of memory")]
    Memory,
}

impl From<Memory> for LineStop {
    ghost from_gives = { λ _ stop. stop ≡ LineOutOfMemory };

    fn from(_refused: Memory) -> LineStop {
        LineStop::Memory
    }
}

pub(crate) fn refused(line: u64, name: PecFault) -> PecStop
    ensures { result ≡ PecStop.Refused line name }
{
    PecStop::Refused { line, name }
}

/// A line's stop as one of the reading.
pub(crate) fn at_line(line: u64, stop: LineStop) -> PecStop
    ensures { StopsAt line stop result }
{
    match stop {
        LineStop::Fault(name) => refused(line, name),
        LineStop::Memory => PecStop::Memory,
    }
}
