//! What can be wrong with a script.

ghost use Rattle.std.specs.Prelude.{◌≡◌};
ghost use Rattle.script_text.specs.Steps.{StopsAt};
ghost use Rattle.script_text.specs.declared.faults.LineStop.TheVariants.{Memory as LineOutOfMemory};
ghost use Rattle.script_text.specs.declared.faults.ScriptStop.TheVariants.{Memory as OutOfMemory};

use dq_lits::Memory;
use thiserror::Error;

/// Why a text is no script for a formula.
#[derive(Clone, Copy, Debug, PartialEq, Eq)]
pub enum ScriptFault {
    /// A first word that isn't a command's, or words behind one that stands alone.
    BadCommand,
    /// A clause for the newest frame, or its end, where no frame is open.
    NoFrame,
    /// A word of a clause that isn't a number.
    BadNumber,
    /// A number of a clause of magnitude 10^18 or more.
    TooBig,
    /// A variable above those that the formula's header states.
    VarRange,
    /// A variable that is neither a universal nor an existential of the formula.
    Undeclared,
    /// A clause without a 0 at its end, or with words behind the first one.
    MissingZero,
    /// More clauses than 10,000,000, with those of the formula.
    Limit,
}

/// Why there is no script.
#[derive(Clone, Copy, Debug, PartialEq, Eq, Error)]
pub enum ScriptStop {
    /// The first refusal, by its line and name.
    #[error("line {line}: {name:?}")]
    Refused { line: u64, name: ScriptFault },
    #[error("out of memory")]
    Memory,
}

impl From<Memory> for ScriptStop {
    ghost from_gives = { λ _ stop. stop ≡ OutOfMemory };

    fn from(_refused: Memory) -> ScriptStop {
        ScriptStop::Memory
    }
}

/// Why a line stopped the reading.
#[derive(Clone, Copy, Debug, PartialEq, Eq, Error)]
pub(crate) enum LineStop {
    #[error("{0:?}")]
    Fault(ScriptFault),
    #[error("out of memory")]
    Memory,
}

impl From<Memory> for LineStop {
    ghost from_gives = { λ _ stop. stop ≡ LineOutOfMemory };

    fn from(_refused: Memory) -> LineStop {
        LineStop::Memory
    }
}

/// A line's stop as one of the reading.
pub(crate) fn at_line(line: u64, stop: LineStop) -> ScriptStop
    ensures { StopsAt line stop result }
{
    match stop {
        LineStop::Fault(name) => ScriptStop::Refused { line, name },
        LineStop::Memory => ScriptStop::Memory,
    }
}
