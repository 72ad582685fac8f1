//! What can be wrong with a circuit's text.
//!
//! Each fault but a cycle is a fold over the lines; a cycle is a property of the netlist. The
//! grammar says nothing of an order of checks.

ghost use Rattle.std.specs.Prelude.{◌≡◌};
ghost use Rattle.aiger_text.specs.FaultNames.{circuit_fault_name};
ghost use Rattle.aiger_text.specs.declared.faults.AagStop.TheVariants.{Memory as OutOfMemory};
ghost use Rattle.aiger_text.specs.declared.faults.LineStop.TheVariants.{Fault, Memory as LineOutOfMemory};

use dq_lits::Memory;
use thiserror::Error;

/// Why a text isn't a circuit.
#[derive(Clone, Copy, Debug, PartialEq, Eq)]
pub enum AagFault {
    /// The first line isn't `aag` (in the binary form `aig`) and five to nine natural numbers, or has
    /// fewer variables than inputs and gates; in the binary form, another number of them.
    BadHeader,
    /// There are latches, or a section of another kind than inputs, outputs and gates.
    NotCombinational,
    /// A line of an input, an output or a gate that hasn't one, one or three natural numbers.
    BadLine,
    /// A number of 10^18 or more, or a number of the header over 1,000,000,000.
    TooBig,
    /// An input or a gate that isn't the positive literal of a variable, or a literal over the
    /// largest.
    Range,
    /// An input or a gate whose variable is an input or a gate already.
    DefinedTwice,
    /// A line that names a variable that is neither input nor gate.
    Undefined,
    /// A gate that lies on a cycle of gates, or reads one that does.
    Cyclic,
    /// A line behind the gates that isn't a symbol, or a symbol of nothing or a second one.
    BadSymbol,
    /// The text ends before its last gate.
    Truncated,
    /// In the binary form alone: a difference of literals in more than five bytes, a first one of 0, or
    /// one that makes a right side negative.
    BadDelta,
}

impl AagFault {
    /// Its name, as programs write it.
    pub fn name(self) -> &'static str
        ensures { result.now ≡ circuit_fault_name self }
    {
        match self {
            AagFault::BadHeader => "BadHeader",
            AagFault::NotCombinational => "NotCombinational",
            AagFault::BadLine => "BadLine",
            AagFault::TooBig => "TooBig",
            AagFault::Range => "Range",
            AagFault::DefinedTwice => "DefinedTwice",
            AagFault::Undefined => "Undefined",
            AagFault::Cyclic => "Cyclic",
            AagFault::BadSymbol => "BadSymbol",
            AagFault::Truncated => "Truncated",
            AagFault::BadDelta => "BadDelta",
        }
    }
}

/// Why a reading stopped.
#[derive(Clone, Copy, Debug, PartialEq, Eq, Error)]
pub enum AagStop {
    /// The text is no circuit: its first fault, by line and name.
    #[error("line {line}: {name:?}")]
    Refused { line: u64, name: AagFault },
    #[error("out of memory")]
    Memory,
}

impl From<Memory> for AagStop {
    ghost from_gives = { λ _ stop. stop ≡ OutOfMemory };

    fn from(_refused: Memory) -> AagStop {
        AagStop::Memory
    }
}

/// Why a line stopped the reading.
#[derive(Clone, Copy, Debug, PartialEq, Eq, Error)]
pub enum LineStop {
    #[error("{0:?}")]
    Fault(AagFault),
    #[error("out of memory")]
    Memory,
}

impl From<Memory> for LineStop {
    ghost from_gives = { λ _ stop. stop ≡ LineOutOfMemory };

    fn from(_refused: Memory) -> LineStop {
        LineStop::Memory
    }
}

impl From<AagFault> for LineStop {
    ghost from_gives = { λ fault stop. stop ≡ Fault fault };

    fn from(fault: AagFault) -> LineStop {
        LineStop::Fault(fault)
    }
}
