//! What can be wrong with a certificate's text.

ghost use Rattle.std.specs.Prelude.{◌≡◌};
ghost use Rattle.cert_text.specs.declared.faults.CertStop.TheVariants.{Refused, Memory as OutOfMemory};
ghost use Rattle.cert_text.specs.declared.faults.LineStop.TheVariants.{Fault, Memory as LineOutOfMemory};
ghost use Rattle.cert_text.specs.LineStop.{StopsAt};

use dq_lits::Memory;
use thiserror::Error;

/// What is wrong with the text of a certificate.
#[derive(Clone, Copy, Debug, PartialEq, Eq)]
pub enum CertFault {
    /// The header line is missing, or isn't that of a certificate.
    BadHeader,
    /// A line that isn't numbers in the order that its kind asks for.
    BadLine,
    /// A row that isn't each universal once, in the formula's order and with a sign, and then 0.
    RowIncomplete,
    /// A step whose id isn't the next one.
    IdOrder,
    /// A hint that isn't below the id of its line.
    UnknownHint,
    /// A number of 10^18 or more, or a count of the header over 1,000,000,000.
    TooBig,
    /// The text ends before the lines that its header announces.
    Truncated,
    /// A literal of a step on a variable that the proof doesn't have.
    BadVariable,
    /// The line `s TRUE` before a refutation, or `s FALSE` before a circuit.
    WrongVerdict,
    /// A deleted id that isn't that of a line before, or was deleted already.
    NotLive,
    /// A block of definitions that isn't that of the next existential.
    BlockOrder,
    /// A gate of a definition that isn't the next one, or reads what it can't.
    BadGate,
}

/// The first fault of a certificate's text, by line and name.
#[derive(Clone, Copy, Debug, PartialEq, Eq, Error)]
#[error("line {line}: {name:?}")]
pub struct CertRefusal {
    pub line: u64,
    pub name: CertFault,
}

/// Why the reading of a certificate stopped.
#[derive(Clone, Copy, Debug, PartialEq, Eq, Error)]
pub enum CertStop {
    /// The text is no certificate.
    #[error("{0}")]
    Refused(CertRefusal),
    #[error("out of memory")]
    Memory,
}

impl From<Memory> for CertStop {
    ghost from_gives = { λ _ stop. stop ≡ OutOfMemory };

    fn from(_refused: Memory) -> CertStop {
        CertStop::Memory
    }
}

impl From<CertRefusal> for CertStop {
    ghost from_gives = { λ refusal stop. stop ≡ Refused refusal };

    fn from(refusal: CertRefusal) -> CertStop {
        CertStop::Refused(refusal)
    }
}

/// Why a line stopped the reading.
#[derive(Clone, Copy, Debug, PartialEq, Eq, Error)]
pub enum LineStop {
    #[error("{0:?}")]
    Fault(CertFault),
    #[error("out of memory")]
    Memory,
}

impl From<Memory> for LineStop {
    ghost from_gives = { λ _ stop. stop ≡ LineOutOfMemory };

    fn from(_refused: Memory) -> LineStop {
        LineStop::Memory
    }
}

impl From<CertFault> for LineStop {
    ghost from_gives = { λ fault stop. stop ≡ Fault fault };

    fn from(fault: CertFault) -> LineStop {
        LineStop::Fault(fault)
    }
}

/// The refusal of a text for the fault of a line.
pub fn refused(line: u64, name: CertFault) -> CertStop
    ensures { result ≡ CertStop.Refused (record { line = line; name = name }) }
{
    CertStop::Refused(CertRefusal { line, name })
}

/// A line's stop as one of the text.
pub fn at_line(line: u64, stop: LineStop) -> CertStop
    ensures { StopsAt line stop result }
{
    match stop {
        LineStop::Fault(name) => refused(line, name),
        LineStop::Memory => CertStop::Memory,
    }
}
