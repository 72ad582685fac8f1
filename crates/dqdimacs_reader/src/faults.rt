//! What can be wrong with a formula's text.

ghost use Rattle.std.specs.Prelude.{◌≡◌};
ghost use Rattle.dqdimacs_reader.specs.declared.faults.ReadStop.TheVariants.{Memory as OutOfMemory};

use dq_lits::Memory;
use thiserror::Error;

/// Why a text isn't a formula.
#[derive(Clone, Copy, Debug, PartialEq, Eq)]
pub enum FormulaFault {
    /// The text doesn't begin with `p cnf`, or ends within its header.
    NoHeader,
    /// A token isn't a number of the kind that stands here.
    BadNumber,
    /// A number of magnitude 10^18 or more.
    TooBig,
    /// A variable above the header's number of variables.
    VarRange,
    /// A variable is declared a second time.
    DeclaredTwice,
    /// A dependency isn't a universal that was declared before.
    NotUniversal,
    /// A `d` line declares no variable.
    EmptyD,
    /// A set or an item behind the first token of a clause or an XOR line.
    PrefixLate,
    HeaderTwice,
    /// The text ends before the header's number of clauses and XOR lines.
    TooFewClauses,
    /// A clause or an XOR line more than the header's number.
    TooManyClauses,
    /// The text ends inside a set, an item, a clause or an XOR line.
    MissingZero,
    /// More than 1,000,000 variables or 10,000,000 clauses, in the header or in the matrix, where an
    /// XOR line stands as its clauses.
    Limit,
    /// A variable a second time in an XOR line.
    XorRepeat,
    /// An XOR line without literals, or a sixth literal in one.
    XorSize,
}

/// Why a reading stopped.
#[derive(Clone, Copy, Debug, PartialEq, Eq, Error)]
pub enum ReadStop {
    /// The text spells no formula: its first fault, by line and name.
    #[error("line {line}: {name:?}")]
    Refused { line: u64, name: FormulaFault },
    #[error("out of memory")]
    Memory,
}

impl From<Memory> for ReadStop {
    ghost from_gives = { λ _ stop. stop ≡ OutOfMemory };

    fn from(_: Memory) -> ReadStop {
        ReadStop::Memory
    }
}
