//! How entries are kept: what each one is, and what its numbers stand for.
//!
//! A clause costs its literals, its numbers, and 18 bytes: its kind, that it is a clause, and where
//! its literals and its numbers end. The numbers of what was derived are its hints; those of a
//! given clause are its origin's, in the order of its fields.

ghost use Rattle.std.specs.Prelude.{◌≡◌, ◌≤◌, [], length, slice_index, if◌then◌else◌};
ghost use Rattle.hint_log.specs.Entries.{hints_of, origin_of, is_counted};
ghost use Rattle.hint_log.specs.Kept.{entry_by, HasNumbers};
ghost use Rattle.hint_log.specs.declared.origins.Origin.TheVariants.{Fault, Differ};

use crate::origins::{Leaf, Origin};
use dq_lits::{Lit, Row};

/// What an entry is.
#[derive(Clone, Copy)]
pub enum EntryKind {
    Naming,
    Clause,
    Failure,
    Beginning,
}

/// What a clause is. A fault is of a kind by its output: a constant, or a literal of this sign,
/// whose variable is a number more.
#[derive(Clone, Copy)]
pub enum ClauseKind {
    OfInstance,
    OfGate,
    OfFalseFault,
    OfTrueFault,
    OfPositiveFault,
    OfNegativeFault,
    OfCopy,
    OfLink,
    OfTermGate,
    OfFalseDiffer,
    OfTrueDiffer,
    OfPositiveDiffer,
    OfNegativeDiffer,
    OfLemma,
    OfAnswer,
}

/// A round: the row, the values of the existentials there, and the number of a clause that is
/// false.
#[derive(Drop)]
pub struct KeptRound {
    pub row: Row,
    pub values: Row,
    pub clause: u64,
}

impl ClauseKind {
    // How many steps such a clause counts as.
    pub(crate) fn steps(self) -> u64
        ensures { result ≡ (if is_counted (entry_by self [] []) then 1 else 0) }
    {
        match self {
            ClauseKind::OfLemma => 1,
            _ => 0,
        }
    }
}

/// The hints among these numbers of a clause: all of what was derived, and none of what was given.
pub fn kept_hints(kind: ClauseKind, numbers: &[u64]) -> &[u64]
    ensures { result.now ≡ hints_of (entry_by kind [] numbers.now) }
{
    match kind {
        ClauseKind::OfLemma => numbers,
        ClauseKind::OfAnswer => numbers,
        _ => &[],
    }
}

/// The origin that these numbers of a clause stand for; none, where it was derived.
pub fn kept_origin(kind: ClauseKind, numbers: &[u64]) -> Option<Origin>
    requires { HasNumbers kind numbers.now }
    ensures { result ≡ origin_of (entry_by kind [] numbers.now) }
{
    match kind {
        ClauseKind::OfInstance => Some(Origin::Instance {
            round: numbers[0],
            clause: numbers[1],
        }),
        ClauseKind::OfGate => Some(Origin::Gate {
            variable: numbers[0],
            part: numbers[1],
        }),
        ClauseKind::OfFalseFault => Some(fault(numbers, Leaf::Constant(false))),
        ClauseKind::OfTrueFault => Some(fault(numbers, Leaf::Constant(true))),
        ClauseKind::OfPositiveFault => Some(fault(numbers, Leaf::Literal(Lit::pos(numbers[2])))),
        ClauseKind::OfNegativeFault => Some(fault(numbers, Leaf::Literal(Lit::neg(numbers[2])))),
        ClauseKind::OfCopy => Some(Origin::Copy {
            side: numbers[0],
            clause: numbers[1],
        }),
        ClauseKind::OfLink => Some(Origin::Link {
            variable: numbers[0],
            part: numbers[1],
        }),
        ClauseKind::OfTermGate => Some(Origin::TermGate {
            variable: numbers[0],
            part: numbers[1],
        }),
        ClauseKind::OfFalseDiffer => Some(differ(numbers, Leaf::Constant(false))),
        ClauseKind::OfTrueDiffer => Some(differ(numbers, Leaf::Constant(true))),
        ClauseKind::OfPositiveDiffer => Some(differ(numbers, Leaf::Literal(Lit::pos(numbers[2])))),
        ClauseKind::OfNegativeDiffer => Some(differ(numbers, Leaf::Literal(Lit::neg(numbers[2])))),
        ClauseKind::OfLemma | ClauseKind::OfAnswer => None,
    }
}

fn differ(numbers: &[u64], output: Leaf) -> Origin
    requires { 2 ≤ length numbers.now }
    ensures { result ≡ Differ (slice_index numbers.now 0) output (slice_index numbers.now 1) }
{
    Origin::Differ {
        existential: numbers[0],
        output,
        part: numbers[1],
    }
}

fn fault(numbers: &[u64], output: Leaf) -> Origin
    requires { 2 ≤ length numbers.now }
    ensures { result ≡ Fault (slice_index numbers.now 0) (slice_index numbers.now 1) output }
{
    Origin::Fault {
        clause: numbers[0],
        place: numbers[1],
        output,
    }
}
