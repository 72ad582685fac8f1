//! How a clause stands under a trail.

ghost use Rattle.std.specs.Prelude.{◌≡◌, ℕ, true, Some, IfSome};
ghost use Rattle.dq_lits.specs.Literal.{same_literal};
ghost use Rattle.dq_lits.specs.Derivation.{status_of, stuck};
ghost use Rattle.rup_core.specs.Range.{StandsWithin};
ghost use Rattle.rup_core.specs.Extension.{seen, UnitIsFree, UnitStandsWithin};
ghost use Rattle.dq_lits.specs.Extension.{with_free, with_literal};

use crate::bases::Base;
use crate::trails::Trail;
use dq_lits::{Lit, TruthValue};

/// How a clause stands under a trail.
#[derive(Clone, Copy)]
pub(crate) enum ClauseStatus {
    /// Each of its literals is false.
    Falsified,
    /// As a set it has one literal that isn't false, and this one is unassigned.
    Unit(Lit),
    /// It has a true literal or two that aren't false, or it is no clause.
    Stuck,
}

/// How the clause with this id stands; where no clause has it, it is of no use. A clause is read as
/// far as that takes: no further than its second literal that isn't false.
pub(crate) fn status_of<B: Base>(base: &B, id: u64, trail: &Trail) -> ClauseStatus
    ensures status { seen result ≡ status_of trail.now.trues (B.clauses base.now id) }
    ensures free { UnitIsFree trail.now.trues (seen result) }
    ensures within { (n : ℕ) → IfSome (B.clauses base.now id) (StandsWithin n)
        → UnitStandsWithin n (seen result) }
{
    match base.held(id) {
        Some(lits) => status_among(lits, trail),
        None => status_made(base, id, trail),
    }
}

// The same of a clause that may be made at once.
fn status_made<B: Base>(base: &B, id: u64, trail: &Trail) -> ClauseStatus
    ensures status { seen result ≡ status_of trail.now.trues (B.clauses base.now id) }
    ensures free { UnitIsFree trail.now.trues (seen result) }
    ensures within { (n : ℕ) → IfSome (B.clauses base.now id) (StandsWithin n)
        → UnitStandsWithin n (seen result) }
{
    match base.few(id) {
        Some(few) => status_among(&few.literals[..few.count], trail),
        None => status_read(base, id, trail),
    }
}

/// The same of a clause that lies in memory.
pub(crate) fn status_among(lits: &[Lit], trail: &Trail) -> ClauseStatus
    ensures status { seen result ≡ status_of trail.now.trues (Some lits.now) }
    ensures free { UnitIsFree trail.now.trues (seen result) }
    ensures within { (n : ℕ) → StandsWithin n lits.now → UnitStandsWithin n (seen result) }
{
    let mut status = ClauseStatus::Falsified;
    for l in lits {
        status = status.with_literal(*l, trail.value(*l));
        if status.is_stuck() {
            return ClauseStatus::Stuck;
        }
    }
    status
}

// The same of a clause that is read a literal at a time.
#[inline(never)]
fn status_read<B: Base>(base: &B, id: u64, trail: &Trail) -> ClauseStatus
    ensures status { seen result ≡ status_of trail.now.trues (B.clauses base.now id) }
    ensures free { UnitIsFree trail.now.trues (seen result) }
    ensures within { (n : ℕ) → IfSome (B.clauses base.now id) (StandsWithin n)
        → UnitStandsWithin n (seen result) }
{
    let Some(size) = base.size(id) else {
        return ClauseStatus::Stuck;
    };
    let mut status = ClauseStatus::Falsified;
    for i in 0..size {
        let l = base.lit(id, i);
        status = status.with_literal(l, trail.value(l));
        if status.is_stuck() {
            return ClauseStatus::Stuck;
        }
    }
    status
}

impl ClauseStatus {
    // Whether it stays as it is, whatever further literals there are.
    fn is_stuck(&self) -> bool
        ensures { result ≡ true → seen self.now ≡ stuck }
    {
        matches!(self, ClauseStatus::Stuck)
    }

    // With one more literal, of this value.
    fn with_literal(&self, l: Lit, value: TruthValue) -> ClauseStatus
        ensures { seen result ≡ with_literal (seen self.now) l value }
    {
        match value {
            TruthValue::False => *self,
            TruthValue::True => ClauseStatus::Stuck,
            TruthValue::Unassigned => self.with_free(l),
        }
    }

    fn with_free(&self, l: Lit) -> ClauseStatus
        ensures { seen result ≡ with_free (seen self.now) l }
    {
        match self {
            ClauseStatus::Falsified => ClauseStatus::Unit(l),
            ClauseStatus::Unit(other) => {
                if is_same(*other, l) {
                    *self
                } else {
                    ClauseStatus::Stuck
                }
            }
            ClauseStatus::Stuck => ClauseStatus::Stuck,
        }
    }
}

fn is_same(l: Lit, k: Lit) -> bool
    ensures { result ≡ same_literal l k }
{
    l.var() == k.var() && l.is_neg() == k.is_neg()
}
