//! Whether a line is derived by its hints.
//!
//! A hint is looked at once and whole, literal by literal, so that a clause that holds a literal
//! twice, or one beside its negation, needs no rule of its own. A clause is read up to its second
//! literal that isn't false: so a hint costs more than the line and the hints before it only where
//! a clause is stuck, and a stuck clause ends the proof.

ghost use Rattle.std.specs.Prelude.{◌≡◌, true, [], All, IfSome, IfOk, IsOk, not, map};
ghost use Rattle.dq_lits.specs.Literal.{opposite};
ghost use Rattle.dq_lits.specs.Derivation.{line_fault, hint_fault, is_tautology, AreSame};
ghost use Rattle.rup_core.specs.Range.{StandsWithin, LineStandsWithin};
ghost use Rattle.rup_core.specs.Verdict.{fault_in};

use crate::bases::Base;
use crate::marks::Marks;
use crate::progress::{Progress, propagate};
use crate::statuses::status_of;
use crate::trails::{Trail, place_of};
use dq_lits::{Lit, Memory, TruthValue};

/// Whether a line is derived.
#[derive(Clone, Copy, PartialEq, Eq)]
pub enum Derived {
    /// Each hint but the last propagates, and the last one is falsified.
    Yes,
    /// The place of the first hint at fault, counted from 1: one behind the last where all hints
    /// propagate and none is falsified, and 0 where the line holds a literal beside its negation.
    No(usize),
}

/// Whether a line is derived by its hints from the clauses of a base, or the place of its fault.
/// There are marks for every variable of the line and of the clauses that it hints; a hint may also
/// be an id that no clause has.
///
/// It takes time in proportion to the line and the clauses that it hints, and no memory. Afterwards
/// no variable is marked, whatever the answer is.
pub fn derive<B: Base>(marks: &mut Marks, lits: &[Lit], hints: &[u64], base: &B) -> Derived
    requires { LineStandsWithin marks.old (B.clauses base.now) lits.now hints.now }
    ensures same { marks.new ≡ marks.old }
    ensures answer { fault_in result ≡ line_fault (B.clauses base.now) lits.now hints.now }
{
    match derive_any(marks, lits, hints, base) {
        Ok(derived) => derived,
        Err(Memory) => unreachable!(),
    }
}

/// The same, whichever variables the line and the clauses that it hints stand on. It takes memory
/// for those beyond the marks that are assigned, and gives it back.
pub fn derive_any<B: Base>(
    marks: &mut Marks,
    lits: &[Lit],
    hints: &[u64],
    base: &B,
) -> Result<Derived, Memory>
    ensures same { marks.new ≡ marks.old }
    ensures answer { IfOk result
        (λ derived. fault_in derived ≡ line_fault (B.clauses base.now) lits.now hints.now) }
    ensures marked { LineStandsWithin marks.old (B.clauses base.now) lits.now hints.now
        → IsOk result }
{
    let fault = line_fault(&mut marks.trail, lits, hints, base);
    marks.trail.clear();
    match fault? {
        None => Ok(Derived::Yes),
        Some(place) => Ok(Derived::No(place)),
    }
}

/// The place of a line's fault. The literals that were made true stay so.
pub(crate) fn line_fault<B: Base>(
    trail: &mut Trail,
    lits: &[Lit],
    hints: &[u64],
    base: &B,
) -> Result<Option<usize>, Memory>
    requires { trail.old.trues ≡ [] }
    ensures variables { trail.new.variables ≡ trail.old.variables }
    ensures fault { IfOk result
        (λ fault. fault ≡ line_fault (B.clauses base.now) lits.now hints.now) }
    ensures marked { LineStandsWithin trail.old.variables (B.clauses base.now) lits.now hints.now
        → IsOk result }
{
    if !assume_false(trail, lits)? {
        return Ok(Some(0));
    }
    hint_fault(trail, hints, base)
}

/// Makes all these literals false, unless one stands beside its negation.
#[inline(always)]
pub(crate) fn assume_false(trail: &mut Trail, lits: &[Lit]) -> Result<bool, Memory>
    requires { trail.old.trues ≡ [] }
    ensures variables { trail.new.variables ≡ trail.old.variables }
    ensures consistent { IfOk result (λ consistent. consistent ≡ not (is_tautology lits.now)) }
    ensures assumed { IfOk result
        (λ consistent. consistent ≡ true → AreSame trail.new.trues (map opposite lits.now)) }
    ensures marked { StandsWithin trail.old.variables lits.now → IsOk result }
{
    for l in lits {
        match trail.value(*l) {
            TruthValue::False => {}
            TruthValue::True => return Ok(false),
            TruthValue::Unassigned => trail.assign(place_of(*l), l.not())?,
        }
    }
    Ok(true)
}

// The place of the first hint at fault, or one behind the last. The literals that were made true
// stay so.
fn hint_fault<B: Base>(trail: &mut Trail, hints: &[u64], base: &B) -> Result<Option<usize>, Memory>
    ensures variables { trail.new.variables ≡ trail.old.variables }
    ensures fault { IfOk result
        (λ fault. fault ≡ hint_fault (B.clauses base.now) trail.old.trues 1 hints.now) }
    ensures marked { All (λ id. IfSome (B.clauses base.now id) (StandsWithin trail.old.variables))
        hints.now → IsOk result }
{
    for (i, hint) in hints.iter().enumerate() {
        match propagate(trail, status_of(base, *hint, trail))? {
            Progress::Going => {}
            Progress::Refuted => {
                return Ok(if i + 1 < hints.len() {
                    Some(i + 1)
                } else {
                    None
                });
            }
            Progress::Faulty => return Ok(Some(i + 1)),
        }
    }
    Ok(Some(hints.len() + 1))
}
