//! The whole preparation: units are taken until none is left or a clause is empty.
//!
//! What is left is defined by the units taken, places and literals, in any order, until none is
//! left or a clause is empty. Reduction by steps comes to one reduction at the end, since a clause
//! only loses existentials. A trace is the list of these units; what changed follows from it clause
//! by clause. A clause that holds a literal twice is no unit by it.

ghost use Rattle.std.specs.Prelude.{◌≡◌, ◌+◌, true, length, map, IfOk, OnOk};
ghost use Rattle.std.specs.Bool.{OnTrue, OnFalse};
ghost use Rattle.dq_lits.specs.Formula.{IsWellFormed};
ghost use Rattle.dq_lits.specs.Derivation.{is_tautology};
ghost use Rattle.dq_prep.specs.Units.{AreUnits};
ghost use Rattle.dq_prep.specs.Simplified.{simplified_formula, IsExhausted};
ghost use Rattle.dq_prep.specs.Takings.{IsTaking};

use crate::kept_clauses::simplified;
use crate::takings::{Found, Taking};
use crate::tautologies::tautologies;
use crate::traces::Trace;
use crate::waiting::Waiting;
use dq_formula::Formula;
use dq_lits::Memory;
use std::alloc::Global;

/// Takes units of a formula until no clause is a unit or one is empty, each after universal
/// reduction, and gives what is left of the formula, and the units. It takes time linear in the
/// formula, but for the reduction of clauses with many universals and many listed existentials.
pub fn prep(alloc: Global, f: &Formula) -> Result<(Formula, Trace), Memory>
    requires { IsWellFormed f.now }
    ensures units { IfOk result (λ r. AreUnits f.now r.1) }
    ensures exhausted { IfOk result (λ r. IsExhausted f.now r.1) }
    ensures left { IfOk result (λ r. r.0 ≡ simplified_formula f.now r.1) }
{
    let tautologies = tautologies(alloc, f)?;
    let taking = take_units(alloc, f, &tautologies)?;
    let g = simplified(alloc, &taking)?;
    Ok((g, taking.trace))
}

fn take_units<'f>(
    alloc: Global,
    f: &'f Formula,
    tautologies: &'f [bool],
) -> Result<Taking<'f>, Memory>
    requires well { IsWellFormed f.now }
    requires tautologies { tautologies.now ≡ map is_tautology f.now.matrix }
    ensures right { IfOk result IsTaking }
    ensures formula { IfOk result (λ t. t.formula.now ≡ f.now) }
    ensures exhausted { IfOk result (λ t. IsExhausted f.now t.trace) }
{
    let mut taking = Taking::new(alloc, f, tautologies)?;
    let mut waiting = Waiting::of(alloc, f)?;
    take_all(&mut taking, &mut waiting)?;
    Ok(taking)
}

// Takes units until none is left or a clause is empty.
fn take_all(taking: &mut Taking, waiting: &mut Waiting) -> Result<(), Memory>
    requires right { IsTaking taking.old }
    ensures right { OnOk result (IsTaking taking.new) }
    ensures formula { taking.new.formula.now ≡ taking.old.formula.now }
    ensures exhausted { OnOk result (IsExhausted taking.old.formula.now taking.new.trace) }
{
    if take_waiting(taking, waiting)? {
        return Ok(());
    }
    // Each clause that became a unit has waited, so that one pass over all follows, which finds no
    // unit. The pass needs no promise of those that waited.
    while take_next(taking)? {}
    Ok(())
}

// Takes the units among the clauses that wait, and says whether it came to one that is empty.
fn take_waiting(taking: &mut Taking, waiting: &mut Waiting) -> Result<bool, Memory>
    requires right { IsTaking taking.old }
    ensures right { OnOk result (IsTaking taking.new) }
    ensures formula { taking.new.formula.now ≡ taking.old.formula.now }
    ensures exhausted { IfOk result (λ emptied. OnTrue emptied
        (IsExhausted taking.old.formula.now taking.new.trace)) }
{
    for _ in 0..u64::MAX {
        let Some(place) = waiting.pop() else {
            return Ok(false);
        };
        if try_waiting(taking, waiting, place)? {
            return Ok(true);
        }
    }
    Ok(false)
}

// Takes a clause that waited, where it is a unit, and says whether it is empty.
fn try_waiting(taking: &mut Taking, waiting: &mut Waiting, place: usize) -> Result<bool, Memory>
    requires right { IsTaking taking.old }
    ensures right { OnOk result (IsTaking taking.new) }
    ensures formula { taking.new.formula.now ≡ taking.old.formula.now }
    ensures exhausted { IfOk result (λ emptied. OnTrue emptied
        (IsExhausted taking.old.formula.now taking.new.trace)) }
{
    if place >= taking.formula.clauses() {
        return Ok(false);
    }
    match taking.try_take(place)? {
        Found::NoUnit => Ok(false),
        Found::Took(l) => {
            waiting.note_false(taking.formula, l.not())?;
            Ok(false)
        }
        Found::Emptied => Ok(true),
    }
}

// Takes the first clause that is a unit, before any that is empty, and says whether there was one.
fn take_next(taking: &mut Taking) -> Result<bool, Memory>
    requires right { IsTaking taking.old }
    ensures right { OnOk result (IsTaking taking.new) }
    ensures formula { taking.new.formula.now ≡ taking.old.formula.now }
    ensures took { IfOk result (λ took. OnTrue took
        (length taking.new.trace ≡ length taking.old.trace + 1)) }
    ensures exhausted { IfOk result (λ took. OnFalse took
        (IsExhausted taking.old.formula.now taking.new.trace)) }
{
    for place in 0..taking.formula.clauses() {
        match taking.try_take(place)? {
            Found::NoUnit => {}
            Found::Took(_) => return Ok(true),
            Found::Emptied => return Ok(false),
        }
    }
    Ok(false)
}
