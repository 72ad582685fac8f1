//! Rules that a clause states by itself.

ghost use Rattle.std.specs.Prelude.{◌≡◌, ◌<◌, [], length, All, IfOk, IfSome, IsSome, IsTrue, Some, slice_index_or};
ghost use Rattle.dq_lits.specs.Formula.{Existential, existential_of};
ghost use Rattle.dq_formula.specs.Rules.{IsRule};
ghost use Rattle.known_functions.specs.Stating.{FitsRule, rest_literal, rest_cube};

use dq_formula::{Formula, Rule};
use dq_lits::{Clause, Lit, Memory};
use std::alloc::Global;

// The rule that a clause states of an existential's bit: all its other literals are on universals
// that the existential sees, and where these are false, it has the bit.
pub(crate) fn stated_rule(
    alloc: Global,
    f: &Formula,
    y: u64,
    bit: bool,
    number: usize,
) -> Result<Option<Rule>, Memory>
    requires existential { IsSome (existential_of f.now y) }
    requires number { number < length f.now.matrix }
    ensures { IfOk result (λ found. IfSome found (IsRule f.now)) }
{
    let clause = f.clause(number);
    if !are_fitting(f, y, bit, clause) {
        return Ok(None);
    }
    let cube = cube_of_rest(alloc, y, clause)?;
    Ok(Some(Rule { y, cube, bit }))
}

fn are_fitting(f: &Formula, y: u64, bit: bool, clause: &[Lit]) -> bool
    requires { IsSome (existential_of f.now y) }
    ensures { (e : Existential) → existential_of f.now y ≡ Some e
        → IsTrue result → All (FitsRule y e bit) clause.now }
{
    for l in clause {
        if !is_fitting(f, y, bit, *l) {
            return false;
        }
    }
    true
}

fn is_fitting(f: &Formula, y: u64, bit: bool, l: Lit) -> bool
    requires { IsSome (existential_of f.now y) }
    ensures { (e : Existential) → existential_of f.now y ≡ Some e
        → IsTrue result → FitsRule y e bit l }
{
    if l.var() == y {
        l.is_neg() != bit
    } else {
        f.sees(y, l.var())
    }
}

fn cube_of_rest(alloc: Global, y: u64, clause: &[Lit]) -> Result<Clause, Memory>
    ensures { IfOk result (λ cube. cube ≡ rest_cube y clause.now) }
{
    let mut lits = Vec::new(alloc);
    for l in clause {
        if let Some(literal) = literal_of_rest(y, *l) {
            lits.push(literal)?;
        }
    }
    Ok(Clause::from_vec(lits))
}

fn literal_of_rest(y: u64, l: Lit) -> Option<Lit>
    ensures { result ≡ rest_literal y l }
{
    if l.var() == y { None } else { Some(l.not()) }
}
