//! Gates with one output that is true where all inputs are: a long clause, and for each of its
//! other literals a short one.

ghost use Rattle.std.specs.Prelude.{◌≡◌, ◌∷◌, [], true, IfOk, IfSome, Some, All};
ghost use Rattle.dq_lits.specs.Formula.{Existential, existential_of};
ghost use Rattle.gate_definitions.specs.Stating.{Implies, IsConjunction};

use crate::clauses::{clause_at, implies, premises};
use crate::literals::{all_readable, key};
use crate::outputs::Output;
use dq_formula::Formula;
use dq_lits::{Lit, Memory};
use std::alloc::Global;
use std::collections::BTreeMap;

// The clauses of two literals that have the negation of some literal, each by its other literal.
// Whoever uses such a clause reads it, so that no contract speaks of what is in the map.
pub(crate) type Consequences = BTreeMap<(u64, bool), u32>;

/// Literals that are all true where `l` is, and nowhere else, by the clauses on an output.
pub(crate) fn find_conjunction(
    alloc: Global,
    output: &Output,
    l: Lit,
) -> Result<Option<Vec<Lit>>, Memory>
    ensures { (e : Existential) → existential_of output.now.f.now output.now.y ≡ Some e
        → IfOk result (λ found. IfSome found (λ cube.
        IsConjunction output.now.f.now output.now.ranks.now e l cube.items)) }
{
    let shorts = consequences(alloc, output, l)?;
    first_conjunction(alloc, output, l, &shorts)
}

// The same, by the first clause that serves as the long one.
fn first_conjunction(
    alloc: Global,
    output: &Output,
    l: Lit,
    shorts: &Consequences,
) -> Result<Option<Vec<Lit>>, Memory>
    ensures { (e : Existential) → existential_of output.now.f.now output.now.y ≡ Some e
        → IfOk result (λ found. IfSome found (λ cube.
        IsConjunction output.now.f.now output.now.ranks.now e l cube.items)) }
{
    for number in output.numbers {
        let found = conjunction_at(alloc, output, *number, l, shorts)?;
        if found.is_some() {
            return Ok(found);
        }
    }
    Ok(None)
}

// The same, by one clause as the long one, if it serves.
fn conjunction_at(
    alloc: Global,
    output: &Output,
    number: u32,
    l: Lit,
    shorts: &Consequences,
) -> Result<Option<Vec<Lit>>, Memory>
    ensures { (e : Existential) → existential_of output.now.f.now output.now.y ≡ Some e
        → IfOk result (λ found. IfSome found (λ cube.
        IsConjunction output.now.f.now output.now.ranks.now e l cube.items)) }
{
    let f = output.f;
    let Some(clause) = clause_at(f, number) else {
        return Ok(None);
    };
    if !has_shorts(clause, l, shorts) {
        return Ok(None);
    }
    let cube = premises(alloc, clause, l)?;
    if all_follow(f, &cube, l, shorts) && all_readable(output, &cube) {
        Ok(Some(cube))
    } else {
        Ok(None)
    }
}

pub(crate) fn consequences(alloc: Global, output: &Output, l: Lit) -> Result<Consequences, Memory> {
    let mut shorts = BTreeMap::new(alloc);
    for number in output.numbers {
        if let Some(other) = beside(output.f, *number, l.not()) {
            shorts.insert(key(other), *number)?;
        }
    }
    Ok(shorts)
}

// The other literal of a clause of two.
fn beside(f: &Formula, number: u32, l: Lit) -> Option<Lit> {
    let clause = clause_at(f, number)?;
    if clause.len() != 2 {
        return None;
    }
    if clause[0] == l {
        Some(clause[1])
    } else if clause[1] == l {
        Some(clause[0])
    } else {
        None
    }
}

// Whether there is a short clause for each other literal; a clause that is longer than that isn't
// read through.
pub(crate) fn has_shorts(clause: &[Lit], l: Lit, shorts: &Consequences) -> bool {
    clause.len() <= shorts.len() + 1
        && clause
            .iter()
            .all(|k| *k == l || shorts.contains_key(&key(k.not())))
}

// Whether each of these literals is true where `l` is.
fn all_follow(f: &Formula, cube: &[Lit], l: Lit, shorts: &Consequences) -> bool
    ensures { result ≡ true → All (Implies f.now (l ∷ [])) cube.now }
{
    for k in cube {
        if !follows(f, *k, l, shorts) {
            return false;
        }
    }
    true
}

fn follows(f: &Formula, k: Lit, l: Lit, shorts: &Consequences) -> bool
    ensures { result ≡ true → Implies f.now (l ∷ []) k }
{
    match shorts.get(&key(k)) {
        Some(number) => implies(f, *number, &[l], k),
        None => false,
    }
}
