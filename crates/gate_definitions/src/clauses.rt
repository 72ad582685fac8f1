//! What single clauses say.

ghost use Rattle.std.specs.Prelude.{◌≡◌, ◌||◌, true, not, map, filter, IfOk, IfSome};
ghost use Rattle.std.specs.List.{list_any, list_all};
ghost use Rattle.dq_lits.specs.Literal.{opposite, same_literal};
ghost use Rattle.gate_definitions.specs.Stating.{IsImplied, Implies};

use dq_formula::Formula;
use dq_lits::{Lit, Memory};
use std::alloc::Global;

/// A clause of the matrix, where there is one of that number.
pub(crate) fn clause_at(f: &Formula, number: u32) -> Option<&[Lit]>
    ensures { IfSome result (λ clause. IsImplied f.now clause.now) }
{
    let j = number as usize;
    if j < f.clauses() {
        Some(f.clause(j))
    } else {
        None
    }
}

/// Whether a clause says that a literal is true where these are.
pub(crate) fn implies(f: &Formula, number: u32, cube: &[Lit], l: Lit) -> bool
    ensures { result ≡ true → Implies f.now cube.now l }
{
    match clause_at(f, number) {
        Some(clause) => is_within(clause, cube, l),
        None => false,
    }
}

// Whether the clause has no other literals than this one and the negations of those.
fn is_within(clause: &[Lit], cube: &[Lit], l: Lit) -> bool
    ensures { result
        ≡ list_all (λ k. same_literal k l || list_any (λ c. same_literal c (opposite k)) cube.now)
        clause.now }
{
    clause.iter().all(|k| *k == l || cube.contains(&k.not()))
}

/// The negations of a clause's other literals.
pub(crate) fn premises(alloc: Global, clause: &[Lit], l: Lit) -> Result<Vec<Lit>, Memory>
    ensures { IfOk result
        (λ cube. cube.items ≡ map opposite (filter (λ k. not (same_literal k l)) clause.now)) }
{
    let mut cube = Vec::new(alloc);
    for k in clause {
        if *k != l {
            cube.push(k.not())?;
        }
    }
    Ok(cube)
}
