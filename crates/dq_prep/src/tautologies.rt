//! Which clauses hold a literal beside its negation.
//!
//! They are found once, before any unit is taken: pair by pair in short clauses, by a set of
//! numbers in long ones.

ghost use Rattle.std.specs.Prelude.{◌≡◌, ◌==◌, ℕ, [], map, IfOk, OnOk};
ghost use Rattle.std.specs.List.{list_any};
ghost use Rattle.number_tables.specs.Numbers.{has_number};
ghost use Rattle.dq_lits.specs.Derivation.{is_tautology, holds};
ghost use Rattle.dq_prep.specs.Codes.{literal_code};

use dq_formula::Formula;
use dq_lits::{Lit, Memory};
use number_tables::NumberSet;
use std::alloc::Global;

// A clause of so many literals is looked through for each of them.
const FEW: usize = 16;

/// For each clause, whether it holds a literal beside its negation.
pub(crate) fn tautologies(alloc: Global, f: &Formula) -> Result<Vec<bool>, Memory>
    ensures { IfOk result (λ found. found.items ≡ map is_tautology f.now.matrix) }
{
    let mut found = Vec::new(alloc);
    for j in 0..f.clauses() {
        found.push(is_tautology(alloc, f.clause(j))?)?;
    }
    Ok(found)
}

fn is_tautology(alloc: Global, clause: &[Lit]) -> Result<bool, Memory>
    ensures { IfOk result (λ found. found ≡ is_tautology clause.now) }
{
    if clause.len() <= FEW {
        return Ok(is_tautology_of_few(clause));
    }
    let mut codes = NumberSet::new(alloc);
    insert_codes(&mut codes, clause)?;
    Ok(has_opposite(&codes, clause))
}

// In time quadratic in the number of literals.
fn is_tautology_of_few(clause: &[Lit]) -> bool
    ensures { result ≡ is_tautology clause.now }
{
    clause.iter().any(|l| has(clause, l.not()))
}

fn has(clause: &[Lit], l: Lit) -> bool
    ensures { result ≡ holds clause.now l }
{
    clause.iter().any(|k| l == *k)
}

// A number for each literal.
fn code(l: Lit) -> u64
    ensures { result ≡ literal_code l }
{
    2 * l.var() + u64::from(l.is_neg())
}

fn insert_codes(codes: &mut NumberSet, clause: &[Lit]) -> Result<(), Memory>
    requires { codes.old ≡ [] }
    ensures { OnOk result ((n : ℕ) → has_number codes.new n
        ≡ list_any (λ l. literal_code l == n) clause.now) }
{
    for l in clause {
        codes.insert(code(*l))?;
    }
    Ok(())
}

// Whether the negation of a literal is among those with these codes.
fn has_opposite(codes: &NumberSet, clause: &[Lit]) -> bool
    requires { (n : ℕ) → has_number codes.now n ≡ list_any (λ l. literal_code l == n) clause.now }
    ensures { result ≡ is_tautology clause.now }
{
    clause.iter().any(|l| codes.contains(code(l.not())))
}
