//! Conditions that may be asked under: literals on declared variables that contradict none of one
//! another.

ghost use Rattle.std.specs.Prelude.{◌≡◌, ◌≤◌, ◌<◌, ◌^◌, length, IfOk, IsSome, OnOk};
ghost use Rattle.dq_lits.specs.Derivation.{holds};
ghost use Rattle.dq_lits.specs.Formula.{IsWellFormed, existential_of};
ghost use Rattle.dq_lits.specs.Literal.{opposite, same_literal, variable_of};
ghost use Rattle.known_functions.specs.Guessing.{AreConditions};

use dq_formula::Formula;
use dq_lits::{Lit, Memory, Row};
use std::alloc::Global;

// Those of some literals on declared variables, but for one, that contradict none before them.
pub(crate) fn lawful_conditions(
    alloc: Global,
    f: &Formula,
    y: u64,
    some: &[Lit],
) -> Result<Vec<Lit>, Memory>
    ensures { IfOk result (λ lits. AreConditions f.now y lits.items) }
{
    let mut lawful = Vec::new(alloc);
    for l in some {
        put_lawful(&mut lawful, f, y, *l)?;
    }
    Ok(lawful)
}

fn put_lawful(lawful: &mut Vec<Lit>, f: &Formula, y: u64, l: Lit) -> Result<(), Memory>
    requires { AreConditions f.now y lawful.old.items }
    ensures { OnOk result (AreConditions f.now y lawful.new.items) }
{
    if !f.is_declared(l.var()) {
        return Ok(());
    }
    if l.var() == y {
        return Ok(());
    }
    if contradicts(lawful, l) {
        return Ok(());
    }
    lawful.push(l)?;
    Ok(())
}

// Whether the negation of a literal is there.
fn contradicts(lits: &[Lit], l: Lit) -> bool
    ensures { result ≡ holds lits.now (opposite l) }
{
    lits.iter().any(|k| is_negation(*k, l))
}

fn is_negation(k: Lit, l: Lit) -> bool
    ensures { result ≡ same_literal (opposite l) k }
{
    l.not() == k
}

// The literals that say that the universals have a row's bits.
pub(crate) fn row_conditions(
    alloc: Global,
    f: &Formula,
    y: u64,
    row: &Row,
) -> Result<Vec<Lit>, Memory>
    requires existential { IsSome (existential_of f.now y) }
    requires whole { length row.now ≡ length f.now.universals }
    ensures { IfOk result (λ lits. AreConditions f.now y lits.items) }
{
    f.every_formula_is_lawful();
    let mut lits = Vec::new(alloc);
    for place in 0..row.len() {
        let x = f.universals()[place];
        lits.push(literal(x, row.get(place)))?;
    }
    Ok(lits)
}

fn literal(v: u64, bit: bool) -> Lit
    requires from_one { 1 ≤ v }
    requires in_range { v < 2 ^ 62 }
    ensures { variable_of result ≡ v }
{
    if bit { Lit::pos(v) } else { Lit::neg(v) }
}
