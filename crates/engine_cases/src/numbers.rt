//! Literals and groups by numbers: variable n is the nth one that was made, and a literal is its
//! variable's number or the negative of it, as in DIMACS.

ghost use Rattle.std.specs.Prelude.{◌≡◌, IfOk, IfSome, IsSome};
ghost use Rattle.std.specs.List.{All};
ghost use Rattle.dq_lits.specs.Derivation.{is_tautology, holds};
ghost use Rattle.hint_log.specs.Entries.{name_of};
ghost use Rattle.oracle.specs.Calls.{IsMade, IsPlain};
ghost use Rattle.engine_cases.specs.Making.{AreMade};

use crate::calls::Made;
use anyhow::{Result, anyhow};
use dq_lits::Lit;
use hint_log::{Log, Name};
use oracle::Group;
use std::alloc::Global;

const FIRST_TOO_LARGE: u64 = 1 << 62;

// The variable of a number.
fn variable_at(log: &Log, made: &Made, number: u64) -> Option<u64>
    requires { AreMade made.now log.now.entries }
    ensures { IfSome result (λ v. IsSome (name_of log.now.entries v)) }
{
    // Only the contract speaks of it.
    let _ = log;
    let number = number as usize;
    if number == 0 || number > made.variables.len() {
        None
    } else {
        Some(made.variables[number - 1])
    }
}

// The literal of a number, on a variable that is no selector.
fn plain_lit(log: &Log, made: &Made, number: i64) -> Option<Lit>
    requires { AreMade made.now log.now.entries }
    ensures { IfSome result (IsPlain log.now.entries) }
{
    let var = variable_at(log, made, number.unsigned_abs())?;
    if var == 0 || var >= FIRST_TOO_LARGE {
        return None;
    }
    let lit = if number < 0 {
        Lit::neg(var)
    } else {
        Lit::pos(var)
    };
    match log.name(var) {
        Name::Selector { .. } => None,
        _ => Some(lit),
    }
}

/// The literals of these numbers.
pub fn plain_lits(alloc: Global, log: &Log, made: &Made, numbers: &[i64]) -> Result<Vec<Lit>>
    requires { AreMade made.now log.now.entries }
    ensures { IfOk result (λ lits. All (IsPlain log.now.entries) lits.items) }
{
    let mut lits = Vec::new(alloc);
    for number in numbers {
        match plain_lit(log, made, *number) {
            Some(lit) => lits.push(lit)?,
            None => return Err(anyhow!("no variable")),
        }
    }
    Ok(lits)
}

/// The group whose selector has this number.
pub fn group_at(log: &Log, made: &Made, number: u64) -> Option<Group>
    requires { AreMade made.now log.now.entries }
    ensures { IfSome result (IsMade log.now.entries) }
{
    let selector = variable_at(log, made, number)?;
    if selector == 0 || selector >= FIRST_TOO_LARGE {
        return None;
    }
    match log.name(selector) {
        Name::Selector { group } if group == selector => Some(Group {
            selector: Lit::pos(selector),
        }),
        _ => None,
    }
}

/// The groups whose selectors have these numbers.
pub fn groups_at(alloc: Global, log: &Log, made: &Made, numbers: &[i64]) -> Result<Vec<Group>>
    requires { AreMade made.now log.now.entries }
    ensures { IfOk result (λ groups. All (IsMade log.now.entries) groups.items) }
{
    let mut groups = Vec::new(alloc);
    for number in numbers {
        match group_at(log, made, number.unsigned_abs()) {
            Some(group) => groups.push(group)?,
            None => return Err(anyhow!("no group")),
        }
    }
    Ok(groups)
}

/// The numbers of literals; 0 for a variable that wasn't made here.
pub fn numbers_of(alloc: Global, made: &Made, lits: &[Lit]) -> Result<Vec<i64>> {
    let mut numbers = Vec::new(alloc);
    for l in lits {
        let number = number_of(made, l.var());
        numbers.push(if l.is_neg() {
            number.wrapping_neg()
        } else {
            number
        })?;
    }
    Ok(numbers)
}

// Mostly the variable itself.
fn number_of(made: &Made, variable: u64) -> i64 {
    match made.variables.get((variable as usize).wrapping_sub(1)) {
        Some(other) if *other == variable => variable as i64,
        _ => sought(made, variable),
    }
}

fn sought(made: &Made, variable: u64) -> i64 {
    let mut number = 0i64;
    for other in &made.variables {
        number = number.saturating_add(1);
        if *other == variable {
            return number;
        }
    }
    0
}

/// Whether a literal stands beside its negation.
pub fn excludes_itself(lits: &[Lit]) -> bool
    ensures { result ≡ is_tautology lits.now }
{
    lits.iter().any(|l| holds(lits, l.not()))
}

fn holds(lits: &[Lit], l: Lit) -> bool
    ensures { result ≡ holds lits.now l }
{
    lits.iter().any(|k| l == *k)
}
