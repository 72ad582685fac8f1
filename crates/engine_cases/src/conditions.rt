//! Questions for definitions under conditions, as a table states them.

ghost use Rattle.std.specs.Prelude.{◌≡◌, ◌≢◌, false, All, Contains, IfOk, IsSome};
ghost use Rattle.dq_lits.specs.Derivation.{is_tautology, holds};
ghost use Rattle.dq_lits.specs.Formula.{declared, existential_of};
ghost use Rattle.dq_lits.specs.Literal.{variable_of};
ghost use Rattle.engine_cases.specs.Guessing.{IsPosed};

use anyhow::{Result, anyhow};
use dq_formula::Formula;
use dq_lits::Lit;
use std::alloc::Global;

/// Whether an existential has a definition where conditions are true, asked of a log with a limit.
#[derive(Drop)]
pub struct Question {
    pub limit: u64,
    pub y: Lit,
    pub conditions: Vec<Lit>,
}

/// A question: `LIMIT Y LITERAL ..`.
pub fn question_of(alloc: Global, f: &Formula, text: &str) -> Result<Question>
    ensures { IfOk result (IsPosed f.now) }
{
    let (limit, rest) = split(text);
    let (y, conditions) = split(rest);
    let limit: u64 = limit.parse()?;
    let y = stated_existential(f, y)?;
    let conditions = conditions_of(alloc, f, y, conditions)?;
    Ok(Question {
        limit,
        y,
        conditions,
    })
}

// The first word, and what is behind it.
fn split(text: &str) -> (&str, &str) {
    let text = text.trim();
    text.split_once(' ').unwrap_or((text, ""))
}

fn stated_existential(f: &Formula, word: &str) -> Result<Lit>
    ensures { IfOk result (λ y. IsSome (existential_of f.now (variable_of y))) }
{
    let y = literal_of(word)?;
    if y.is_neg() {
        return Err(anyhow!("a negated variable: {word}"));
    }
    if !f.is_existential(y.var()) {
        return Err(anyhow!("no existential: {word}"));
    }
    Ok(y)
}

fn conditions_of(alloc: Global, f: &Formula, y: Lit, text: &str) -> Result<Vec<Lit>>
    ensures declared { IfOk result
        (λ lits. All (λ l. Contains (declared f.now) (variable_of l)) lits.items) }
    ensures others { IfOk result (λ lits. All (λ l. variable_of l ≢ variable_of y) lits.items) }
    ensures consistent { IfOk result (λ lits. is_tautology lits.items ≡ false) }
{
    let lits = conditions_on(alloc, f, y, text)?;
    if excludes_itself(&lits) {
        return Err(anyhow!("conditions that exclude one another: {text}"));
    }
    Ok(lits)
}

fn conditions_on(alloc: Global, f: &Formula, y: Lit, text: &str) -> Result<Vec<Lit>>
    ensures declared { IfOk result
        (λ lits. All (λ l. Contains (declared f.now) (variable_of l)) lits.items) }
    ensures others { IfOk result (λ lits. All (λ l. variable_of l ≢ variable_of y) lits.items) }
{
    let mut lits = Vec::new(alloc);
    for word in text.split_whitespace() {
        let l = condition_of(f, y, word)?;
        lits.push(l)?;
    }
    Ok(lits)
}

fn condition_of(f: &Formula, y: Lit, word: &str) -> Result<Lit>
    ensures declared { IfOk result (λ l. Contains (declared f.now) (variable_of l)) }
    ensures other { IfOk result (λ l. variable_of l ≢ variable_of y) }
{
    let l = literal_of(word)?;
    if !f.is_declared(l.var()) {
        return Err(anyhow!("no variable: {word}"));
    }
    if l.var() == y.var() {
        return Err(anyhow!("the existential itself: {word}"));
    }
    Ok(l)
}

fn literal_of(word: &str) -> Result<Lit> {
    let number: i64 = word.parse()?;
    let variable = number.unsigned_abs();
    if variable == 0 {
        return Err(anyhow!("no variable: {word}"));
    }
    if variable >= 1 << 62 {
        return Err(anyhow!("no variable: {word}"));
    }
    match number < 0 {
        true => Ok(Lit::neg(variable)),
        false => Ok(Lit::pos(variable)),
    }
}

// Whether a literal stands beside its negation.
fn excludes_itself(lits: &[Lit]) -> bool
    ensures { result ≡ is_tautology lits.now }
{
    lits.iter().any(|l| holds(lits, l.not()))
}

fn holds(lits: &[Lit], l: Lit) -> bool
    ensures { result ≡ holds lits.now l }
{
    lits.iter().any(|k| l == *k)
}
