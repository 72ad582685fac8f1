//! The clause of a line.

ghost use Rattle.std.specs.Prelude.{◌≡◌, ◌≤◌, ◌<◌, ◌^◌, nat_abs, List, [], Err};
ghost use Rattle.dq_lits.specs.Literal.{Literal, dimacs_literal};
ghost use Rattle.dq_text.specs.Number.{number_of};
ghost use Rattle.script_text.specs.Reading.{checked_literal, clause_word, behind_zero, at_zero, clause_from};
ghost use Rattle.script_text.specs.Steps.{IsEnd, IsMade};

use crate::faults::{LineStop, ScriptFault};
use dq_formula::Formula;
use dq_lits::Lit;
use dq_text::{LineTokens, Number, read_number};
use dqdimacs_reader::DistinctLiterals;

// A number of a clause: a literal, or the 0 that ends it.
fn checked_literal(f: &Formula, number: i64) -> Result<Option<Lit>, ScriptFault>
    ensures { result ≡ checked_literal f.now number }
{
    let variable = number.unsigned_abs();
    if variable == 0 {
        Ok(None)
    } else if variable > f.vars() {
        Err(ScriptFault::VarRange)
    } else if f.is_declared(variable) {
        Ok(Some(literal(number)))
    } else {
        Err(ScriptFault::Undeclared)
    }
}

// The literal that DIMACS writes as a number.
fn literal(number: i64) -> Lit
    requires some { 1 ≤ nat_abs number }
    requires in_range { nat_abs number < 2 ^ 62 }
    ensures { result ≡ dimacs_literal number }
{
    if number < 0 {
        Lit::neg(number.unsigned_abs())
    } else {
        Lit::pos(number.unsigned_abs())
    }
}

fn clause_word(f: &Formula, token: &[u8]) -> Result<Option<Lit>, ScriptFault>
    ensures { result ≡ clause_word f.now (number_of token.now) }
{
    match read_number(token) {
        Number::NotANumber => Err(ScriptFault::BadNumber),
        Number::TooBig => Err(ScriptFault::TooBig),
        Number::Int(number) => checked_literal(f, number),
    }
}

// Why words behind the 0 are refused.
fn fault_behind_zero(f: &Formula, tokens: &mut LineTokens) -> ScriptFault
    ensures { behind_zero f.now tokens.old ≡ Err result }
{
    while let Some(token) = tokens.next() {
        if let Err(name) = clause_word(f, token) {
            return name;
        }
    }
    ScriptFault::MissingZero
}

// What stands behind the 0 of a clause: nothing.
fn check_end(f: &Formula, tokens: &mut LineTokens) -> Result<(), ScriptFault>
    ensures { (literals : List Literal)
        → IsEnd literals (at_zero f.now literals tokens.old) result }
{
    let Some(token) = tokens.next() else {
        return Ok(());
    };
    clause_word(f, token)?;
    Err(fault_behind_zero(f, tokens))
}

/// Puts the distinct literals of a line's clause in place of those that are held.
pub(crate) fn take_clause(
    f: &Formula,
    tokens: &mut LineTokens,
    literals: &mut DistinctLiterals,
) -> Result<(), LineStop>
    ensures { IsMade (clause_from f.now [] tokens.old) result literals.new }
{
    literals.clear();
    while let Some(token) = tokens.next() {
        match clause_word(f, token) {
            Err(name) => return Err(LineStop::Fault(name)),
            Ok(Some(literal)) => literals.add(literal)?,
            Ok(None) => return end_clause(f, tokens),
        }
    }
    Err(LineStop::Fault(ScriptFault::MissingZero))
}

fn end_clause(f: &Formula, tokens: &mut LineTokens) -> Result<(), LineStop>
    ensures { (literals : List Literal) → IsMade (at_zero f.now literals tokens.old) result literals }
{
    match check_end(f, tokens) {
        Ok(()) => Ok(()),
        Err(name) => Err(LineStop::Fault(name)),
    }
}
