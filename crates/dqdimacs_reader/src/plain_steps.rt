//! The usual steps at a number: those inside clauses and items, where nothing is at fault.
//!
//! What they take, the checks and the machine's steps would take the same way; whatever isn't plain
//! is left to these.

ghost use Rattle.std.specs.Prelude.{◌≡◌, true, false, [], IfOk};
ghost use Rattle.dqdimacs_reader.specs.Machine.{check_literal, check_clause};
ghost use Rattle.dqdimacs_reader.specs.MachineState.{reading_of, IsReaderState, GoesOn, TakesLiteral};
ghost use Rattle.dqdimacs_reader.specs.declared.lexemes.Lexeme.TheVariants.{Natural};

use crate::checks::{dependency_fault, dependent_fault, literal_fault, part_fault};
use crate::lexemes::Lexeme;
use crate::machine::{Machine, Stage};
use crate::steps::{begin_dependencies, begin_literals, take_dependency, take_literal};
use dq_lits::Memory;

/// Takes a token where that is plain: whether it did. If not, nothing has changed.
#[inline(always)]
pub fn take_plain(machine: &mut Machine, lexeme: Lexeme) -> Result<bool, Memory>
    requires ready { IsReaderState machine.old }
    ensures taken { IfOk result
        (λ taken. taken ≡ true → GoesOn machine.old lexeme machine.new) }
    ensures left { IfOk result (λ taken. taken ≡ false → machine.new ≡ machine.old) }
{
    match (machine.stage, lexeme) {
        (Stage::Clause, Lexeme::Natural(v)) => take_in_clause(machine, v, false),
        (Stage::Clause, Lexeme::Negative(v)) => take_in_clause(machine, v, true),
        (Stage::PrefixPart, Lexeme::Natural(v)) => begin_clause(machine, v, false),
        (Stage::PrefixPart, Lexeme::Negative(v)) => begin_clause(machine, v, true),
        (Stage::Dependent, Lexeme::Natural(y)) => begin_item(machine, y),
        (Stage::Dependencies, Lexeme::Natural(x)) => take_in_item(machine, x),
        _ => Ok(false),
    }
}

// A literal of a clause by its variable, or the clause's end.
#[inline(always)]
fn take_in_clause(machine: &mut Machine, v: u64, negative: bool) -> Result<bool, Memory>
    requires stage { machine.old.stage ≡ Stage.Clause }
    requires ready { IsReaderState machine.old }
    ensures taken { IfOk result
        (λ taken. taken ≡ true → TakesLiteral machine.old
        (check_literal (reading_of machine.old) v) machine.old.literals v negative machine.new) }
    ensures left { IfOk result (λ taken. taken ≡ false → machine.new ≡ machine.old) }
{
    match literal_fault(&machine.formula, Lexeme::Natural(v)) {
        Some(_) => Ok(false),
        None => {
            take_literal(machine, v, negative)?;
            Ok(true)
        }
    }
}

// The first literal of a clause by its variable, or the zero of an empty one.
#[inline(always)]
fn begin_clause(machine: &mut Machine, v: u64, negative: bool) -> Result<bool, Memory>
    requires stage { machine.old.stage ≡ Stage.PrefixPart }
    requires ready { IsReaderState machine.old }
    ensures taken { IfOk result
        (λ taken. taken ≡ true → TakesLiteral machine.old
        (check_clause (reading_of machine.old) v) [] v negative machine.new) }
    ensures left { IfOk result (λ taken. taken ≡ false → machine.new ≡ machine.old) }
{
    let lexeme = Lexeme::Natural(v);
    match part_fault(
        &machine.formula,
        machine.constraints,
        machine.clauses,
        lexeme,
    ) {
        Some(_) => Ok(false),
        None => {
            begin_literals(machine, Stage::Clause);
            take_literal(machine, v, negative)?;
            Ok(true)
        }
    }
}

// The variable of an item.
#[inline(always)]
fn begin_item(machine: &mut Machine, y: u64) -> Result<bool, Memory>
    requires stage { machine.old.stage ≡ Stage.Dependent }
    requires ready { IsReaderState machine.old }
    ensures taken { IfOk result
        (λ taken. taken ≡ true → GoesOn machine.old (Natural y) machine.new) }
    ensures left { IfOk result (λ taken. taken ≡ false → machine.new ≡ machine.old) }
{
    match dependent_fault(&machine.formula, Lexeme::Natural(y)) {
        Some(_) => Ok(false),
        None => {
            begin_dependencies(machine, y);
            Ok(true)
        }
    }
}

// A dependency of an item, or its end.
#[inline(always)]
fn take_in_item(machine: &mut Machine, x: u64) -> Result<bool, Memory>
    requires stage { machine.old.stage ≡ Stage.Dependencies }
    requires ready { IsReaderState machine.old }
    ensures taken { IfOk result
        (λ taken. taken ≡ true → GoesOn machine.old (Natural x) machine.new) }
    ensures left { IfOk result (λ taken. taken ≡ false → machine.new ≡ machine.old) }
{
    match dependency_fault(&machine.formula, Lexeme::Natural(x)) {
        Some(_) => Ok(false),
        None => {
            take_dependency(machine, x)?;
            Ok(true)
        }
    }
}
