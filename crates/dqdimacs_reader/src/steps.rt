//! The machine's steps: what a token that passes its checks does.

ghost use Rattle.std.specs.Prelude.{◌≡◌, ◌≢◌, ◌≤◌, ◌<◌, ◌+◌, ◌++◌, ◌∷◌, [], None, OnOk, length, if◌then◌else◌, ◌==◌};
ghost use Rattle.dqdimacs_reader.specs.Machine.{check, advance, check_declared, check_dependency, check_literal, check_xor_end, check_xor_literal, at_start, in_clause, in_xor, literal_or_end, xor_literal_or_end};
ghost use Rattle.dqdimacs_reader.specs.MachineState.{state_of, reading_of, literal_on, IsReaderState};

use crate::lexemes::Lexeme;
use crate::machine::{Machine, Stage};
use dq_formula::Formula;
use dq_lits::{Lit, Memory};

/// Goes on behind a token that passes its checks.
pub fn step(machine: &mut Machine, lexeme: Lexeme) -> Result<(), Memory>
    requires ready { IsReaderState machine.old }
    requires passed { check (state_of machine.old) lexeme ≡ None }
    ensures state { OnOk result (state_of machine.new ≡ advance (state_of machine.old) lexeme) }
    ensures ready { OnOk result (IsReaderState machine.new) }
{
    match (machine.stage, lexeme) {
        (Stage::Header, _) => {
            machine.stage = Stage::Format;
            Ok(())
        }
        (Stage::Format, _) => {
            machine.stage = Stage::Variables;
            Ok(())
        }
        (Stage::Variables, Lexeme::Natural(n)) => {
            machine.formula = Formula::new(machine.alloc, n);
            machine.stage = Stage::Clauses;
            Ok(())
        }
        (Stage::Clauses, Lexeme::Natural(n)) => {
            machine.clauses = n;
            machine.constraints = 0;
            machine.stage = Stage::PrefixPart;
            Ok(())
        }
        (Stage::PrefixPart, lexeme) => begin_part(machine, lexeme),
        (Stage::Universals, Lexeme::Natural(v)) => declare_universal(machine, v),
        (Stage::Existentials, Lexeme::Natural(v)) => declare_existential(machine, v),
        (Stage::Dependent, Lexeme::Natural(y)) => {
            begin_dependencies(machine, y);
            Ok(())
        }
        (Stage::Dependencies, Lexeme::Natural(x)) => take_dependency(machine, x),
        (Stage::Clause, Lexeme::Natural(v)) => take_literal(machine, v, false),
        (Stage::Clause, Lexeme::Negative(v)) => take_literal(machine, v, true),
        (Stage::Xor, Lexeme::Natural(v)) => take_xor_literal(machine, v, false),
        (Stage::Xor, Lexeme::Negative(v)) => take_xor_literal(machine, v, true),
        _ => unreachable!(),
    }
}

// At the start of a set, an item, a clause or an XOR line.
fn begin_part(machine: &mut Machine, lexeme: Lexeme) -> Result<(), Memory>
    requires stage { machine.old.stage ≡ Stage.PrefixPart }
    requires ready { IsReaderState machine.old }
    requires passed { check (state_of machine.old) lexeme ≡ None }
    ensures state { OnOk result (state_of machine.new ≡ at_start (reading_of machine.old) lexeme) }
    ensures ready { OnOk result (IsReaderState machine.new) }
{
    match lexeme {
        Lexeme::A => machine.stage = Stage::Universals,
        Lexeme::D => machine.stage = Stage::Dependent,
        Lexeme::E => machine.stage = Stage::Existentials,
        Lexeme::X => begin_literals(machine, Stage::Xor),
        Lexeme::Natural(v) => {
            begin_literals(machine, Stage::Clause);
            return take_literal(machine, v, false);
        }
        Lexeme::Negative(v) => {
            begin_literals(machine, Stage::Clause);
            return take_literal(machine, v, true);
        }
        _ => unreachable!(),
    }
    Ok(())
}

/// A clause or an XOR line begins, where the header's number has one more.
#[inline(always)]
pub fn begin_literals(machine: &mut Machine, stage: Stage)
    requires due { machine.old.constraints < machine.old.clauses }
    ensures reading { reading_of machine.new ≡ reading_of machine.old }
    ensures stage { machine.new.stage ≡ stage }
    ensures literals { machine.new.literals ≡ [] }
{
    machine.literals.clear();
    machine.stage = stage;
}

// A variable of a universal set, or its end.
fn declare_universal(machine: &mut Machine, v: u64) -> Result<(), Memory>
    requires stage { machine.old.stage ≡ Stage.Universals }
    requires ready { IsReaderState machine.old }
    requires passed { check_declared (reading_of machine.old) v ≡ None }
    ensures state { OnOk result
        (state_of machine.new ≡ advance (state_of machine.old) (Lexeme.Natural v)) }
    ensures ready { OnOk result (IsReaderState machine.new) }
{
    if v == 0 {
        machine.stage = Stage::PrefixPart;
        return Ok(());
    }
    machine.formula.add_universal(v)
}

// A variable of an existential set, or its end.
fn declare_existential(machine: &mut Machine, v: u64) -> Result<(), Memory>
    requires stage { machine.old.stage ≡ Stage.Existentials }
    requires ready { IsReaderState machine.old }
    requires passed { check_declared (reading_of machine.old) v ≡ None }
    ensures state { OnOk result
        (state_of machine.new ≡ advance (state_of machine.old) (Lexeme.Natural v)) }
    ensures ready { OnOk result (IsReaderState machine.new) }
{
    if v == 0 {
        machine.stage = Stage::PrefixPart;
        return Ok(());
    }
    machine.formula.add_first(v)
}

/// The variable of an item.
#[inline(always)]
pub fn begin_dependencies(machine: &mut Machine, y: u64)
    requires stage { machine.old.stage ≡ Stage.Dependent }
    requires ready { IsReaderState machine.old }
    requires passed { check (state_of machine.old) (Lexeme.Natural y) ≡ None }
    ensures state { state_of machine.new ≡ advance (state_of machine.old) (Lexeme.Natural y) }
    ensures ready { IsReaderState machine.new }
{
    machine.dependent = y;
    machine.dependencies.clear();
    machine.stage = Stage::Dependencies;
}

/// A dependency of an item, or its end.
pub fn take_dependency(machine: &mut Machine, x: u64) -> Result<(), Memory>
    requires stage { machine.old.stage ≡ Stage.Dependencies }
    requires ready { IsReaderState machine.old }
    requires passed { check_dependency (reading_of machine.old) x ≡ None }
    ensures state { OnOk result
        (state_of machine.new ≡ advance (state_of machine.old) (Lexeme.Natural x)) }
    ensures ready { OnOk result (IsReaderState machine.new) }
{
    if x == 0 {
        machine
            .formula
            .add_listed(machine.dependent, &machine.dependencies)?;
        machine.stage = Stage::PrefixPart;
        return Ok(());
    }
    machine.dependencies.push(x)?;
    Ok(())
}

/// A literal of a clause by its variable, or the clause's end.
#[inline(always)]
pub fn take_literal(machine: &mut Machine, v: u64, negative: bool) -> Result<(), Memory>
    requires stage { machine.old.stage ≡ Stage.Clause }
    requires ready { IsReaderState machine.old }
    requires passed { check_literal (reading_of machine.old) v ≡ None }
    ensures state { OnOk result
        (state_of machine.new
        ≡ literal_or_end (reading_of machine.old) machine.old.literals v
        (literal_on negative v)) }
    ensures ready { OnOk result (IsReaderState machine.new) }
{
    if v == 0 {
        machine.formula.add_clause(machine.literals.items())?;
        machine.constraints += 1;
        machine.stage = Stage::PrefixPart;
        return Ok(());
    }
    let literal = literal_of(&machine.formula, v, negative);
    machine.literals.add(literal)
}

// A literal of an XOR line by its variable, or the line's end.
fn take_xor_literal(machine: &mut Machine, v: u64, negative: bool) -> Result<(), Memory>
    requires stage { machine.old.stage ≡ Stage.Xor }
    requires ready { IsReaderState machine.old }
    requires passed { (if v == 0 then check_xor_end (reading_of machine.old) machine.old.literals
        else check_xor_literal (reading_of machine.old) machine.old.literals v) ≡ None }
    ensures state { OnOk result
        (state_of machine.new
        ≡ xor_literal_or_end (reading_of machine.old) machine.old.literals v
        (literal_on negative v)) }
    ensures ready { OnOk result (IsReaderState machine.new) }
{
    if v == 0 {
        machine.formula.add_xor(machine.literals.items())?;
        machine.constraints += 1;
        machine.stage = Stage::PrefixPart;
        return Ok(());
    }
    let literal = literal_of(&machine.formula, v, negative);
    machine.literals.add(literal)
}

// The literal on a variable, of which there are few enough for literals.
fn literal_of(formula: &Formula, v: u64, negative: bool) -> Lit
    requires from_one { 1 ≤ v }
    requires in_range { v ≤ formula.now.variables }
    ensures { result ≡ literal_on negative v }
{
    formula.every_formula_is_lawful();
    if negative { Lit::neg(v) } else { Lit::pos(v) }
}
