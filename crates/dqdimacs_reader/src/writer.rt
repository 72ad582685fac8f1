//! Writing a formula.
//!
//! A dependency set with as many universals as the prefix has all of them.

ghost use Rattle.std.specs.Prelude.{◌≡◌, ◌++◌, Some, IfOk, OnOk, IsSome};
ghost use Rattle.std.specs.List.{flat_map};
ghost use Rattle.dq_lits.specs.Formula.{Existential, existential_of};
ghost use Rattle.dqdimacs_reader.specs.Canonical.{canonical, literal_text, header_text, numbers_line, existential_line, universals_text, existential_text, clause_text};

use dq_formula::{Deps, Formula};
use dq_lits::{Lit, Memory};
use dq_text::{push_all_spaced, push_last, push_number, push_spaced, push_word};
use std::alloc::Global;

/// The canonical text of a formula: the header; a line `a` with all universals, where there are
/// any; for each existential in order `e y 0` where it sees every universal, and else `d y x.. 0`;
/// a line for each clause.
pub fn write(alloc: Global, f: &Formula) -> Result<Vec<u8>, Memory>
    ensures { IfOk result (λ text. text.items ≡ canonical f.now) }
{
    let mut text = Vec::new(alloc);
    write_header(f, &mut text)?;
    write_universals(f.universals(), &mut text)?;
    write_existentials(f, &mut text)?;
    write_clauses(f, &mut text)?;
    Ok(text)
}

fn write_header(f: &Formula, text: &mut Vec<u8>) -> Result<(), Memory>
    ensures { OnOk result (text.new.items ≡ text.old.items ++ header_text f.now) }
{
    push_word(text, b"p cnf ")?;
    push_spaced(text, f.vars())?;
    push_last(text, f.clauses() as u64)
}

// A letter, numbers and `0`.
fn write_line(letter: u8, numbers: &[u64], text: &mut Vec<u8>) -> Result<(), Memory>
    ensures { OnOk result (text.new.items ≡ text.old.items ++ numbers_line letter numbers.now) }
{
    push_word(text, &[letter, b' '])?;
    push_all_spaced(text, numbers)?;
    push_word(text, b"0\n")?;
    Ok(())
}

fn write_universals(universals: &[u64], text: &mut Vec<u8>) -> Result<(), Memory>
    ensures { OnOk result (text.new.items ≡ text.old.items ++ universals_text universals.now) }
{
    if universals.is_empty() {
        return Ok(());
    }
    write_line(b'a', universals, text)
}

// The line of an existential that sees these of so many universals.
fn write_dependency(
    y: u64,
    seen: &[u64],
    universals: usize,
    text: &mut Vec<u8>,
) -> Result<(), Memory>
    ensures { OnOk result
        (text.new.items ≡ text.old.items ++ existential_line universals y seen.now) }
{
    if seen.len() == universals {
        return write_line(b'e', &[y], text);
    }
    push_word(text, b"d ")?;
    push_spaced(text, y)?;
    push_all_spaced(text, seen)?;
    push_word(text, b"0\n")?;
    Ok(())
}

fn write_existential(f: &Formula, y: u64, text: &mut Vec<u8>) -> Result<(), Memory>
    requires { IsSome (existential_of f.now y) }
    ensures { (e : Existential) → existential_of f.now y ≡ Some e → e.variable ≡ y
        → OnOk result (text.new.items ≡ text.old.items ++ existential_text f.now.universals e) }
{
    let universals = f.universals();
    let seen = match f.deps_of(y) {
        Deps::FirstOf(n) => &universals[..*n],
        Deps::Listed(variables) => variables.items(),
    };
    write_dependency(y, seen, universals.len(), text)
}

fn write_existentials(f: &Formula, text: &mut Vec<u8>) -> Result<(), Memory>
    ensures { OnOk result
        (text.new.items
        ≡ text.old.items ++ flat_map (existential_text f.now.universals) f.now.existentials) }
{
    f.every_formula_is_lawful();
    let existentials = f.existentials();
    for i in 0..existentials.len() {
        write_existential(f, existentials[i], text)?;
    }
    Ok(())
}

// A literal and a space.
fn write_literal(literal: Lit, text: &mut Vec<u8>) -> Result<(), Memory>
    ensures { OnOk result (text.new.items ≡ text.old.items ++ literal_text literal) }
{
    let variable = literal.var() as i64;
    push_number(
        text,
        if literal.is_neg() {
            -variable
        } else {
            variable
        },
    )?;
    text.push(b' ')?;
    Ok(())
}

fn write_clause(literals: &[Lit], text: &mut Vec<u8>) -> Result<(), Memory>
    ensures { OnOk result (text.new.items ≡ text.old.items ++ clause_text literals.now) }
{
    let mut rest = literals;
    while let Some((first, behind)) = rest.split_first() {
        write_literal(*first, text)?;
        rest = behind;
    }
    push_word(text, b"0\n")?;
    Ok(())
}

fn write_clauses(f: &Formula, text: &mut Vec<u8>) -> Result<(), Memory>
    ensures { OnOk result (text.new.items ≡ text.old.items ++ flat_map clause_text f.now.matrix) }
{
    for j in 0..f.clauses() {
        write_clause(f.clause(j), text)?;
    }
    Ok(())
}
