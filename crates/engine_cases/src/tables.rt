//! The commands of a table.
//!
//! `formula TEXT` says which formula is meant from there on: DQDIMACS, with `/` for an end of a
//! line. Each further command begins with an empty log and a new solver, and prints which names and
//! given clauses the log has at first and after each step. `turns NAME : OUTPUTS ; OUTPUTS ..` lets
//! the circuits' checker judge outputs, until some hold, and prints what each turn told. `rows NAME
//! : ROW ; ROW ..` adds rows to the expansion, until they are refuted, and prints for each row of a
//! model whether the clauses hold there and the candidates have its bits; `points` does the same,
//! and prints the bits, and the candidates' values under all rows; `trees` prints how many leaves
//! each existential's tree has, and whether it has the points' bits at all rows. `decide NAME : LIMIT` runs the
//! loop in so many steps, and prints `true`, `false` or `limit`; `rounds` prints how many rounds it
//! took, too. `refute` does the same, exports the refutation, and prints what the checker says of
//! its text; `certificate` prints that text, too. `define NAME : Y Y ..` asks for definitions of
//! existentials, and prints the definition's values under all rows of the universals and the
//! existentials, or that there is none. `guess NAME : LIMIT Y LITERAL .. ; LIMIT Y LITERAL ..` sets
//! the log's limit to so many steps, asks for a definition of an existential where literals are
//! true, and prints it as `define` does, or that two samples were found that show that there is
//! none, or that the limit was reached. `force NAME : Y BIT ROW` asks whether an existential is
//! forced to have a bit at a row, and prints the rule, or a row with values of the existentials at
//! which it has the other bit. `gates NAME : Y Y ..` looks for gates that the clauses state, and
//! prints their values as `define` does. `values NAME : OUTPUTS` prints the outputs' values under
//! all rows, and which universals they read. Lines that begin with `#` are comments.

ghost use Rattle.dq_lits.specs.Formula.{IsWellFormed};

use crate::reports::Detail;
use crate::runs::Aim;
use crate::{circuits, definitions, expansions, expressions, forcing, gates, guesses, runs};
use anyhow::{Result, anyhow};
use dq_formula::Formula;
use dqdimacs_reader::read;
use std::alloc::Global;

/// Takes a command, and gives what is to be printed.
pub fn take_line(alloc: Global, formula: &mut String, line: &str) -> Result<Option<String>> {
    let (word, rest) = line.split_once(' ').unwrap_or((line, ""));
    match word {
        "" | "#" => Ok(None),
        "formula" => set_formula(formula, rest),
        "turns" => run(alloc, formula, rest, Kind::Turns),
        "rows" => run(alloc, formula, rest, Kind::Rows(Detail::Checks)),
        "points" => run(alloc, formula, rest, Kind::Rows(Detail::Bits)),
        "trees" => run(alloc, formula, rest, Kind::Rows(Detail::Leaves)),
        "decide" => run(
            alloc,
            formula,
            rest,
            Kind::Run(Aim::Verdict(Detail::Checks)),
        ),
        "rounds" => run(alloc, formula, rest, Kind::Run(Aim::Verdict(Detail::Bits))),
        "refute" => run(
            alloc,
            formula,
            rest,
            Kind::Run(Aim::Refutation(Detail::Checks)),
        ),
        "certificate" => run(
            alloc,
            formula,
            rest,
            Kind::Run(Aim::Refutation(Detail::Bits)),
        ),
        "define" => run(alloc, formula, rest, Kind::Definitions),
        "guess" => run(alloc, formula, rest, Kind::Guesses),
        "force" => run(alloc, formula, rest, Kind::Forcing),
        "gates" => run(alloc, formula, rest, Kind::Gates),
        "values" => run(alloc, formula, rest, Kind::Values),
        _ => Err(anyhow!("no command: {line}")),
    }
}

/// Which engine is run.
#[derive(Clone, Copy)]
enum Kind {
    Turns,
    Rows(Detail),
    Run(Aim),
    Definitions,
    Guesses,
    Forcing,
    Gates,
    Values,
}

fn set_formula(formula: &mut String, rest: &str) -> Result<Option<String>> {
    formula.clear();
    for line in rest.split('/') {
        formula.push_str(line)?;
        formula.push('\n')?;
    }
    Ok(None)
}

fn run(alloc: Global, formula: &str, rest: &str, kind: Kind) -> Result<Option<String>> {
    let (name, steps) = rest.split_once(" : ").unwrap_or((rest, ""));
    let formula = read(alloc, formula.as_bytes())?;
    run_named(alloc, &formula, name, steps, kind)
}

// What a run prints, behind its name.
fn run_named(
    alloc: Global,
    f: &Formula,
    name: &str,
    steps: &str,
    kind: Kind,
) -> Result<Option<String>>
    requires formula { IsWellFormed f.now }
{
    let mut printed = String::from_str(alloc, name)?;
    run_engine(alloc, f, steps, kind, &mut printed)?;
    Ok(Some(printed))
}

fn run_engine(
    alloc: Global,
    f: &Formula,
    steps: &str,
    kind: Kind,
    printed: &mut String,
) -> Result<()>
    requires formula { IsWellFormed f.now }
{
    match kind {
        Kind::Turns => circuits::run(alloc, f, steps, printed),
        Kind::Rows(detail) => expansions::run(alloc, f, steps, detail, printed),
        Kind::Run(aim) => runs::run(alloc, f, steps, aim, printed),
        Kind::Definitions => definitions::run(alloc, f, steps, printed),
        Kind::Guesses => guesses::run(alloc, f, steps, printed),
        Kind::Forcing => forcing::run(alloc, f, steps, printed),
        Kind::Gates => gates::run(alloc, f, steps, printed),
        Kind::Values => expressions::run(alloc, f, steps, printed),
    }
}
