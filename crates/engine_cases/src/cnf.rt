//! A formula in DIMACS: values under which it is true, or a refutation.

ghost use Rattle.std.specs.Prelude.{◌≡◌, ◌<◌, [], IfOk, length};
ghost use Rattle.engine_cases.specs.Making.{AreMade};

use crate::calls::{Made, Outcome, make_group, make_var, no_variables};
use crate::judging::Line;
use crate::solver_cases::{Given, Question, add_given, found_by};
use anyhow::Result;
use cdcl_core::Cdcl;
use dq_formula::Formula;
use dqdimacs_reader::read;
use hint_log::Log;
use oracle::Oracle;
use std::alloc::Global;

// The first variable is the selector of the only group.
const GROUP: i64 = 1;

/// The answer for a formula's text, where so many clauses may be learned. All its clauses stand in
/// one group.
pub fn answer(alloc: Global, text: &[u8], limit: u64) -> Result<String> {
    let formula = read(alloc, text)?;
    answer_formula(alloc, &formula, limit)
}

fn answer_formula(alloc: Global, formula: &Formula, limit: u64) -> Result<String> {
    let mut oracle = Cdcl::new(alloc);
    let mut log = Log::new(alloc, limit);
    answer_by(alloc, &mut oracle, &mut log, formula)
}

fn answer_by<O: Oracle>(
    alloc: Global,
    oracle: &mut O,
    log: &mut Log,
    formula: &Formula,
) -> Result<String>
    requires fit { O.Fits oracle.old log.old }
    requires empty { log.old.entries ≡ [] }
{
    let found = found_for(alloc, oracle, log, formula)?;
    written(alloc, &found, log.steps())
}

fn found_for<O: Oracle>(
    alloc: Global,
    oracle: &mut O,
    log: &mut Log,
    formula: &Formula,
) -> Result<Outcome>
    requires fit { O.Fits oracle.old log.old }
    requires empty { log.old.entries ≡ [] }
{
    let mut made = no_variables(alloc);
    make_variables(oracle, log, &mut made, formula.vars())?;
    add_clauses(alloc, oracle, log, &made, formula)?;
    let mut groups = Vec::new(alloc);
    groups.push(GROUP)?;
    let assumed = Vec::new(alloc);
    found_by(alloc, oracle, log, &made, &Question { groups, assumed })
}

// A group, and so many variables.
fn make_variables<O: Oracle>(
    oracle: &mut O,
    log: &mut Log,
    made: &mut Made,
    count: u64,
) -> Result<()>
    requires ready { O.Fits oracle.old log.old × AreMade made.old log.old.entries }
    ensures ready { IfOk result
        (λ u. O.Fits oracle.new log.new × AreMade made.new log.new.entries) }
{
    let tenant = oracle.tenant()?;
    make_group(oracle, log, made, &tenant)?;
    for _ in 0..count {
        make_var(oracle, log, made)?;
    }
    Ok(())
}

fn add_clauses<O: Oracle>(
    alloc: Global,
    oracle: &mut O,
    log: &mut Log,
    made: &Made,
    formula: &Formula,
) -> Result<()>
    requires ready { O.Fits oracle.old log.old × AreMade made.now log.old.entries }
    ensures ready { IfOk result
        (λ u. O.Fits oracle.new log.new × AreMade made.now log.new.entries) }
{
    for j in 0..formula.clauses() {
        let literals = shifted(alloc, formula, j)?;
        let given = Given {
            group: GROUP,
            literals,
        };
        add_given(alloc, oracle, log, made, &given)?;
    }
    Ok(())
}

// A clause, where variable 1 is the group's selector.
fn shifted(alloc: Global, formula: &Formula, j: usize) -> Result<Vec<i64>>
    requires { j < length formula.now.matrix }
{
    let mut numbers = Vec::new(alloc);
    for l in formula.clause(j) {
        let var = l.var() as i64 + 1;
        numbers.push(if l.is_neg() { -var } else { var })?;
    }
    Ok(numbers)
}

fn written(alloc: Global, found: &Outcome, steps: u64) -> Result<String> {
    let shown = shown(alloc, found)?;
    Ok(format!(in alloc; "{shown}\nc {steps} learned")?)
}

fn shown(alloc: Global, found: &Outcome) -> Result<String> {
    match found {
        Outcome::Values(values) => shown_values(alloc, values),
        Outcome::Refuted(lines) => shown_lines(alloc, lines),
        Outcome::Limit => Ok(String::from_str(alloc, "s UNKNOWN")?),
    }
}

fn shown_values(alloc: Global, values: &[bool]) -> Result<String> {
    let mut text = String::from_str(alloc, "s SATISFIABLE\nv")?;
    let mut var = 0u64;
    for value in values {
        if var > 0 {
            text.push_str(if *value { " " } else { " -" })?;
            text.push_str(&format!(in alloc; "{var}")?)?;
        }
        var = var.saturating_add(1);
    }
    text.push_str(" 0")?;
    Ok(text)
}

// Lines of a refutation, without the selector.
fn shown_lines(alloc: Global, lines: &[Line]) -> Result<String> {
    let mut text = String::from_str(alloc, "s UNSATISFIABLE")?;
    for line in lines {
        if !line.is_given {
            text.push_str(&shown_line(alloc, line)?)?;
        }
    }
    Ok(text)
}

fn shown_line(alloc: Global, line: &Line) -> Result<String> {
    let id = line.id;
    let mut text = format!(in alloc; "\n{id}")?;
    for number in &line.literals {
        if let Some(unshifted) = unshifted(*number) {
            text.push_str(&format!(in alloc; " {unshifted}")?)?;
        }
    }
    text.push_str(" 0")?;
    for hint in &line.hints {
        text.push_str(&format!(in alloc; " {hint}")?)?;
    }
    text.push_str(" 0")?;
    Ok(text)
}

// A literal of the formula; none for the selector.
fn unshifted(number: i64) -> Option<i64> {
    match number {
        -1..=1 => None,
        2.. => Some(number - 1),
        _ => Some(number + 1),
    }
}
