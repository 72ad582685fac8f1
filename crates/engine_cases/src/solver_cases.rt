//! The commands of a table.
//!
//! `tenant` goes on with another tenant. `group` and `var` take the next variable, the first one is
//! 1, and a group is named by its selector's. `add GROUP LITERAL..` adds a clause. `solve NAME |
//! GROUP.. | LITERAL..` searches under these groups and assumptions, and prints `Sat`, where the
//! values make the clauses of these groups and the assumptions true, or `Unsat` with the answer's
//! clause, or `Limit`. `often COUNT NAME | GROUP.. | LITERAL..` searches so often, and prints what the
//! last search gave. `steps NAME` prints how many clauses were learned, and `derived NAME GROUP`
//! whether all that was learned and answered is derived by its hints. Lines that begin with `#` are
//! comments.

ghost use Rattle.std.specs.Prelude.{[], IfOk};
ghost use Rattle.engine_cases.specs.Making.{AreMade};

use crate::calls::{
    Made, Outcome, add_clause, make_group, make_var, no_variables, outcome_of, seal, search,
};
use crate::numbers::{excludes_itself, group_at, groups_at, plain_lits};
use anyhow::{Result, anyhow};
use hint_log::Log;
use oracle::{Oracle, Tenant};
use std::alloc::Global;

/// A clause of a group.
#[derive(Drop)]
pub struct Given {
    pub group: i64,
    pub literals: Vec<i64>,
}

/// The groups and assumptions that a search is under.
#[derive(Drop)]
pub struct Question {
    pub groups: Vec<i64>,
    pub assumed: Vec<i64>,
}

/// What the commands of a case have made so far.
#[derive(Drop)]
pub struct Case {
    pub made: Made,
    tenant: Tenant,
    given: Vec<Given>,
}

/// Nothing.
pub fn empty_case(alloc: Global) -> Case
    ensures { AreMade result.made [] }
{
    Case {
        made: no_variables(alloc),
        tenant: Tenant,
        given: Vec::new(alloc),
    }
}

/// Takes a command, and gives what is to be printed.
pub fn take_line<O: Oracle>(
    alloc: Global,
    oracle: &mut O,
    log: &mut Log,
    case: &mut Case,
    line: &str,
) -> Result<Option<String>>
    requires ready { O.Fits oracle.old log.old × AreMade case.old.made log.old.entries }
    ensures ready { IfOk result
        (λ p. O.Fits oracle.new log.new × AreMade case.new.made log.new.entries) }
{
    let (word, rest) = line.split_once(' ').unwrap_or((line, ""));
    match word {
        "" | "#" => Ok(None),
        "tenant" => go_on(oracle, log, case),
        "group" => group(oracle, log, case),
        "var" => var(oracle, log, case),
        "add" => add(alloc, oracle, log, case, rest),
        "solve" => solve(alloc, oracle, log, case, rest),
        "often" => often(alloc, oracle, log, case, rest),
        "steps" => steps(alloc, log, rest),
        "derived" => derived(alloc, oracle, log, case, rest),
        _ => Err(anyhow!("no command: {line}")),
    }
}

fn go_on<O: Oracle>(oracle: &mut O, log: &Log, case: &mut Case) -> Result<Option<String>>
    requires ready { O.Fits oracle.old log.now × AreMade case.old.made log.now.entries }
    ensures ready { IfOk result
        (λ p. O.Fits oracle.new log.now × AreMade case.new.made log.now.entries) }
{
    // Only the contract speaks of it.
    let _ = log;
    case.tenant = oracle.tenant()?;
    Ok(None)
}

fn group<O: Oracle>(oracle: &mut O, log: &mut Log, case: &mut Case) -> Result<Option<String>>
    requires ready { O.Fits oracle.old log.old × AreMade case.old.made log.old.entries }
    ensures ready { IfOk result
        (λ p. O.Fits oracle.new log.new × AreMade case.new.made log.new.entries) }
{
    make_group(oracle, log, &mut case.made, &case.tenant)?;
    Ok(None)
}

fn var<O: Oracle>(oracle: &mut O, log: &mut Log, case: &mut Case) -> Result<Option<String>>
    requires ready { O.Fits oracle.old log.old × AreMade case.old.made log.old.entries }
    ensures ready { IfOk result
        (λ p. O.Fits oracle.new log.new × AreMade case.new.made log.new.entries) }
{
    make_var(oracle, log, &mut case.made)?;
    Ok(None)
}

fn add<O: Oracle>(
    alloc: Global,
    oracle: &mut O,
    log: &mut Log,
    case: &mut Case,
    rest: &str,
) -> Result<Option<String>>
    requires ready { O.Fits oracle.old log.old × AreMade case.old.made log.old.entries }
    ensures ready { IfOk result
        (λ p. O.Fits oracle.new log.new × AreMade case.new.made log.new.entries) }
{
    let (group, literals) = rest.split_once(' ').unwrap_or((rest, ""));
    let group: i64 = group.parse()?;
    let literals = numbers_of(alloc, literals)?;
    let given = Given { group, literals };
    add_given(alloc, oracle, log, &case.made, &given)?;
    case.given.push(given)?;
    Ok(None)
}

/// Adds a clause of a group.
pub fn add_given<O: Oracle>(
    alloc: Global,
    oracle: &mut O,
    log: &mut Log,
    made: &Made,
    given: &Given,
) -> Result<()>
    requires ready { O.Fits oracle.old log.old × AreMade made.now log.old.entries }
    ensures ready { IfOk result
        (λ u. O.Fits oracle.new log.new × AreMade made.now log.new.entries) }
{
    let Some(group) = group_at(log, made, given.group.unsigned_abs()) else {
        return Err(anyhow!("no group"));
    };
    let lits = plain_lits(alloc, log, made, &given.literals)?;
    add_clause(oracle, log, made, &group, &lits)?;
    Ok(())
}

fn solve<O: Oracle>(
    alloc: Global,
    oracle: &mut O,
    log: &mut Log,
    case: &Case,
    rest: &str,
) -> Result<Option<String>>
    requires ready { O.Fits oracle.old log.old × AreMade case.now.made log.old.entries }
    ensures ready { IfOk result
        (λ p. O.Fits oracle.new log.new × AreMade case.now.made log.new.entries) }
{
    let (name, rest) = rest.split_once(" |").unwrap_or((rest, ""));
    let (groups, assumed) = rest.split_once('|').unwrap_or((rest, ""));
    let question = Question {
        groups: numbers_of(alloc, groups)?,
        assumed: numbers_of(alloc, assumed)?,
    };
    let found = found_by(alloc, oracle, log, &case.made, &question)?;
    let shown = shown(alloc, &case.given, &question, &found)?;
    Ok(Some(format!(in alloc; "{name}: {shown}")?))
}

fn often<O: Oracle>(
    alloc: Global,
    oracle: &mut O,
    log: &mut Log,
    case: &Case,
    rest: &str,
) -> Result<Option<String>>
    requires ready { O.Fits oracle.old log.old × AreMade case.now.made log.old.entries }
    ensures ready { IfOk result
        (λ p. O.Fits oracle.new log.new × AreMade case.now.made log.new.entries) }
{
    let (count, rest) = rest.split_once(' ').unwrap_or((rest, ""));
    let count: u64 = count.parse()?;
    for _ in 1..count {
        solve(alloc, oracle, log, case, rest)?;
    }
    solve(alloc, oracle, log, case, rest)
}

/// Searches under these groups and assumptions.
pub fn found_by<O: Oracle>(
    alloc: Global,
    oracle: &mut O,
    log: &mut Log,
    made: &Made,
    question: &Question,
) -> Result<Outcome>
    requires ready { O.Fits oracle.old log.old × AreMade made.now log.old.entries }
    ensures ready { IfOk result
        (λ f. O.Fits oracle.new log.new × AreMade made.now log.new.entries) }
{
    let active = groups_at(alloc, log, made, &question.groups)?;
    let assume = plain_lits(alloc, log, made, &question.assumed)?;
    if excludes_itself(&assume) {
        return Err(anyhow!("assumptions exclude one another"));
    }
    let answer = search(oracle, log, made, &active, &assume);
    outcome_of(alloc, oracle, log, made, answer)
}

fn steps(alloc: Global, log: &Log, name: &str) -> Result<Option<String>> {
    let steps = log.steps();
    Ok(Some(format!(in alloc; "{name}: {steps}")?))
}

fn derived<O: Oracle>(
    alloc: Global,
    oracle: &mut O,
    log: &mut Log,
    case: &Case,
    rest: &str,
) -> Result<Option<String>>
    requires ready { O.Fits oracle.old log.old × AreMade case.now.made log.old.entries }
    ensures ready { IfOk result
        (λ p. O.Fits oracle.new log.new × AreMade case.now.made log.new.entries) }
{
    let (name, group) = rest.rsplit_once(' ').unwrap_or((rest, ""));
    let group: u64 = group.parse()?;
    let Some(group) = group_at(log, &case.made, group) else {
        return Err(anyhow!("no group"));
    };
    let derived = seal(alloc, oracle, log, &case.made, &group)?;
    Ok(Some(format!(in alloc; "{name}: {derived}")?))
}

fn numbers_of(alloc: Global, text: &str) -> Result<Vec<i64>> {
    let mut numbers = Vec::new(alloc);
    for word in text.split_whitespace() {
        numbers.push(word.parse()?)?;
    }
    Ok(numbers)
}

fn shown(alloc: Global, given: &[Given], question: &Question, found: &Outcome) -> Result<String> {
    match found {
        Outcome::Values(values) => shown_values(alloc, given, question, values),
        Outcome::Refuted(lines) => match lines.last() {
            Some(answer) => shown_clause(alloc, &answer.literals),
            None => Ok(String::from_str(alloc, "Unsat without an answer")?),
        },
        Outcome::Limit => Ok(String::from_str(alloc, "Limit")?),
    }
}

fn shown_values(
    alloc: Global,
    given: &[Given],
    question: &Question,
    values: &[bool],
) -> Result<String> {
    let groups = &question.groups;
    let met = given.iter().all(|g| is_met(g, groups, values));
    let text = if met && are_all_true(&question.assumed, values) && are_all_true(groups, values) {
        "Sat"
    } else {
        "Sat with wrong values"
    };
    Ok(String::from_str(alloc, text)?)
}

// Whether a clause is of another group, or has a true literal.
fn is_met(given: &Given, groups: &[i64], values: &[bool]) -> bool {
    !groups.contains(&given.group) || is_any_true(&given.literals, values)
}

fn is_any_true(literals: &[i64], values: &[bool]) -> bool {
    literals.iter().any(|l| is_true(*l, values))
}

fn are_all_true(literals: &[i64], values: &[bool]) -> bool {
    literals.iter().all(|l| is_true(*l, values))
}

fn is_true(literal: i64, values: &[bool]) -> bool {
    let place = literal.unsigned_abs().wrapping_sub(1) as usize;
    match values.get(place) {
        Some(value) => *value == (literal > 0),
        None => false,
    }
}

// The literals of an answer, ascending.
fn shown_clause(alloc: Global, literals: &[i64]) -> Result<String> {
    let mut sorted = literals.to_vec(alloc)?;
    sorted.sort_unstable();
    let mut text = String::from_str(alloc, "Unsat")?;
    for literal in &sorted {
        text.push_str(&format!(in alloc; " {literal}")?)?;
    }
    Ok(text)
}
