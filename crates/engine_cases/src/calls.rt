//! The solver's calls, with which variables were made.

ghost use Rattle.std.specs.Prelude.{◌≡◌, ◌≤◌, ◌++◌, ◌∷◌, ℕ, [], true, false, IfOk, OnOk, OnErr, Ok, IsSome};
ghost use Rattle.std.specs.List.{All};
ghost use Rattle.dq_lits.specs.Derivation.{is_tautology};
ghost use Rattle.hint_log.specs.Conditions.{IsId};
ghost use Rattle.hint_log.specs.Entries.{last_id, name_of};
ghost use Rattle.oracle.specs.Calls.{IsMade, IsPlain};
ghost use Rattle.engine_cases.specs.Making.{AreMade};

use crate::judging::{Line, are_derived, lines_of};
use anyhow::{Result, anyhow};
use dq_lits::{Lit, Memory};
use hint_log::{Log, Name, Origin, Stop};
use oracle::{Answer, Group, Oracle, Tenant};
use std::alloc::Global;

/// The variables that a solver made, in order, and a bound of their numbers.
#[derive(Drop)]
pub struct Made {
    pub variables: Vec<u64>,
    pub largest: u64,
}

/// No variables.
pub fn no_variables(alloc: Global) -> Made
    ensures { AreMade result [] }
{
    Made {
        variables: Vec::new(alloc),
        largest: 0,
    }
}

fn note(made: &mut Made, variable: u64) -> Result<(), Memory>
    ensures listed { OnOk result
        (made.new.variables.items ≡ made.old.variables.items ++ variable ∷ []) }
    ensures within { OnOk result (variable ≤ made.new.largest) }
    ensures more { OnOk result (made.old.largest ≤ made.new.largest) }
{
    made.variables.push(variable)?;
    if variable > made.largest {
        made.largest = variable;
    }
    Ok(())
}

/// A group, whose selector is the next variable. Here and below a call that was refused memory is made
/// once again.
pub fn make_group<O: Oracle>(
    oracle: &mut O,
    log: &mut Log,
    made: &mut Made,
    who: &Tenant,
) -> Result<(), Memory>
    requires fit { O.Fits oracle.old log.old }
    requires made { AreMade made.old log.old.entries }
    ensures fit { O.Fits oracle.new log.new }
    ensures made { OnOk result (AreMade made.new log.new.entries) }
{
    let group = match oracle.group(who, log) {
        Ok(group) => group,
        Err(Memory) => oracle.group(who, log)?,
    };
    note(made, group.selector().var())?;
    Ok(())
}

/// The next variable. As an input it has a number that no earlier one has.
pub fn make_var<O: Oracle>(oracle: &mut O, log: &mut Log, made: &mut Made) -> Result<(), Memory>
    requires fit { O.Fits oracle.old log.old }
    requires made { AreMade made.old log.old.entries }
    ensures fit { O.Fits oracle.new log.new }
    ensures made { OnOk result (AreMade made.new log.new.entries) }
{
    let universal = made.variables.len() as u64;
    let variable = match oracle.new_var(Name::Input { universal }, log) {
        Ok(variable) => variable,
        Err(Memory) => oracle.new_var(Name::Input { universal }, log)?,
    };
    note(made, variable)?;
    Ok(())
}

/// One clause more of a group, and its id, which is the last one.
pub fn add_clause<O: Oracle>(
    oracle: &mut O,
    log: &mut Log,
    made: &Made,
    group: &Group,
    lits: &[Lit],
) -> Result<u64, Memory>
    requires fit { O.Fits oracle.old log.old }
    requires made { AreMade made.now log.old.entries }
    requires group { IsMade log.old.entries group.now }
    requires plain { All (IsPlain log.old.entries) lits.now }
    ensures fit { O.Fits oracle.new log.new }
    ensures made { AreMade made.now log.new.entries }
    ensures last { IfOk result (λ id. id ≡ last_id log.new.entries) }
{
    match add_once(oracle, log, made, group, lits) {
        Ok(id) => Ok(id),
        Err(Memory) => add_once(oracle, log, made, group, lits),
    }
}

fn add_once<O: Oracle>(
    oracle: &mut O,
    log: &mut Log,
    made: &Made,
    group: &Group,
    lits: &[Lit],
) -> Result<u64, Memory>
    requires fit { O.Fits oracle.old log.old }
    requires made { AreMade made.now log.old.entries }
    requires group { IsMade log.old.entries group.now }
    requires plain { All (IsPlain log.old.entries) lits.now }
    ensures fit { O.Fits oracle.new log.new }
    ensures made { AreMade made.now log.new.entries }
    ensures last { IfOk result (λ id. id ≡ last_id log.new.entries) }
    ensures err { OnErr result (log.new ≡ log.old) }
{
    let origin = Origin::Gate {
        variable: made.largest,
        part: 1,
    };
    let id = oracle.add(group, lits, origin, log)?;
    Ok(id)
}

/// A search.
pub fn search<O: Oracle>(
    oracle: &mut O,
    log: &mut Log,
    made: &Made,
    active: &[Group],
    assume: &[Lit],
) -> Result<Answer, Stop>
    requires fit { O.Fits oracle.old log.old }
    requires made { AreMade made.now log.old.entries }
    requires groups { All (IsMade log.old.entries) active.now }
    requires plain { All (IsPlain log.old.entries) assume.now }
    requires apart { is_tautology assume.now ≡ false }
    ensures fit { O.Fits oracle.new log.new }
    ensures made { AreMade made.now log.new.entries }
    ensures told { result ≡ Ok Answer.Sat → O.is_told oracle.new ≡ true }
    ensures id { (id : ℕ) → result ≡ Ok (Answer.Unsat id) → IsId log.new.entries id }
{
    match search_once(oracle, log, made, active, assume) {
        Err(Stop::Memory) => search_once(oracle, log, made, active, assume),
        answer => answer,
    }
}

fn search_once<O: Oracle>(
    oracle: &mut O,
    log: &mut Log,
    made: &Made,
    active: &[Group],
    assume: &[Lit],
) -> Result<Answer, Stop>
    requires fit { O.Fits oracle.old log.old }
    requires made { AreMade made.now log.old.entries }
    requires groups { All (IsMade log.old.entries) active.now }
    requires plain { All (IsPlain log.old.entries) assume.now }
    requires apart { is_tautology assume.now ≡ false }
    ensures fit { O.Fits oracle.new log.new }
    ensures made { AreMade made.now log.new.entries }
    ensures told { result ≡ Ok Answer.Sat → O.is_told oracle.new ≡ true }
    ensures id { (id : ℕ) → result ≡ Ok (Answer.Unsat id) → IsId log.new.entries id }
    ensures groups { OnErr result (All (IsMade log.new.entries) active.now) }
    ensures plain { OnErr result (All (IsPlain log.new.entries) assume.now) }
{
    // Only the contract speaks of it.
    let _ = made;
    let answer = oracle.solve(active, assume, log)?;
    Ok(answer)
}

/// The values that the last search found, in the order of the variables.
pub fn values_of<O: Oracle>(
    alloc: Global,
    oracle: &O,
    log: &Log,
    made: &Made,
) -> Result<Vec<bool>, Memory>
    requires fit { O.Fits oracle.now log.now }
    requires made { AreMade made.now log.now.entries }
    requires told { O.is_told oracle.now ≡ true }
{
    // Only the contract speaks of it.
    let _ = log;
    let mut values = Vec::new(alloc);
    for variable in &made.variables {
        values.push(oracle.value(*variable))?;
    }
    Ok(values)
}

/// What a search gave.
#[derive(Drop)]
pub enum Outcome {
    /// The values of the variables in order.
    Values(Vec<bool>),
    /// The lines that an answer rests on, the answer last.
    Refuted(Vec<Line>),
    /// The log's limit was reached.
    Limit,
}

/// What the last search gave, by its answer.
pub fn outcome_of<O: Oracle>(
    alloc: Global,
    oracle: &O,
    log: &Log,
    made: &Made,
    answer: Result<Answer, Stop>,
) -> Result<Outcome>
    requires fit { O.Fits oracle.now log.now }
    requires made { AreMade made.now log.now.entries }
    requires told { answer ≡ Ok Answer.Sat → O.is_told oracle.now ≡ true }
    requires id { (id : ℕ) → answer ≡ Ok (Answer.Unsat id) → IsId log.now.entries id }
{
    match answer {
        Ok(Answer::Sat) => Ok(Outcome::Values(values_of(alloc, oracle, log, made)?)),
        Ok(Answer::Unsat(id)) => Ok(Outcome::Refuted(lines_of(alloc, log, made, id)?)),
        Err(Stop::Limit) => Ok(Outcome::Limit),
        Err(Stop::Memory) => Err(anyhow!("out of memory")),
    }
}

/// Whether every clause that was learned or answered is derived by its hints. It adds a clause of a
/// group, whose id is the last one.
pub fn seal<O: Oracle>(
    alloc: Global,
    oracle: &mut O,
    log: &mut Log,
    made: &Made,
    group: &Group,
) -> Result<bool>
    requires fit { O.Fits oracle.old log.old }
    requires made { AreMade made.now log.old.entries }
    requires group { IsMade log.old.entries group.now }
    ensures fit { O.Fits oracle.new log.new }
    ensures made { AreMade made.now log.new.entries }
{
    let last = add_clause(oracle, log, made, group, &[])?;
    are_derived(alloc, log, made, last)
}
