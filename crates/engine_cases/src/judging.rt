//! The log's clauses as lines of a proof, and whether each that was learned or answered is derived
//! by its hints.

ghost use Rattle.std.specs.Prelude.{◌≡◌, ◌≤◌, true, false};
ghost use Rattle.hint_log.specs.Conditions.{IsId};
ghost use Rattle.hint_log.specs.Entries.{clause_at, last_id};
ghost use Rattle.engine_cases.specs.Making.{AreMade};

use crate::calls::Made;
use crate::numbers::numbers_of;
use anyhow::Result;
use dq_lits::Lit;
use hint_log::Log;
use hint_log::laws::{clauses_are_named, reached_are_ids};
use rup_core::{Base, Derived, Marks, derive};
use std::alloc::Global;

/// A line of a proof.
#[derive(Drop)]
pub struct Line {
    pub id: u64,
    pub literals: Vec<i64>,
    pub hints: Vec<u64>,
    /// Whether its clause was put to the solver; such a line has no hints.
    pub is_given: bool,
}

/// The clauses of a log up to its last one.
#[derive(Clone, Copy)]
struct Clauses<'a> {
    log: &'a Log,
    last: u64,
    ghost last_is: { last ≡ last_id log.now.entries },
}

impl Base for Clauses<'_> {
    ghost clauses = { λ b. clause_at b.log.now.entries };

    fn size(&self, id: u64) -> Option<usize> {
        if is_id(id, self.last) {
            Some(self.log.clause(id).len())
        } else {
            None
        }
    }

    fn lit(&self, id: u64, i: usize) -> Lit {
        self.log.clause(id)[i]
    }
}

fn is_id(id: u64, last: u64) -> bool
    ensures yes { result ≡ true → (1 ≤ id) × (id ≤ last) }
    ensures other { result ≡ false → 1 ≤ id → id ≤ last → ⊥ }
{
    id != 0 && id <= last
}

/// Whether every clause of the log that was learned or answered is derived by its hints.
pub fn are_derived(alloc: Global, log: &Log, made: &Made, last: u64) -> Result<bool>
    requires made { AreMade made.now log.now.entries }
    requires last { last ≡ last_id log.now.entries }
{
    let mut marks = Marks::new(alloc, made.largest as usize)?;
    for before in 0..last {
        let id = before + 1;
        if log.origin(id).is_none() && !is_derived(&mut marks, log, made, last, id) {
            return Ok(false);
        }
    }
    Ok(true)
}

fn is_derived(marks: &mut Marks, log: &Log, made: &Made, last: u64, id: u64) -> bool
    requires made { AreMade made.now log.now.entries }
    requires last { last ≡ last_id log.now.entries }
    requires id { IsId log.now.entries id }
    requires marks { marks.old ≡ made.now.largest }
    ensures { marks.new ≡ marks.old }
{
    // Only the contract speaks of it.
    let _ = made;
    log.every_log_is_lawful();
    clauses_are_named();
    let base = Clauses { log, last };
    match derive(marks, log.clause(id), log.hints(id), &base) {
        Derived::Yes => true,
        Derived::No(_) => false,
    }
}

/// The lines that an answer rests on, by ascending ids.
pub fn lines_of(alloc: Global, log: &Log, made: &Made, answer: u64) -> Result<Vec<Line>>
    requires { IsId log.now.entries answer }
{
    log.every_log_is_lawful();
    reached_are_ids();
    let ids = log.trim(answer)?;
    let mut lines = Vec::new(alloc);
    for id in ids.items() {
        lines.push(line_of(alloc, log, made, *id)?)?;
    }
    Ok(lines)
}

fn line_of(alloc: Global, log: &Log, made: &Made, id: u64) -> Result<Line>
    requires { IsId log.now.entries id }
{
    Ok(Line {
        id,
        literals: numbers_of(alloc, made, log.clause(id))?,
        hints: log.hints(id).to_vec(alloc)?,
        is_given: log.origin(id).is_some(),
    })
}
