//! Bits that existentials are forced to have at a row.

ghost use Rattle.std.specs.Prelude.{◌≡◌, [], length, IfOk};
ghost use Rattle.dq_lits.specs.Formula.{IsWellFormed};
ghost use Rattle.definability.specs.Copies.{IsDefinability};

use crate::definitions::push_variable;
use crate::rows::{push_bits, row_of};
use crate::shown::push_signed;
use anyhow::{Result, anyhow};
use cdcl_core::Cdcl;
use definability::{Definability, Forced};
use dq_formula::Formula;
use dq_lits::Row;
use hint_log::{Log, Stop};
use oracle::Oracle;
use std::alloc::Global;

// More steps than any case takes.
const LIMIT: u64 = 1000;

/// Asks whether an existential is forced to have a bit at a row: `Y BIT LITERAL ..`.
pub fn run(alloc: Global, f: &Formula, question: &str, printed: &mut String) -> Result<()>
    requires formula { IsWellFormed f.now }
{
    let question = question_of(alloc, f, question)?;
    let forced = ask(alloc, f, &question)?;
    push_variable(alloc, question.y, printed)?;
    show_forced(alloc, f, &forced, printed)
}

/// Whether an existential is forced to have a bit at a row.
#[derive(Drop)]
struct Question {
    y: u64,
    bit: bool,
    row: Row,
}

fn question_of(alloc: Global, f: &Formula, text: &str) -> Result<Question>
    ensures row { IfOk result (λ q. length q.row ≡ length f.now.universals) }
{
    let (y, rest) = split(text)?;
    let (bit, row) = split(rest)?;
    let y: u64 = y.parse()?;
    let row = row_of(alloc, f, row)?;
    let bit = bit == "1";
    Ok(Question { y, bit, row })
}

// The first word, and what is behind it.
fn split(text: &str) -> Result<(&str, &str)> {
    match text.trim().split_once(' ') {
        Some(parts) => Ok(parts),
        None => Err(anyhow!("too few words: {text}")),
    }
}

fn ask(alloc: Global, f: &Formula, question: &Question) -> Result<Forced>
    requires formula { IsWellFormed f.now }
    requires row { length question.now.row ≡ length f.now.universals }
{
    ask_by(alloc, Cdcl::new(alloc), Log::new(alloc, LIMIT), f, question)
}

// Over any solver: what drops one here is the same few steps whatever it holds.
fn ask_by<O: Oracle + Drop>(
    alloc: Global,
    mut oracle: O,
    mut log: Log,
    f: &Formula,
    question: &Question,
) -> Result<Forced>
    requires formula { IsWellFormed f.now }
    requires row { length question.now.row ≡ length f.now.universals }
    requires fit { O.Fits oracle log }
    requires empty { log.entries ≡ [] }
{
    let mut definability = Definability::new(alloc, &mut oracle, f, &mut log)?;
    force(&mut oracle, &mut log, &mut definability, f, question)
}

fn force<O: Oracle>(
    oracle: &mut O,
    log: &mut Log,
    definability: &mut Definability,
    f: &Formula,
    question: &Question,
) -> Result<Forced>
    requires formula { IsWellFormed f.now }
    requires fit { O.Fits oracle.old log.old }
    requires definability { IsDefinability f.now definability.old log.old.entries }
    requires row { length question.now.row ≡ length f.now.universals }
{
    let y = question.y;
    if !f.is_existential(y) {
        return Err(anyhow!("no existential: {y}"));
    }
    match definability.force(oracle, f, y, &question.row, question.bit, log) {
        Ok(forced) => Ok(forced),
        Err(Stop::Limit) => Err(anyhow!("limit")),
        Err(Stop::Memory) => Err(anyhow!("out of memory")),
    }
}

fn show_forced(alloc: Global, f: &Formula, forced: &Forced, printed: &mut String) -> Result<()> {
    match forced {
        Forced::Rule(rule) => {
            printed.push_str(if rule.bit {
                "true where"
            } else {
                "false where"
            })?;
            for l in rule.cube.lits() {
                push_signed(alloc, l.var(), l.is_neg(), printed)?;
            }
        }
        Forced::Loose { row, values } => {
            printed.push_str("loose:")?;
            push_bits(alloc, f.universals(), row, printed)?;
            push_bits(alloc, f.existentials(), values, printed)?;
        }
    }
    Ok(())
}
