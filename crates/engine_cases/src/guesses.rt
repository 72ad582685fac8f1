//! Definitions of existentials under conditions, or two samples that show that there is none.

ghost use Rattle.std.specs.Prelude.{◌≡◌, [], length, IfOk};
ghost use Rattle.dq_lits.specs.Formula.{IsWellFormed};
ghost use Rattle.engine_cases.specs.Guessing.{IsPosed, IsShaped};
ghost use Rattle.engine_cases.specs.Ready.{IsLinked};

use crate::conditions::{Question, question_of};
use crate::definitions::{Defining, begin, push_word, show_definition};
use crate::evaluation::{Point, holds, is_true};
use crate::shown::{push_clause, push_signed};
use anyhow::{Result, anyhow};
use cdcl_core::Cdcl;
use definability::{Guess, Pair};
use dq_formula::Formula;
use dq_lits::Lit;
use hint_log::{Log, Stop};
use oracle::Oracle;
use std::alloc::Global;

/// Asks for definitions under conditions: `LIMIT Y LITERAL .. ; LIMIT Y LITERAL ..`.
pub fn run(alloc: Global, f: &Formula, questions: &str, printed: &mut String) -> Result<()>
    requires formula { IsWellFormed f.now }
{
    run_by(
        alloc,
        Cdcl::new(alloc),
        Log::new(alloc, 0),
        f,
        questions,
        printed,
    )
}

// Over any solver: what drops one here is the same few steps whatever it holds.
fn run_by<O: Oracle + Drop>(
    alloc: Global,
    oracle: O,
    log: Log,
    f: &Formula,
    questions: &str,
    printed: &mut String,
) -> Result<()>
    requires formula { IsWellFormed f.now }
    requires fit { O.Fits oracle log }
    requires empty { log.entries ≡ [] }
{
    let mut defining = begin(alloc, oracle, log, f)?;
    defining.guess_each(alloc, f, questions, printed)
}

impl<O: Oracle> Defining<O> {
    fn guess_each(
        &mut self,
        alloc: Global,
        f: &Formula,
        questions: &str,
        printed: &mut String,
    ) -> Result<()>
        requires formula { IsWellFormed f.now }
        requires fit { O.Fits self.old.oracle self.old.log }
        requires linked { IsLinked f.now self.old.graph self.old.definability self.old.log.entries }
    {
        for text in questions.split(';') {
            self.guess_stated(alloc, f, text, printed)?;
        }
        Ok(())
    }

    fn guess_stated(
        &mut self,
        alloc: Global,
        f: &Formula,
        text: &str,
        printed: &mut String,
    ) -> Result<()>
        requires formula { IsWellFormed f.now }
        requires fit { O.Fits self.old.oracle self.old.log }
        requires linked { IsLinked f.now self.old.graph self.old.definability self.old.log.entries }
        ensures fit { IfOk result (λ u. O.Fits self.new.oracle self.new.log) }
        ensures linked { IfOk result (λ u.
            IsLinked f.now self.new.graph self.new.definability self.new.log.entries) }
    {
        let question = question_of(alloc, f, text)?;
        self.guess_within(alloc, f, &question, printed)
    }

    // Sets the log's limit, and asks.
    fn guess_within(
        &mut self,
        alloc: Global,
        f: &Formula,
        question: &Question,
        printed: &mut String,
    ) -> Result<()>
        requires formula { IsWellFormed f.now }
        requires posed { IsPosed f.now question.now }
        requires fit { O.Fits self.old.oracle self.old.log }
        requires linked { IsLinked f.now self.old.graph self.old.definability self.old.log.entries }
        ensures fit { IfOk result (λ u. O.Fits self.new.oracle self.new.log) }
        ensures linked { IfOk result (λ u.
            IsLinked f.now self.new.graph self.new.definability self.new.log.entries) }
    {
        set_limit(&mut self.log, question.limit)?;
        push_question(alloc, question, self.log.limit(), printed)?;
        self.guess(alloc, f, question, printed)
    }

    fn guess(
        &mut self,
        alloc: Global,
        f: &Formula,
        question: &Question,
        printed: &mut String,
    ) -> Result<()>
        requires formula { IsWellFormed f.now }
        requires posed { IsPosed f.now question.now }
        requires fit { O.Fits self.old.oracle self.old.log }
        requires linked { IsLinked f.now self.old.graph self.old.definability self.old.log.entries }
        ensures fit { IfOk result (λ u. O.Fits self.new.oracle self.new.log) }
        ensures linked { IfOk result (λ u.
            IsLinked f.now self.new.graph self.new.definability self.new.log.entries) }
    {
        let y = question.y.var();
        let asked = &question.conditions;
        let found = self.definability.guess(
            &mut self.oracle,
            &mut self.graph,
            f,
            y,
            asked,
            &mut self.log,
        );
        match &found {
            Ok(Guess::Node(node)) => show_definition(alloc, f, &self.graph, *node, printed),
            Ok(Guess::Pair(pair)) => show_pair(f, question, pair, printed),
            Err(Stop::Limit) => push_word("limit", printed),
            Err(Stop::Memory) => Err(anyhow!("out of memory")),
        }
    }
}

fn set_limit(log: &mut Log, limit: u64) -> Result<()>
    ensures { IfOk result (λ u. log.new ≡ record log.old { limit = limit }) }
{
    if log.steps() > limit {
        return Err(anyhow!("more steps already than {limit}"));
    }
    log.set_limit(limit);
    Ok(())
}

fn push_question(
    alloc: Global,
    question: &Question,
    limit: u64,
    printed: &mut String,
) -> Result<()> {
    printed.push_str("\n existential")?;
    push_signed(alloc, question.y.var(), false, printed)?;
    printed.push_str(&format!(in alloc; ", limit {limit}, conditions")?)?;
    push_clause(alloc, &question.conditions, printed)?;
    printed.push_str(": ")?;
    Ok(())
}

fn show_pair(f: &Formula, question: &Question, pair: &Pair, printed: &mut String) -> Result<()>
    requires posed { IsPosed f.now question.now }
    requires shape { IsShaped f.now pair.now }
{
    push_word(
        if shows_freedom(f, question, pair) {
            "free"
        } else {
            "wrong samples"
        },
        printed,
    )
}

// Whether both samples make the clauses and the conditions true, and agree on what the existential
// sees, and it is true in the first one and false in the second.
fn shows_freedom(f: &Formula, question: &Question, pair: &Pair) -> bool
    requires posed { IsPosed f.now question.now }
    requires shape { IsShaped f.now pair.now }
{
    let first = Point {
        row: &pair.row1,
        bits: &pair.values1,
    };
    let second = Point {
        row: &pair.row2,
        bits: &pair.values2,
    };
    let y = question.y;
    is_sample(f, &first, &question.conditions, y)
        && is_sample(f, &second, &question.conditions, y.not())
        && f.same_on(y.var(), &pair.row1, &pair.row2)
}

// Whether the clauses, the conditions and a literal are true at a point.
fn is_sample(f: &Formula, point: &Point, conditions: &[Lit], l: Lit) -> bool
    requires row { length point.now.row.now ≡ length f.now.universals }
    requires bits { length point.now.bits.now ≡ length f.now.existentials }
{
    holds(f, point) && is_true(f, point, l) && are_true(f, point, conditions)
}

fn are_true(f: &Formula, point: &Point, lits: &[Lit]) -> bool
    requires row { length point.now.row.now ≡ length f.now.universals }
    requires bits { length point.now.bits.now ≡ length f.now.existentials }
{
    for l in lits {
        if !is_true(f, point, *l) {
            return false;
        }
    }
    true
}
