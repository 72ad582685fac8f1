//! Answers under assumptions: the decisions that a falsified clause or a false assumption rests on.
//!
//! Where only assumptions were decided, the analysis takes the whole trail back. It resolves every
//! marked literal that has a reason, and the negations of the marked decisions are the clause.

ghost use Rattle.std.specs.Prelude.{◌≡◌, ◌<◌, ◌+◌, ◌++◌, ◌∷◌, [], true, length, map, reverse, IfOk, OnOk, OnErr};
ghost use Rattle.dq_lits.specs.Literal.{Literal, variable_of, opposite};
ghost use Rattle.dq_lits.specs.Derivation.{holds, status_of, falsified};
ghost use Rattle.hint_log.specs.Conditions.{AreNamed, AreIds};
ghost use Rattle.hint_log.specs.Entries.{Answer, last_id, with_entry};
ghost use Rattle.oracle.specs.Calls.{IsRefutedUnder};
ghost use Rattle.oracle.specs.Fit.{live_in};
ghost use Rattle.learning_trail.specs.Analyses.{IsAnalysis};
ghost use Rattle.learning_trail.specs.Answering.{IsAnswering, StaysFit};
ghost use Rattle.learning_trail.specs.Steps.{literals_of, Shrunk};
ghost use Rattle.learning_trail.specs.Sound.{IsSound, AreAssumed};
ghost use Rattle.learning_trail.specs.Passes.{AreMarkable};
ghost use Rattle.learning_trail.specs.Backing.{IsKeeping};

use crate::activities::Activities;
use crate::analysis::{begin, resolve};
use crate::assumptions::Assumptions;
use crate::clauses::Clauses;
use crate::notes::Notes;
use crate::trails::{Step, Trail};
use dq_lits::{Lit, Memory};
use hint_log::Log;

/// Answers from a falsified clause where only assumptions were decided: the clause of the negated
/// assumptions that it rests on is logged and added. It answers the id.
pub fn answer_conflict<C: Clauses>(
    clauses: &mut C,
    trail: &mut Trail,
    notes: &mut Notes,
    activities: &mut Activities,
    assumptions: &Assumptions,
    conflict: u64,
    log: &mut Log,
) -> Result<u64, Memory>
    requires answering { IsAnswering assumptions.now (C.clauses clauses.old) trail.old notes.old
        log.old }
    requires assumed { AreAssumed assumptions.now trail.old.steps }
    requires conflict { status_of (literals_of trail.old.steps)
        (live_in (C.clauses clauses.old) conflict) ≡ falsified }
    ensures ok { IfOk result (λ id. IsRefutedUnder log.old log.new assumptions.now id) }
    ensures fit { StaysFit assumptions.now (C.clauses clauses.old) (C.clauses clauses.new) log.old
        log.new }
    ensures room { trail.new.room ≡ trail.old.room }
    ensures marks { length notes.new.marks ≡ length notes.old.marks }
    ensures err { OnErr result (log.new ≡ log.old) }
{
    begin(clauses, notes, activities, conflict)?;
    answer(clauses, trail, notes, assumptions, log)
}

/// Answers from a false assumption, likewise.
pub fn answer_false<C: Clauses>(
    clauses: &mut C,
    trail: &mut Trail,
    notes: &mut Notes,
    activities: &mut Activities,
    assumptions: &Assumptions,
    assumption: Lit,
    log: &mut Log,
) -> Result<u64, Memory>
    requires answering { IsAnswering assumptions.now (C.clauses clauses.old) trail.old notes.old
        log.old }
    requires assumed { holds assumptions.now assumption ≡ true }
    requires is_false { holds (literals_of trail.old.steps) (opposite assumption) ≡ true }
    ensures ok { IfOk result (λ id. IsRefutedUnder log.old log.new assumptions.now id) }
    ensures fit { StaysFit assumptions.now (C.clauses clauses.old) (C.clauses clauses.new) log.old
        log.new }
    ensures room { trail.new.room ≡ trail.old.room }
    ensures marks { length notes.new.marks ≡ length notes.old.marks }
    ensures err { OnErr result (log.new ≡ log.old) }
{
    let step = back_to(trail, assumption.not());
    match step.reason {
        Some(reason) => {
            begin(clauses, notes, activities, reason)?;
            notes.unmark(assumption);
            notes.add_literal(assumption.not())?;
            answer(clauses, trail, notes, assumptions, log)
        }
        None => unreachable!(),
    }
}

// Logs the answer that the notes lead to, and adds it.
fn answer<C: Clauses>(
    clauses: &mut C,
    trail: &mut Trail,
    notes: &mut Notes,
    assumptions: &Assumptions,
    log: &mut Log,
) -> Result<u64, Memory>
    requires answering { IsAnswering assumptions.now (C.clauses clauses.old) trail.old notes.old
        log.old }
    requires assumed { AreAssumed assumptions.now trail.old.steps }
    requires negated { (l : Literal) → holds notes.old.literals l ≡ true
        → holds assumptions.now (opposite l) ≡ true }
    requires analysis { IsAnalysis log.old.entries (live_in (C.clauses clauses.old))
        (literals_of trail.old.steps) (map opposite notes.old.literals) notes.old.marks
        (reverse notes.old.hints) }
    ensures ok { IfOk result (λ id. IsRefutedUnder log.old log.new assumptions.now id) }
    ensures fit { StaysFit assumptions.now (C.clauses clauses.old) (C.clauses clauses.new) log.old
        log.new }
    ensures room { trail.new.room ≡ trail.old.room }
    ensures marks { length notes.new.marks ≡ length notes.old.marks }
    ensures err { OnErr result (log.new ≡ log.old) }
{
    back_to_decisions(trail, clauses, notes)?;
    notes.turn();
    let id = keep_answer(clauses, notes, log)?;
    Ok(id)
}

// Logs an answer, and adds it.
fn keep_answer<C: Clauses>(clauses: &mut C, notes: &Notes, log: &mut Log) -> Result<u64, Memory>
    requires named { AreNamed log.old.entries notes.now.literals }
    requires hints { AreIds log.old.entries notes.now.hints }
    ensures ok { OnOk result
        (log.new ≡ with_entry log.old (Answer notes.now.literals notes.now.hints)) }
    ensures id { IfOk result (λ id. id ≡ last_id log.new.entries) }
    ensures held { OnOk result
        (C.clauses clauses.new ≡ C.clauses clauses.old ++ notes.now.literals ∷ []) }
    ensures err { OnErr result (log.new ≡ log.old) }
    ensures err_held { OnErr result (C.clauses clauses.new ≡ C.clauses clauses.old) }
{
    clauses.make_room(notes.literals())?;
    let id = log.answer(notes.literals(), notes.hints())?;
    clauses.add(notes.literals());
    Ok(id)
}

// Takes literals back, down to a true one, and answers its step.
fn back_to(trail: &mut Trail, l: Lit) -> Step
    requires { holds (literals_of trail.old.steps) l ≡ true }
    ensures room { trail.new.room ≡ trail.old.room }
    ensures shrunk { Shrunk trail.old.steps (result ∷ trail.new.steps) }
    ensures still { holds (literals_of (result ∷ trail.new.steps)) l ≡ true }
    ensures variable { variable_of result.literal ≡ variable_of l }
{
    while let Some(step) = trail.pop() {
        if step.literal.var() == l.var() {
            return step;
        }
    }
    unreachable!()
}

// Takes all literals back, and adds the negations of the decisions that the marked ones rest on.
fn back_to_decisions<C: Clauses>(
    trail: &mut Trail,
    clauses: &C,
    notes: &mut Notes,
) -> Result<(), Memory>
    requires sound { IsSound (live_in (C.clauses clauses.now)) trail.old.steps }
    requires within { AreMarkable (length notes.old.marks) (C.clauses clauses.now) }
    requires in_range { trail.old.room < length notes.old.marks }
    ensures len { length notes.new.marks ≡ length notes.old.marks }
    ensures room { trail.new.room ≡ trail.old.room }
    ensures bare { OnOk result (trail.new.steps ≡ []) }
    ensures kept { OnOk result
        (IsKeeping (live_in (C.clauses clauses.now)) trail.old trail.new notes.old notes.new) }
{
    while let Some(step) = trail.pop() {
        if notes.has(step.literal) {
            match step.reason {
                None => notes.add_literal(step.literal.not())?,
                Some(reason) => resolve(clauses, notes, step.literal, reason)?,
            }
        }
    }
    Ok(())
}
