//! The turns of a search: propagation to its end, and then one conflict or one decision.
//!
//! Propagation ends before each decision and each assumption, so that below each level no clause
//! held is unit or falsified. A conflict where only assumptions were decided gives an answer, and
//! any other one a learned clause, which is new for that reason. Each turn that goes on counts a
//! step or makes the trail longer.

ghost use Rattle.std.specs.Prelude.{◌≡◌, ◌≤◌, ◌<◌, ◌+◌, ◌⊎◌, [], true, length, IfOk, OnErr, Ok, Err, IsSome, MatchOption};
ghost use Rattle.dq_lits.specs.Literal.{variable_of, is_negative};
ghost use Rattle.dq_lits.specs.Derivation.{holds, status_of, falsified};
ghost use Rattle.hint_log.specs.Entries.{name_of};
ghost use Rattle.hint_log.specs.Naming.{is_selector};
ghost use Rattle.hint_log.specs.ProductiveLog.{IsClosed};
ghost use Rattle.oracle.specs.Fit.{live_in};
ghost use Rattle.oracle.specs.Limits.{IsAtLimit};
ghost use Rattle.learning_trail.specs.Growing.{HasLearned};
ghost use Rattle.learning_trail.specs.Resting.{HeldFit};
ghost use Rattle.learning_trail.specs.Steps.{literals_of};
ghost use Rattle.dq_lits.specs.Truth.{IsFree};
ghost use Rattle.learning_trail.specs.Searching.{AreAssumptions};
ghost use Rattle.cdcl_scan.specs.Searching.{IsTurn, KeepsPlaces, IsSearching, IsAnswered};
ghost use Rattle.learning_trail.specs.Sound.{AreTrue};

use crate::decisions::newest_open;
use crate::learning::learn;
use crate::scans::propagate;
use crate::searchers::Searcher;
use dq_lits::{Lit, Memory};
use hint_log::{Log, Stop};
use learning_trail::{
    Assumptions, Next, Step, answer_conflict, answer_false, free_decision, next_assumption,
};
use oracle::Answer;

/// Searches to the end.
pub(crate) fn search(
    s: &mut Searcher,
    assumptions: &Assumptions,
    log: &mut Log,
) -> Result<Answer, Stop>
    requires searching { IsSearching assumptions.now s.old log.old }
    requires few { length s.old.trail.steps ≤ s.old.trail.room }
    requires assumptions { AreAssumptions log.old assumptions.now }
    ensures ok { IfOk result (λ found. IsAnswered assumptions.now s.new log.old log.new found) }
    ensures fit { HeldFit s.new.clauses.clauses [] s.new.variables log.new.entries }
    ensures places { KeepsPlaces s.old s.new }
    ensures stop { OnErr result (HasLearned log.old log.new) }
    ensures limit { result ≡ Err Stop.Limit → IsAtLimit log.new assumptions.now }
{
    'turns: loop {
        match turn(s, assumptions, log)? {
            None => {}
            Some(found) => return Ok(found),
        }
    }
}

// One conflict, or one decision.
fn turn(s: &mut Searcher, assumptions: &Assumptions, log: &mut Log) -> Result<Option<Answer>, Stop>
    requires searching { IsSearching assumptions.now s.old log.old }
    requires few { length s.old.trail.steps ≤ s.old.trail.room }
    requires assumptions { AreAssumptions log.old assumptions.now }
    ensures ok { IfOk result
        (λ found. MatchOption found (IsTurn assumptions.now s.old s.new log.old log.new)
        (λ f. IsAnswered assumptions.now s.new log.old log.new f)) }
    ensures fit { HeldFit s.new.clauses.clauses [] s.new.variables log.new.entries }
    ensures places { KeepsPlaces s.old s.new }
    ensures stop { OnErr result (HasLearned log.old log.new) }
    ensures limit { result ≡ Err Stop.Limit → IsAtLimit log.new assumptions.now }
{
    match propagate(&mut s.trail, &s.clauses) {
        Some(id) => conflict(s, assumptions, id, log),
        None => {
            let found = go_on(s, assumptions, log)?;
            Ok(found)
        }
    }
}

// Learns from a falsified clause, or answers from it where only assumptions were decided.
fn conflict(
    s: &mut Searcher,
    assumptions: &Assumptions,
    id: u64,
    log: &mut Log,
) -> Result<Option<Answer>, Stop>
    requires searching { IsSearching assumptions.now s.old log.old }
    requires few { length s.old.trail.steps ≤ s.old.trail.room }
    requires assumptions { AreAssumptions log.old assumptions.now }
    requires conflict { status_of (literals_of s.old.trail.steps) (live_in s.old.clauses.clauses id)
        ≡ falsified }
    ensures ok { IfOk result
        (λ found. MatchOption found (IsTurn assumptions.now s.old s.new log.old log.new)
        (λ f. IsAnswered assumptions.now s.new log.old log.new f)) }
    ensures fit { HeldFit s.new.clauses.clauses [] s.new.variables log.new.entries }
    ensures places { KeepsPlaces s.old s.new }
    ensures stop { OnErr result (HasLearned log.old log.new) }
    ensures limit { result ≡ Err Stop.Limit → IsAtLimit log.new assumptions.now }
{
    match free_decision(&s.trail, assumptions) {
        Some(l) => {
            learn(s, assumptions, l, id, log)?;
            let _steps = log.steps();
            Ok(None)
        }
        None => {
            let answer = answer_conflict(
                &mut s.clauses,
                &mut s.trail,
                &mut s.notes,
                &mut s.activities,
                assumptions,
                id,
                log,
            )?;
            Ok(Some(Answer::Unsat(answer)))
        }
    }
}

// Makes an assumption or another literal true, or finds that all is true or an assumption false.
fn go_on(
    s: &mut Searcher,
    assumptions: &Assumptions,
    log: &mut Log,
) -> Result<Option<Answer>, Memory>
    requires searching { IsSearching assumptions.now s.old log.old }
    requires few { length s.old.trail.steps ≤ s.old.trail.room }
    requires closed { IsClosed (live_in s.old.clauses.clauses) (literals_of s.old.trail.steps) }
    requires assumptions { AreAssumptions log.old assumptions.now }
    ensures ok { IfOk result
        (λ found. MatchOption found (IsTurn assumptions.now s.old s.new log.old log.new)
        (λ f. IsAnswered assumptions.now s.new log.old log.new f)) }
    ensures fit { HeldFit s.new.clauses.clauses [] s.new.variables log.new.entries }
    ensures places { KeepsPlaces s.old s.new }
    ensures err { OnErr result (log.new ≡ log.old) }
{
    match next_assumption(&s.trail, assumptions, &mut 0) {
        Next::False(l) => {
            let answer = answer_false(
                &mut s.clauses,
                &mut s.trail,
                &mut s.notes,
                &mut s.activities,
                assumptions,
                l,
                log,
            )?;
            Ok(Some(Answer::Unsat(answer)))
        }
        Next::Free(l) => {
            decide(s, assumptions, l, log);
            Ok(None)
        }
        Next::AllTrue => Ok(settle(s, assumptions, log)),
    }
}

// Makes an open literal true, or finds that every clause is.
fn settle(s: &mut Searcher, assumptions: &Assumptions, log: &Log) -> Option<Answer>
    requires searching { IsSearching assumptions.now s.old log.now }
    requires closed { IsClosed (live_in s.old.clauses.clauses) (literals_of s.old.trail.steps) }
    requires assumed { AreTrue assumptions.now (literals_of s.old.trail.steps) }
    ensures ok { MatchOption result (IsTurn assumptions.now s.old s.new log.now log.now)
        (λ f. IsAnswered assumptions.now s.new log.now log.now f) }
    ensures fit { HeldFit s.new.clauses.clauses [] s.new.variables log.now.entries }
    ensures places { KeepsPlaces s.old s.new }
{
    match newest_open(&s.trail, &s.clauses, &s.activities) {
        Some(l) => {
            decide(s, assumptions, l, log);
            None
        }
        None => Some(Answer::Sat),
    }
}

fn decide(s: &mut Searcher, assumptions: &Assumptions, l: Lit, log: &Log)
    requires searching { IsSearching assumptions.now s.old log.now }
    requires closed { IsClosed (live_in s.old.clauses.clauses) (literals_of s.old.trail.steps) }
    requires free { IsFree (literals_of s.old.trail.steps) l }
    requires named { IsSome (name_of log.now.entries (variable_of l)) }
    requires chosen { (holds assumptions.now l ≡ true)
        ⊎ (AreTrue assumptions.now (literals_of s.old.trail.steps)
        × (is_selector log.now.entries (variable_of l) ≡ true → is_negative l ≡ true)) }
    ensures searching { IsSearching assumptions.now s.new log.now }
    ensures longer { length s.new.trail.steps ≡ length s.old.trail.steps + 1 }
    ensures few { length s.new.trail.steps ≤ s.new.trail.room }
    ensures places { KeepsPlaces s.old s.new }
{
    s.trail.push(Step {
        literal: l,
        reason: None,
    });
}
