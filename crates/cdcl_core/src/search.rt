//! The turns of a search: propagation to its end, and then one conflict or one decision.
//!
//! Propagation ends before each decision and each assumption, so that below each level no clause
//! held is unit or falsified. A conflict where only assumptions were decided gives an answer, and
//! any other one a learned clause, which is new for that reason. Each turn that goes on counts a
//! step or makes the trail longer.

ghost use Rattle.std.specs.Prelude.{◌≡◌, ◌≤◌, ◌<◌, ◌+◌, ◌⊎◌, true, false, length, take, IfOk, OnErr, Ok, Err, IsSome, IfSome, MatchOption};
ghost use Rattle.dq_lits.specs.Literal.{Literal, variable_of, is_negative};
ghost use Rattle.dq_lits.specs.Derivation.{holds, status_of, falsified};
ghost use Rattle.hint_log.specs.Entries.{name_of};
ghost use Rattle.hint_log.specs.Naming.{is_selector};
ghost use Rattle.hint_log.specs.ProductiveLog.{IsClosed};
ghost use Rattle.oracle.specs.Fit.{live_in};
ghost use Rattle.learning_trail.specs.Resting.{HeldFit};
ghost use Rattle.oracle.specs.Limits.{IsAtLimit};
ghost use Rattle.learning_trail.specs.Growing.{HasLearned};
ghost use Rattle.learning_trail.specs.Steps.{literals_of};
ghost use Rattle.dq_lits.specs.Truth.{IsFree};
ghost use Rattle.learning_trail.specs.Searching.{AreAssumptions};
ghost use Rattle.cdcl_core.specs.Searching.{IsPropagatedButNewest, IsAllGuarded, IsTurn, KeepsPlaces, IsSearching, IsAnswered};
ghost use Rattle.learning_trail.specs.Sound.{AreTrue};

use crate::decisions::open_clause;
use crate::learning::learn;
use crate::searchers::Searcher;
use dq_lits::{Lit, Memory};
use hint_log::{Log, Name, Stop};
use learning_trail::{
    Assumptions, Next, Step, answer_conflict, answer_false, free_decision, next_assumption,
};
use oracle::Answer;

/// Searches to the end.
pub(crate) fn search(
    s: &mut Searcher,
    assumptions: &Assumptions,
    log: &mut Log,
) -> Result<Answer, Stop>
    requires searching { IsSearching assumptions.now s.old log.old }
    requires ready { IsPropagatedButNewest s.old }
    requires few { length s.old.trail.steps ≤ s.old.trail.room }
    requires assumptions { AreAssumptions log.old assumptions.now }
    ensures ok { IfOk result (λ found. IsAnswered assumptions.now s.new log.old log.new found) }
    ensures fit { HeldFit s.new.clauses.clauses s.new.resting.flags.items s.new.variables
        log.new.entries }
    ensures places { KeepsPlaces s.old s.new }
    ensures stop { OnErr result (HasLearned log.old log.new) }
    ensures limit { result ≡ Err Stop.Limit → IsAtLimit log.new assumptions.now }
{
    let mut made = 0usize;
    'turns: loop {
        match turn(s, assumptions, &mut made, log)? {
            None => {}
            Some(found) => return Ok(found),
        }
    }
}

// One conflict, or one decision, where so many assumptions are known to be true.
fn turn(
    s: &mut Searcher,
    assumptions: &Assumptions,
    made: &mut usize,
    log: &mut Log,
) -> Result<Option<Answer>, Stop>
    requires searching { IsSearching assumptions.now s.old log.old }
    requires ready { IsPropagatedButNewest s.old }
    requires few { length s.old.trail.steps ≤ s.old.trail.room }
    requires assumptions { AreAssumptions log.old assumptions.now }
    requires made { AreTrue (take made.old assumptions.now) (literals_of s.old.trail.steps) }
    ensures made { AreTrue (take made.new assumptions.now) (literals_of s.new.trail.steps) }
    ensures ok { IfOk result
        (λ found. MatchOption found (IsTurn assumptions.now s.old s.new log.old log.new)
        (λ f. IsAnswered assumptions.now s.new log.old log.new f)) }
    ensures fit { HeldFit s.new.clauses.clauses s.new.resting.flags.items s.new.variables
        log.new.entries }
    ensures places { KeepsPlaces s.old s.new }
    ensures stop { OnErr result (HasLearned log.old log.new) }
    ensures limit { result ≡ Err Stop.Limit → IsAtLimit log.new assumptions.now }
{
    match s.clauses.propagate(&mut s.trail, s.delays.are_on()) {
        Some(id) => {
            *made = 0;
            conflict(s, assumptions, id, log)
        }
        None => {
            let found = go_on(s, assumptions, made, log)?;
            Ok(found)
        }
    }
}

// Learns from a falsified clause, or answers from it where only assumptions were decided.
fn conflict(
    s: &mut Searcher,
    assumptions: &Assumptions,
    id: u64,
    log: &mut Log,
) -> Result<Option<Answer>, Stop>
    requires searching { IsSearching assumptions.now s.old log.old }
    requires few { length s.old.trail.steps ≤ s.old.trail.room }
    requires assumptions { AreAssumptions log.old assumptions.now }
    requires conflict { status_of (literals_of s.old.trail.steps) (live_in s.old.clauses.clauses id)
        ≡ falsified }
    ensures ok { IfOk result
        (λ found. MatchOption found (IsTurn assumptions.now s.old s.new log.old log.new)
        (λ f. IsAnswered assumptions.now s.new log.old log.new f)) }
    ensures fit { HeldFit s.new.clauses.clauses s.new.resting.flags.items s.new.variables
        log.new.entries }
    ensures places { KeepsPlaces s.old s.new }
    ensures stop { OnErr result (HasLearned log.old log.new) }
    ensures limit { result ≡ Err Stop.Limit → IsAtLimit log.new assumptions.now }
{
    match free_decision(&s.trail, assumptions) {
        Some(l) => {
            learn(s, assumptions, l, id, log)?;
            let _steps = log.steps();
            Ok(None)
        }
        None => {
            let answer = answer_conflict(
                &mut s.clauses,
                &mut s.trail,
                &mut s.notes,
                &mut s.activities,
                assumptions,
                id,
                log,
            )?;
            Ok(Some(Answer::Unsat(answer)))
        }
    }
}

// Makes an assumption or another literal true, or finds that all is true or an assumption false.
fn go_on(
    s: &mut Searcher,
    assumptions: &Assumptions,
    made: &mut usize,
    log: &mut Log,
) -> Result<Option<Answer>, Memory>
    requires searching { IsSearching assumptions.now s.old log.old }
    requires few { length s.old.trail.steps ≤ s.old.trail.room }
    requires closed { IsClosed (live_in s.old.clauses.clauses) (literals_of s.old.trail.steps) }
    requires guarded { IsAllGuarded s.old }
    requires assumptions { AreAssumptions log.old assumptions.now }
    requires made { AreTrue (take made.old assumptions.now) (literals_of s.old.trail.steps) }
    ensures made { AreTrue (take made.new assumptions.now) (literals_of s.new.trail.steps) }
    ensures ok { IfOk result
        (λ found. MatchOption found (IsTurn assumptions.now s.old s.new log.old log.new)
        (λ f. IsAnswered assumptions.now s.new log.old log.new f)) }
    ensures fit { HeldFit s.new.clauses.clauses s.new.resting.flags.items s.new.variables
        log.new.entries }
    ensures places { KeepsPlaces s.old s.new }
    ensures err { OnErr result (log.new ≡ log.old) }
{
    match next_assumption(&s.trail, assumptions, made) {
        Next::False(l) => {
            *made = 0;
            let answer = answer_false(
                &mut s.clauses,
                &mut s.trail,
                &mut s.notes,
                &mut s.activities,
                assumptions,
                l,
                log,
            )?;
            Ok(Some(Answer::Unsat(answer)))
        }
        Next::Free(l) => {
            s.positions.assume(s.trail.len());
            decide(s, assumptions, l, log);
            Ok(None)
        }
        Next::AllTrue => Ok(settle(s, assumptions, log)),
    }
}

// Decides a variable in focus, or an open literal, or finds that every clause is true.
fn settle(s: &mut Searcher, assumptions: &Assumptions, log: &Log) -> Option<Answer>
    requires searching { IsSearching assumptions.now s.old log.now }
    requires closed { IsClosed (live_in s.old.clauses.clauses) (literals_of s.old.trail.steps) }
    requires guarded { IsAllGuarded s.old }
    requires assumed { AreTrue assumptions.now (literals_of s.old.trail.steps) }
    ensures more { (t : Literal) → holds (literals_of s.old.trail.steps) t ≡ true
        → holds (literals_of s.new.trail.steps) t ≡ true }
    ensures ok { MatchOption result (IsTurn assumptions.now s.old s.new log.now log.now)
        (λ f. IsAnswered assumptions.now s.new log.now log.now f) }
    ensures fit { HeldFit s.new.clauses.clauses s.new.resting.flags.items s.new.variables
        log.now.entries }
    ensures places { KeepsPlaces s.old s.new }
{
    match focused(s, log) {
        Some(l) => {
            s.positions.assume(s.trail.len());
            decide(s, assumptions, l, log);
            None
        }
        None => decide_open(s, assumptions, log),
    }
}

// Makes an open literal true, or finds that every clause is.
fn decide_open(s: &mut Searcher, assumptions: &Assumptions, log: &Log) -> Option<Answer>
    requires searching { IsSearching assumptions.now s.old log.now }
    requires closed { IsClosed (live_in s.old.clauses.clauses) (literals_of s.old.trail.steps) }
    requires guarded { IsAllGuarded s.old }
    requires assumed { AreTrue assumptions.now (literals_of s.old.trail.steps) }
    ensures more { (t : Literal) → holds (literals_of s.old.trail.steps) t ≡ true
        → holds (literals_of s.new.trail.steps) t ≡ true }
    ensures ok { MatchOption result (IsTurn assumptions.now s.old s.new log.now log.now)
        (λ f. IsAnswered assumptions.now s.new log.now log.now f) }
    ensures fit { HeldFit s.new.clauses.clauses s.new.resting.flags.items s.new.variables
        log.now.entries }
    ensures places { KeepsPlaces s.old s.new }
{
    match open_clause(&s.trail, &s.clauses, &s.activities, &s.positions) {
        Some(open) => {
            s.clauses.set_cursor(open.id, open.place);
            s.positions.open(open.id, s.trail.len(), s.clauses.len());
            decide(s, assumptions, open.literal, log);
            None
        }
        None => Some(Answer::Sat),
    }
}

// A literal on a variable in focus, if one has no value. Selectors aren't decided.
fn focused(s: &mut Searcher, log: &Log) -> Option<Lit>
    requires fit { HeldFit s.old.clauses.clauses s.old.resting.flags.items s.old.variables
        log.now.entries }
    ensures same { s.new ≡ record s.old { focus = s.new.focus } }
    ensures free { IfSome result (IsFree (literals_of s.old.trail.steps)) }
    ensures named { IfSome result (λ l. IsSome (name_of log.now.entries (variable_of l))) }
    ensures chosen { IfSome result (λ l. is_selector log.now.entries (variable_of l) ≡ false) }
{
    let l = s.focus.next(&s.trail)?;
    if l.var() > s.variables {
        return None;
    }
    match log.name(l.var()) {
        Name::Selector { .. } => None,
        _ => Some(l),
    }
}

fn decide(s: &mut Searcher, assumptions: &Assumptions, l: Lit, log: &Log)
    requires searching { IsSearching assumptions.now s.old log.now }
    requires closed { IsClosed (live_in s.old.clauses.clauses) (literals_of s.old.trail.steps) }
    requires guarded { IsAllGuarded s.old }
    requires free { IsFree (literals_of s.old.trail.steps) l }
    requires named { IsSome (name_of log.now.entries (variable_of l)) }
    requires chosen { (holds assumptions.now l ≡ true)
        ⊎ (AreTrue assumptions.now (literals_of s.old.trail.steps)
        × (is_selector log.now.entries (variable_of l) ≡ true → is_negative l ≡ true)) }
    ensures searching { IsSearching assumptions.now s.new log.now }
    ensures ready { IsPropagatedButNewest s.new }
    ensures longer { length s.new.trail.steps ≡ length s.old.trail.steps + 1 }
    ensures few { length s.new.trail.steps ≤ s.new.trail.room }
    ensures more { (t : Literal) → holds (literals_of s.old.trail.steps) t ≡ true
        → holds (literals_of s.new.trail.steps) t ≡ true }
    ensures places { KeepsPlaces s.old s.new }
{
    s.trail.push(Step {
        literal: l,
        reason: None,
    });
}
