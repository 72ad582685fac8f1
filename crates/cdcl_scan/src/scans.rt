//! Propagation, by scans of all clauses held.
//!
//! Passes are made until one is quiet. A pass goes from run to run, and passes over a run whose
//! shared literal is true: its clauses are satisfied. That every literal's reason was unit where it
//! was made true is kept by each step of the trail; that no clause is unit or falsified at the end
//! is what the last, quiet pass shows.

ghost use Rattle.std.specs.Prelude.{◌≡◌, ◌≤◌, true, length, IfSome};
ghost use Rattle.oracle.specs.Fit.{live_in};
ghost use Rattle.dq_lits.specs.Literal.{variable_of};
ghost use Rattle.cdcl_scan.specs.Runs.{IsRun, IsSharedTrue};
ghost use Rattle.learning_trail.specs.Steps.{literals_of, Grown};
ghost use Rattle.learning_trail.specs.Sound.{IsSound};
ghost use Rattle.learning_trail.specs.Passes.{AreWithin, IsPropagated};
ghost use Rattle.cdcl_scan.specs.Passes.{IsPassed, IsRunPassed};

use crate::clauses::{ClauseStore, Run};
use crate::passes::Pass;
use dq_lits::{Lit, TruthValue};
use learning_trail::{ClauseStatus, Clauses, Step, Trail, status_of};

/// Propagates to the end, or to a falsified clause, whose id it answers.
pub(crate) fn propagate(trail: &mut Trail, clauses: &ClauseStore) -> Option<u64>
    requires in_range { AreWithin trail.old.room clauses.now.clauses }
    requires sound { IsSound (live_in clauses.now.clauses) trail.old.steps }
    requires few { length trail.old.steps ≤ trail.old.room }
    ensures room { trail.new.room ≡ trail.old.room }
    ensures sound { IsSound (live_in clauses.now.clauses) trail.new.steps }
    ensures grown { Grown trail.old.steps trail.new.steps }
    ensures few { length trail.new.steps ≤ trail.new.room }
    ensures ended { IsPropagated (live_in clauses.now.clauses) trail.new result }
{
    'passes: loop {
        match pass_once(trail, clauses) {
            Pass::Conflict(id) => return Some(id),
            Pass::More => {}
            Pass::Quiet => return None,
        }
    }
}

// Makes the literals of unit clauses true, in one pass over all runs.
fn pass_once(trail: &mut Trail, clauses: &ClauseStore) -> Pass
    requires in_range { AreWithin trail.old.room clauses.now.clauses }
    requires sound { IsSound (live_in clauses.now.clauses) trail.old.steps }
    ensures room { trail.new.room ≡ trail.old.room }
    ensures sound { IsSound (live_in clauses.now.clauses) trail.new.steps }
    ensures grown { Grown trail.old.steps trail.new.steps }
    ensures few { length trail.old.steps ≤ trail.old.room
        → length trail.new.steps ≤ trail.old.room }
    ensures passed { IsPassed (live_in clauses.now.clauses) trail.old trail.new result }
{
    let mut quiet = true;
    let mut first = 0;
    let runs = clauses.runs();
    for run in runs {
        match pass_run(trail, clauses, first, *run) {
            Pass::Conflict(id) => return Pass::Conflict(id),
            Pass::More => quiet = false,
            Pass::Quiet => {}
        }
        first = run.last;
    }
    if quiet { Pass::Quiet } else { Pass::More }
}

// The same for one run, which begins behind these first clauses.
fn pass_run(trail: &mut Trail, clauses: &ClauseStore, first: u64, run: Run) -> Pass
    requires in_range { AreWithin trail.old.room clauses.now.clauses }
    requires sound { IsSound (live_in clauses.now.clauses) trail.old.steps }
    requires run { IsRun first run clauses.now.clauses }
    requires last { run.last ≤ length clauses.now.clauses }
    ensures room { trail.new.room ≡ trail.old.room }
    ensures sound { IsSound (live_in clauses.now.clauses) trail.new.steps }
    ensures grown { Grown trail.old.steps trail.new.steps }
    ensures few { length trail.old.steps ≤ trail.old.room
        → length trail.new.steps ≤ trail.old.room }
    ensures passed { IsRunPassed (live_in clauses.now.clauses) trail.old trail.new first run.last
        result }
{
    if is_satisfied(trail, &run.shared) {
        return Pass::Quiet;
    }
    pass_clauses(trail, clauses, first, run.last)
}

// Whether a literal is true.
fn is_satisfied(trail: &Trail, shared: &Option<Lit>) -> bool
    requires { IfSome shared.now (λ l. variable_of l ≤ trail.now.room) }
    ensures { result ≡ true → IsSharedTrue (literals_of trail.now.steps) shared.now }
{
    match shared {
        None => false,
        Some(l) => match trail.value(*l) {
            TruthValue::True => true,
            TruthValue::False => false,
            TruthValue::Unassigned => false,
        },
    }
}

fn pass_clauses(trail: &mut Trail, clauses: &ClauseStore, first: u64, last: u64) -> Pass
    requires in_range { AreWithin trail.old.room clauses.now.clauses }
    requires sound { IsSound (live_in clauses.now.clauses) trail.old.steps }
    requires last { last ≤ length clauses.now.clauses }
    requires from { first ≤ last }
    ensures room { trail.new.room ≡ trail.old.room }
    ensures sound { IsSound (live_in clauses.now.clauses) trail.new.steps }
    ensures grown { Grown trail.old.steps trail.new.steps }
    ensures few { length trail.old.steps ≤ trail.old.room
        → length trail.new.steps ≤ trail.old.room }
    ensures passed { IsRunPassed (live_in clauses.now.clauses) trail.old trail.new first last
        result }
{
    let mut quiet = true;
    for at in first..last {
        match status_of(trail, clauses.lits(at + 1)) {
            ClauseStatus::Falsified => return Pass::Conflict(at + 1),
            ClauseStatus::Unit(l) => {
                trail.push(Step {
                    literal: l,
                    reason: Some(at + 1),
                });
                quiet = false;
            }
            ClauseStatus::Stuck => {}
        }
    }
    if quiet { Pass::Quiet } else { Pass::More }
}
