//! What a conflict teaches goes into the log and the clauses, and the trail goes on from there.

ghost use Rattle.std.specs.Prelude.{◌≡◌, ◌≤◌, ◌<◌, ◌+◌, ◌++◌, ◌∷◌, [], true, false, length, IfOk, OnOk, OnErr, Some, IfSome, Err, IsErrOf};
ghost use Rattle.dq_lits.specs.Literal.{opposite, same_literal};
ghost use Rattle.dq_lits.specs.Derivation.{holds, status_of, falsified};
ghost use Rattle.hint_log.specs.Conditions.{AreNamed, AreIds};
ghost use Rattle.hint_log.specs.Entries.{steps_of, last_id, with_entry};
ghost use Rattle.hint_log.specs.Entries.{Learned};
ghost use Rattle.oracle.specs.Fit.{live_in};
ghost use Rattle.learning_trail.specs.Resting.{HeldFit};
ghost use Rattle.oracle.specs.Limits.{IsAtLimit};
ghost use Rattle.learning_trail.specs.Growing.{HasLearned};
ghost use Rattle.learning_trail.specs.Steps.{literals_of, decision_of};
ghost use Rattle.cdcl_core.specs.Searching.{HasTurned, KeepsPlaces, IsSearching};
ghost use Rattle.cdcl_core.specs.Storage.{HasLists, IsHeldWatched};

use crate::clauses::{ClauseStore, Watched};
use crate::positions::Positions;
use crate::searchers::Searcher;
use dq_lits::Lit;
use hint_log::{Log, Stop};
use learning_trail::{
    Assumptions, Code, Notes, Restarts, Step, Trail, analyse, land, newest_place,
};

/// Learns from a falsified clause, and goes back to where what was learned is unit, or begins anew.
pub(crate) fn learn(
    s: &mut Searcher,
    assumptions: &Assumptions,
    decision: Lit,
    conflict: u64,
    log: &mut Log,
) -> Result<(), Stop>
    requires searching { IsSearching assumptions.now s.old log.old }
    requires few { length s.old.trail.steps ≤ s.old.trail.room }
    requires conflict { status_of (literals_of s.old.trail.steps)
        (live_in s.old.clauses.clauses conflict) ≡ falsified }
    requires decided { decision_of s.old.trail.steps ≡ Some decision }
    requires chosen { holds assumptions.now decision ≡ false }
    ensures ok { OnOk result (HasTurned assumptions.now s.old s.new log.old log.new) }
    ensures step { OnOk result (steps_of log.new.entries ≡ steps_of log.old.entries + 1) }
    ensures few { OnOk result (length s.new.trail.steps ≤ s.new.trail.room) }
    ensures places { KeepsPlaces s.old s.new }
    ensures fit { HeldFit s.new.clauses.clauses s.new.resting.flags.items s.new.variables
        log.new.entries }
    ensures learned { HasLearned log.old log.new }
    ensures limit { result ≡ Err Stop.Limit → IsAtLimit log.new assumptions.now }
{
    let first = analyse(
        &mut s.trail,
        &s.clauses,
        &mut s.notes,
        &mut s.activities,
        conflict,
    )?;
    s.activities.decay();
    let id = log_clause(&mut s.clauses, &s.notes, log)?;
    let is_due = is_restart_due(&mut s.restarts, &s.trail, &s.notes, &s.positions);
    let level = land(&mut s.trail, &s.notes, &first, id, is_due);
    hold(&mut s.clauses, &s.notes, &first, &level);
    s.focus.back(s.trail.len().wrapping_sub(1));
    s.positions.back(s.trail.len().wrapping_sub(1), id);
    Ok(())
}

// Whether the search begins anew. It goes back to the assumptions then; where it does so anyway,
// they stay.
fn is_restart_due(
    restarts: &mut Restarts,
    trail: &Trail,
    notes: &Notes,
    positions: &Positions,
) -> bool {
    if !restarts.is_due() {
        return false;
    }
    match newest_place(trail, notes.literals()) {
        Some(place) => positions.is_free(place),
        None => true,
    }
}

// Logs the clause that was learned, and makes room for it.
fn log_clause(clauses: &mut ClauseStore, notes: &Notes, log: &mut Log) -> Result<u64, Stop>
    requires named { AreNamed log.old.entries notes.now.literals }
    requires hints { AreIds log.old.entries notes.now.hints }
    ensures ok { OnOk result
        (log.new ≡ with_entry log.old (Learned notes.now.literals notes.now.hints)) }
    ensures id { IfOk result (λ id. id ≡ last_id log.old.entries + 1) }
    ensures clauses { clauses.new.clauses ≡ clauses.old.clauses }
    ensures first { clauses.new.first ≡ clauses.old.first }
    ensures second { clauses.new.second ≡ clauses.old.second }
    ensures spare { OnOk result (length notes.now.literals < clauses.new.spare) }
    ensures lists { OnOk result (HasLists clauses.new notes.now.literals) }
    ensures err { OnErr result (log.new ≡ log.old) }
    ensures limit { IsErrOf result Stop.Limit → steps_of log.old.entries ≡ log.old.limit }
{
    clauses.reserve(notes.literals())?;
    let id = log.learned(notes.literals(), notes.hints())?;
    Ok(id)
}

// Holds the clause learned from a step, watched at its own literal and at one of the newest level.
fn hold(clauses: &mut ClauseStore, notes: &Notes, first: &Step, level: &Option<Lit>)
    requires spare { length notes.now.literals < clauses.old.spare }
    requires lists { HasLists clauses.old notes.now.literals }
    requires first { holds notes.now.literals (opposite first.now.literal) ≡ true }
    requires second { IfSome level.now (λ l. (holds notes.now.literals (opposite l) ≡ true)
        × (same_literal (opposite first.now.literal) (opposite l) ≡ false)) }
    ensures held { clauses.new.clauses ≡ clauses.old.clauses ++ notes.now.literals ∷ [] }
    ensures watched { IfSome level.now
        (λ l. IsHeldWatched clauses.old clauses.new (opposite first.now.literal) (opposite l)) }
{
    match level {
        None => clauses.push(notes.literals()),
        Some(l) => clauses.push_watched(
            notes.literals(),
            Watched {
                first: Code::of(first.literal.not()),
                second: Code::of(l.not()),
            },
        ),
    }
}
