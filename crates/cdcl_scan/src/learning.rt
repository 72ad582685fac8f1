//! What a conflict teaches goes into the log and the clauses, and the trail goes on from there.

ghost use Rattle.std.specs.Prelude.{◌≡◌, ◌≤◌, ◌<◌, ◌+◌, ◌++◌, ◌∷◌, [], false, length, IfOk, OnOk, OnErr, Some, Err, IsErrOf};
ghost use Rattle.dq_lits.specs.Derivation.{holds, status_of, falsified};
ghost use Rattle.hint_log.specs.Conditions.{AreNamed, AreIds};
ghost use Rattle.hint_log.specs.Entries.{steps_of, last_id, with_entry};
ghost use Rattle.hint_log.specs.Entries.{Learned};
ghost use Rattle.oracle.specs.Fit.{live_in};
ghost use Rattle.oracle.specs.Limits.{IsAtLimit};
ghost use Rattle.learning_trail.specs.Growing.{HasLearned};
ghost use Rattle.learning_trail.specs.Resting.{HeldFit};
ghost use Rattle.learning_trail.specs.Steps.{literals_of, decision_of};
ghost use Rattle.cdcl_scan.specs.Searching.{HasTurned, KeepsPlaces, IsSearching};

use crate::clauses::ClauseStore;
use crate::searchers::Searcher;
use dq_lits::Lit;
use hint_log::{Log, Stop};
use learning_trail::{Assumptions, Clauses, Notes, analyse, land};

/// Learns from a falsified clause, and goes back to where what was learned is unit, or begins anew.
pub(crate) fn learn(
    s: &mut Searcher,
    assumptions: &Assumptions,
    decision: Lit,
    conflict: u64,
    log: &mut Log,
) -> Result<(), Stop>
    requires searching { IsSearching assumptions.now s.old log.old }
    requires few { length s.old.trail.steps ≤ s.old.trail.room }
    requires conflict { status_of (literals_of s.old.trail.steps)
        (live_in s.old.clauses.clauses conflict) ≡ falsified }
    requires decided { decision_of s.old.trail.steps ≡ Some decision }
    requires chosen { holds assumptions.now decision ≡ false }
    ensures ok { OnOk result (HasTurned assumptions.now s.old s.new log.old log.new) }
    ensures step { OnOk result (steps_of log.new.entries ≡ steps_of log.old.entries + 1) }
    ensures few { OnOk result (length s.new.trail.steps ≤ s.new.trail.room) }
    ensures places { KeepsPlaces s.old s.new }
    ensures fit { HeldFit s.new.clauses.clauses [] s.new.variables log.new.entries }
    ensures learned { HasLearned log.old log.new }
    ensures limit { result ≡ Err Stop.Limit → IsAtLimit log.new assumptions.now }
{
    let first = analyse(
        &mut s.trail,
        &s.clauses,
        &mut s.notes,
        &mut s.activities,
        conflict,
    )?;
    s.activities.decay();
    let id = keep(&mut s.clauses, &s.notes, log)?;
    let is_due = s.restarts.is_due();
    land(&mut s.trail, &s.notes, &first, id, is_due);
    Ok(())
}

// Logs the clause that was learned, and holds it.
fn keep(clauses: &mut ClauseStore, notes: &Notes, log: &mut Log) -> Result<u64, Stop>
    requires named { AreNamed log.old.entries notes.now.literals }
    requires hints { AreIds log.old.entries notes.now.hints }
    ensures ok { OnOk result
        (log.new ≡ with_entry log.old (Learned notes.now.literals notes.now.hints)) }
    ensures id { IfOk result (λ id. id ≡ last_id log.old.entries + 1) }
    ensures held { OnOk result
        (clauses.new.clauses ≡ clauses.old.clauses ++ notes.now.literals ∷ []) }
    ensures err { OnErr result (log.new ≡ log.old) }
    ensures err_held { OnErr result (clauses.new.clauses ≡ clauses.old.clauses) }
    ensures limit { IsErrOf result Stop.Limit → steps_of log.old.entries ≡ log.old.limit }
{
    clauses.make_room(notes.literals())?;
    let id = log.learned(notes.literals(), notes.hints())?;
    clauses.add(notes.literals());
    Ok(id)
}
