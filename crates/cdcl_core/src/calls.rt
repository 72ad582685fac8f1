//! What the solver's calls rest on.

ghost use Rattle.std.specs.Prelude.{◌≡◌, ◌≤◌, ◌<◌, ◌+◌, ◌-◌, ◌++◌, ◌∷◌, ◌^◌, [], ℕ, false, length, All, IfOk, OnOk, OnErr, Ok, Err};
ghost use Rattle.dq_lits.specs.Derivation.{is_tautology};
ghost use Rattle.hint_log.specs.Conditions.{AreNamed};
ghost use Rattle.hint_log.specs.Entries.{last_id, with_entry, clause_at};
ghost use Rattle.hint_log.specs.Entries.{Given};
ghost use Rattle.learning_trail.specs.Resting.{HeldFit};
ghost use Rattle.oracle.specs.Calls.{IsMade, IsPlain, IsModelUnder, IsRefutedUnder, assumed};
ghost use Rattle.oracle.specs.Limits.{IsAtLimit};
ghost use Rattle.learning_trail.specs.Growing.{HasLearned};
ghost use Rattle.learning_trail.specs.Searching.{AreAssumptions};
ghost use Rattle.cdcl_core.specs.Solver.{value_on};
ghost use Rattle.cdcl_core.specs.Searching.{IsPropagatedButNewest, KeepsPlaces, IsSearching};

use crate::clauses::ClauseStore;
use crate::delays::is_fault;
use crate::search::search;
use crate::searchers::Searcher;
use crate::waking::wake;
use dq_lits::{Lit, Memory};
use hint_log::{Log, Origin, Stop};
use learning_trail::{Assumptions, back_to_start};
use oracle::{Answer, Group};
use std::alloc::Global;

const FIRST_TOO_LARGE: u64 = 1 << 62;

/// Room for one variable more, and its number.
pub(crate) fn grow(s: &mut Searcher) -> Result<u64, Memory>
    requires { s.old.variables < 2 ^ 62 }
    ensures next { IfOk result (λ v. v ≡ s.old.variables + 1) }
    ensures in_range { IfOk result (λ v. v < 2 ^ 62) }
    ensures variables { s.new.variables ≡ s.old.variables }
    ensures clauses { s.new.clauses.clauses ≡ s.old.clauses.clauses }
    ensures resting { s.new.resting ≡ s.old.resting }
    ensures trail { s.new.trail ≡ s.old.trail }
{
    let var = s.variables + 1;
    if var >= FIRST_TOO_LARGE {
        return Err(Memory);
    }
    s.focus.grow()?;
    s.clauses.grow(var)?;
    Ok(var)
}

/// Logs a clause that was put to the solver, and holds it.
pub(crate) fn keep_given(
    clauses: &mut ClauseStore,
    clause: &[Lit],
    origin: Origin,
    log: &mut Log,
) -> Result<u64, Memory>
    requires { AreNamed log.old.entries clause.now }
    ensures ok { OnOk result (log.new ≡ with_entry log.old (Given origin clause.now)) }
    ensures id { IfOk result (λ id. id ≡ last_id log.new.entries) }
    ensures held { OnOk result (clauses.new.clauses ≡ clauses.old.clauses ++ clause.now ∷ []) }
    ensures err { OnErr result (log.new ≡ log.old) }
    ensures err_held { OnErr result (clauses.new.clauses ≡ clauses.old.clauses) }
{
    clauses.add_cursor(clause)?;
    clauses.reserve(clause)?;
    let is_at_last = is_fault(&origin);
    let id = log.given(origin, clause)?;
    if is_at_last {
        clauses.push_last(clause);
    } else {
        clauses.push(clause);
    }
    Ok(id)
}

/// Searches for values. Where it finds some, they stay on the trail.
pub(crate) fn find(
    s: &mut Searcher,
    active: &[Group],
    assume: &[Lit],
    log: &mut Log,
) -> Result<Answer, Stop>
    requires fit { HeldFit s.old.clauses.clauses s.old.resting.flags.items s.old.variables
        log.old.entries }
    requires made { All (IsMade log.old.entries) active.now }
    requires plain { All (IsPlain log.old.entries) assume.now }
    requires apart { is_tautology assume.now ≡ false }
    requires few { s.old.variables < 2 ^ 62 }
    ensures sat { result ≡ Ok Answer.Sat → HasLearned log.old log.new
        × IsModelUnder (value_on s.new.trail.steps) (clause_at log.new.entries)
        (assumed active.now assume.now) }
    ensures unsat { (id : ℕ) → result ≡ Ok (Answer.Unsat id)
        → IsRefutedUnder log.old log.new (assumed active.now assume.now) id }
    ensures fit { HeldFit s.new.clauses.clauses s.new.resting.flags.items s.new.variables
        log.new.entries }
    ensures variables { s.new.variables ≡ s.old.variables }
    ensures stop { OnErr result (HasLearned log.old log.new) }
    ensures limit { result ≡ Err Stop.Limit → IsAtLimit log.new (assumed active.now assume.now) }
{
    back_to_start(&mut s.trail);
    wake(s, active, log)?;
    s.trail.cover(s.variables as usize)?;
    s.notes.cover(&s.trail)?;
    s.focus.begin(&s.activities)?;
    s.positions.begin();
    s.delays.begin(active);
    let assumptions = Assumptions::new(active, assume);
    let found = search_and_keep(s, &assumptions, log);
    s.focus.end();
    found
}

// Searches, and notes the values that were found of what is in focus.
fn search_and_keep(
    s: &mut Searcher,
    assumptions: &Assumptions,
    log: &mut Log,
) -> Result<Answer, Stop>
    requires searching { IsSearching assumptions.now s.old log.old }
    requires ready { IsPropagatedButNewest s.old }
    requires few_steps { length s.old.trail.steps ≤ s.old.trail.room }
    requires assumptions { AreAssumptions log.old assumptions.now }
    requires few { s.old.variables < 2 ^ 62 }
    ensures sat { result ≡ Ok Answer.Sat → HasLearned log.old log.new
        × IsModelUnder (value_on s.new.trail.steps) (clause_at log.new.entries)
        assumptions.now }
    ensures unsat { (id : ℕ) → result ≡ Ok (Answer.Unsat id)
        → IsRefutedUnder log.old log.new assumptions.now id }
    ensures fit { HeldFit s.new.clauses.clauses s.new.resting.flags.items s.new.variables
        log.new.entries }
    ensures places { KeepsPlaces s.old s.new }
    ensures stop { OnErr result (HasLearned log.old log.new) }
    ensures limit { result ≡ Err Stop.Limit → IsAtLimit log.new assumptions.now }
{
    match search(s, assumptions, log)? {
        Answer::Sat => {
            s.focus.keep(&s.trail);
            Ok(Answer::Sat)
        }
        Answer::Unsat(id) => Ok(Answer::Unsat(id)),
    }
}
