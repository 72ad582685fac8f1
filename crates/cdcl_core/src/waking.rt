//! What rests is put aside, and taken up again: in the place of each clause with the negated
//! selector of a group that rests, the solver holds one of two such selectors. No search makes one of
//! them false, so that propagation never comes to such a clause; all of them begin alike, so that a
//! look for an open clause passes them in one step. The log has the clauses themselves.
//!
//! What is held goes with the log place by place, but for placeholders of groups that rest. That no
//! placeholder is hinted follows from what an analysis keeps anyway: selectors of hinted clauses
//! are negated assumptions.

ghost use Rattle.std.specs.Prelude.{◌≡◌, ◌≤◌, ◌<◌, ◌+◌, ◌^◌, ◌++◌, ◌∷◌, ◌&&◌, [], ℕ, true, length, IfOk, OnOk, IfSome, Some, IsSome};
ghost use Rattle.std.specs.List.{list_any};
ghost use Rattle.dq_lits.specs.Literal.{variable_of, is_negative};
ghost use Rattle.hint_log.specs.Conditions.{IsId};
ghost use Rattle.hint_log.specs.Entries.{last_id, name_of};
ghost use Rattle.hint_log.specs.declared.names.Name.TheVariants.{Selector};
ghost use Rattle.learning_trail.specs.Resting.{rests, IsPlaceholder, HeldFit};
ghost use Rattle.cdcl_core.specs.Waking.{AreSelectors, AreActiveAwake, HoldsPut, IsPutAs};

use crate::clauses::ClauseStore;
use crate::searchers::Searcher;
use dq_lits::{Lit, Memory};
use hint_log::{Log, Name};
use learning_trail::Activities;
use oracle::Group;
use std::alloc::Global;

/// Wakes the groups that a search has. Where none of them rests, groups that no search had for long
/// are put to rest now and then.
pub(crate) fn wake(s: &mut Searcher, active: &[Group], log: &Log) -> Result<(), Memory>
    requires fit { HeldFit s.old.clauses.clauses s.old.resting.flags.items s.old.variables
        log.now.entries }
    requires few { s.old.variables < 2 ^ 62 }
    ensures fit { HeldFit s.new.clauses.clauses s.new.resting.flags.items s.new.variables
        log.now.entries }
    ensures same { s.new ≡ record s.old { clauses = s.new.clauses; resting = s.new.resting } }
    ensures awake { OnOk result (AreActiveAwake s.new.resting.flags.items active.now) }
{
    s.resting.note(active);
    if is_any_resting(&s.resting.flags, active) {
        return wake_all(s, log);
    }
    if s.resting.is_due(log.last_id()) {
        let _rested = put_to_rest(s, active, log);
    }
    Ok(())
}

// Wakes all groups.
fn wake_all(s: &mut Searcher, log: &Log) -> Result<(), Memory>
    requires fit { HeldFit s.old.clauses.clauses s.old.resting.flags.items s.old.variables
        log.now.entries }
    ensures fit { HeldFit s.new.clauses.clauses s.new.resting.flags.items s.new.variables
        log.now.entries }
    ensures same { s.new ≡ record s.old { clauses = s.new.clauses; resting = s.new.resting } }
    ensures awake { OnOk result (s.new.resting.flags.items ≡ []) }
{
    let clauses = store_of(s.alloc, &[], &s.activities, log)?;
    s.clauses = clauses;
    s.resting.wake();
    Ok(())
}

// Puts groups to rest that no search had for long, where more do than before, and none of them is
// active. Where memory is refused, all stays as it is.
fn put_to_rest(s: &mut Searcher, active: &[Group], log: &Log) -> Result<(), Memory>
    requires fit { HeldFit s.old.clauses.clauses s.old.resting.flags.items s.old.variables
        log.now.entries }
    requires few { s.old.variables < 2 ^ 62 }
    requires awake { AreActiveAwake s.old.resting.flags.items active.now }
    ensures fit { HeldFit s.new.clauses.clauses s.new.resting.flags.items s.new.variables
        log.now.entries }
    ensures same { s.new ≡ record s.old { clauses = s.new.clauses; resting = s.new.resting } }
    ensures awake { AreActiveAwake s.new.resting.flags.items active.now }
{
    let flags = idle_groups(s, log)?;
    if !s.resting.is_more(&flags) || is_any_resting(&flags, active) {
        return Ok(());
    }
    let clauses = store_of(s.alloc, &flags, &s.activities, log)?;
    s.clauses = clauses;
    s.resting.flags = flags;
    Ok(())
}

// Whether one of these groups rests.
fn is_any_resting(flags: &[bool], active: &[Group]) -> bool
    ensures { result ≡ list_any (λ g. rests flags.now (variable_of g.selector)) active.now }
{
    active.iter().any(|g| is_resting(flags, g.selector.var()))
}

fn is_resting(flags: &[bool], v: u64) -> bool
    ensures { result ≡ rests flags.now v }
{
    let place = v as usize;
    place < flags.len() && flags[place]
}

// The selectors of the groups that are idle.
fn idle_groups(s: &Searcher, log: &Log) -> Result<Vec<bool>, Memory>
    requires named { (v : ℕ) → 1 ≤ v → v ≤ s.now.variables → IsSome (name_of log.now.entries v) }
    requires few { s.now.variables < 2 ^ 62 }
    ensures selectors { IfOk result (λ flags. AreSelectors log.now.entries flags.items) }
    ensures few { IfOk result (λ flags. length flags.items ≤ 2 ^ 62) }
{
    let mut flags = Vec::new(s.alloc);
    flags.push(false)?;
    for v in 1..s.variables + 1 {
        flags.push(s.resting.is_idle(v) && is_selector(log, v))?;
    }
    Ok(flags)
}

fn is_selector(log: &Log, v: u64) -> bool
    requires { IsSome (name_of log.now.entries v) }
    ensures { result ≡ true → name_of log.now.entries v ≡ Some (Selector v) }
{
    match log.name(v) {
        Name::Selector { group } => group == v,
        _ => false,
    }
}

// Two negated selectors of groups that rest.
#[derive(Clone, Copy)]
struct Pair {
    first: Lit,
    second: Lit,
}

// The clauses of the log, and for those of groups that rest two of their negated selectors, the more
// active one first: that one will be decided.
fn store_of(
    alloc: Global,
    flags: &[bool],
    activities: &Activities,
    log: &Log,
) -> Result<ClauseStore, Memory>
    requires { length flags.now ≤ 2 ^ 62 }
    ensures { IfOk result
        (λ store. HoldsPut flags.now log.now.entries store.clauses (last_id log.now.entries)) }
{
    let pair = pair_of(flags, activities);
    let mut store = ClauseStore::new(alloc);
    for id in 1..log.last_id() + 1 {
        put_clause(&mut store, flags, &pair, log, id)?;
    }
    Ok(store)
}

// Adds a clause of the log, or what is held in its place.
fn put_clause(
    store: &mut ClauseStore,
    flags: &[bool],
    pair: &Option<Pair>,
    log: &Log,
    id: u64,
) -> Result<(), Memory>
    requires id { IsId log.now.entries id }
    requires pair { IfSome pair.now (λ p. IsPlaceholder flags.now (p.first ∷ p.second ∷ [])) }
    ensures { OnOk result
        (IsPutAs flags.now log.now.entries id store.old.clauses store.new.clauses) }
{
    let clause = log.clause(id);
    match pair {
        Some(pair) => {
            if is_put_aside(flags, clause) {
                add(store, &[pair.first, pair.second])
            } else {
                add(store, clause)
            }
        }
        None => add(store, clause),
    }
}

// Whether a clause has the negated selector of a group that rests.
fn is_put_aside(flags: &[bool], clause: &[Lit]) -> bool
    ensures { result ≡ list_any (λ l. is_negative l && rests flags.now (variable_of l)) clause.now }
{
    clause
        .iter()
        .any(|l| l.is_neg() && is_resting(flags, l.var()))
}

// Adds a clause.
fn add(store: &mut ClauseStore, clause: &[Lit]) -> Result<(), Memory>
    ensures { OnOk result (store.new.clauses ≡ store.old.clauses ++ clause.now ∷ []) }
{
    store.add_cursor(clause)?;
    store.reserve(clause)?;
    store.push(clause);
    Ok(())
}

// Two negated selectors of groups that rest, if there are two.
fn pair_of(flags: &[bool], activities: &Activities) -> Option<Pair>
    requires { length flags.now ≤ 2 ^ 62 }
    ensures { IfSome result (λ p. IsPlaceholder flags.now (p.first ∷ p.second ∷ [])) }
{
    let v = first_from(flags, 1)?;
    let w = first_from(flags, v + 1)?;
    let first = Lit::neg(v as u64);
    let second = Lit::neg(w as u64);
    if activities.is_more_active(second, first) {
        return Some(Pair {
            first: second,
            second: first,
        });
    }
    Some(Pair { first, second })
}

// The first flag that is set, from a place on.
fn first_from(flags: &[bool], from: usize) -> Option<usize>
    ensures { IfSome result
        (λ v. (from ≤ v) × (v < length flags.now) × (rests flags.now v ≡ true)) }
{
    for v in from..flags.len() {
        if flags[v] {
            return Some(v);
        }
    }
    None
}
