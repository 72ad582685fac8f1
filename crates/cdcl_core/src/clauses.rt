//! The clauses that a solver holds, each watched at two of its literals.
//!
//! Links, heads, ends and starts take 4 bytes as long as they fit in 32 bits; from 2^32 on a second
//! list has the higher halves. A clause that begins with the same literal as the one before belongs
//! to its run: where that literal is true, a pass skips the run, so that it takes a step for each
//! group that is off.

ghost use Rattle.std.specs.Prelude.{◌≡◌, ◌≤◌, ◌<◌, ◌-◌, ◌^◌, ◌++◌, ◌∷◌, ◌⊎◌, [], List, ℕ, None, length, true, suc, Contains, OnOk, Some, vec_capacity};
ghost use Rattle.dq_lits.specs.Literal.{Literal, positive, same_literal};
ghost use Rattle.dq_lits.specs.Derivation.{holds};
ghost use Rattle.oracle.specs.Fit.{live_in};
ghost use Rattle.cdcl_core.specs.Runs.{BeginAlike};
ghost use Rattle.learning_trail.specs.Steps.{literals_of, Grown};
ghost use Rattle.learning_trail.specs.Sound.{IsSound};
ghost use Rattle.learning_trail.specs.Passes.{AreWithin, IsPropagated};
ghost use Rattle.cdcl_core.specs.Watching.{IsWatched, CanPropagate, IsGuarded, AreLevelsGuarded, NotesShort, IsNoted};

use crate::arenas::Arena;
use crate::cursors::Cursors;
use crate::propagation::propagate;
use crate::watches::{Watches, add_watch, is_watched, make_lists, make_room, no_watches};
use dq_lits::{Lit, Memory};
use learning_trail::{Clauses, Code, Trail};
use std::alloc::Global;
use std::marker::Model;

/// Clauses in order of time, by their ids from 1 on.
#[derive(Drop)]
pub(crate) struct ClauseStore {
    arena: Arena,
    // Each clause is watched at two of its literals, where it has two that differ.
    first: Watches,
    second: Watches,
    // The ids of the other clauses, but for those of which one that stands here says the same.
    short: Vec<u64>,
    cursors: Cursors,
    // How many literals one clause more may have; there is no room for a clause where it is 0.
    spare: usize,
}

impl Model for ClauseStore {
    ghost use Rattle.cdcl_core.specs.Storage.{Stored, stored_in, IsStored};

    ghost Value = { Stored };

    ghost view = { stored_in };

    ghost invariant = { IsStored };
}

impl Clauses for ClauseStore {
    ghost use Rattle.cdcl_core.specs.Storage.{HasLists};

    ghost clauses = { λ s. s.clauses };

    ghost HasRoom = { λ s lits. (length lits < s.spare) × HasLists s lits };

    fn lits(&self, id: u64) -> &[Code] {
        self.arena.lits(id)
    }

    fn make_room(&mut self, lits: &[Lit]) -> Result<(), Memory> {
        self.reserve(lits)
    }

    fn add(&mut self, lits: &[Lit]) {
        self.push(lits);
    }
}

impl ClauseStore {
    ghost use Rattle.cdcl_core.specs.Storage.{HasLists, IsListed};

    /// No clauses. It takes no memory.
    pub(crate) fn new(alloc: Global) -> ClauseStore
        ensures { result.clauses ≡ [] }
    {
        ClauseStore {
            arena: Arena::new(alloc),
            first: no_watches(alloc),
            second: no_watches(alloc),
            short: Vec::new(alloc),
            cursors: Cursors::new(alloc),
            spare: 0,
        }
    }

    /// How many clauses there are.
    pub(crate) fn len(&self) -> u64
        ensures { result ≡ length self.now.clauses }
    {
        self.arena.len()
    }

    /// Of the clauses up to an id that begin with the same literal, one behind the other: the id
    /// before theirs.
    pub(crate) fn start(&self, id: u64) -> u64
        requires from_one { 1 ≤ id }
        requires is_id { id ≤ length self.now.clauses }
        ensures before { result < id }
        ensures same { BeginAlike self.now.clauses result id }
    {
        self.arena.start(id)
    }

    /// The literals that the clause with an id is watched at.
    pub(crate) fn watched(&self, id: u64) -> Watched
        requires from_one { 1 ≤ id }
        requires is_id { id ≤ length self.now.clauses }
        ensures { (c : List Literal) → live_in self.now.clauses id ≡ Some c
            → IsWatched c result.first result.second }
    {
        Watched {
            first: self.first.literals[id as usize - 1],
            second: self.second.literals[id as usize - 1],
        }
    }

    /// Whether some clause is watched at the negation of a literal.
    pub(crate) fn is_opposed(&self, l: Code) -> bool {
        let negation = Code::of(l.lit().not());
        is_watched(&self.first, negation) || is_watched(&self.second, negation)
    }

    /// A place to decide a literal of the next clause from, if it is long.
    pub(crate) fn add_cursor(&mut self, lits: &[Lit]) -> Result<(), Memory>
        ensures clauses { self.new.clauses ≡ self.old.clauses }
    {
        self.cursors.add(self.arena.len() + 1, lits)
    }

    /// Where a long clause is to be looked at for a literal to decide.
    pub(crate) fn cursor(&self, id: u64, lits: &[Code]) -> Option<usize> {
        self.cursors.decided(id, lits)
    }

    /// Notes where a literal to decide was found.
    pub(crate) fn set_cursor(&mut self, id: u64, place: usize)
        ensures { self.new ≡ self.old }
    {
        self.cursors.decide(id, place);
    }

    /// Makes lists for the literals of a variable.
    pub(crate) fn grow(&mut self, variable: u64) -> Result<(), Memory>
        requires { variable < 2 ^ 62 }
        ensures clauses { self.new.clauses ≡ self.old.clauses }
        ensures first { self.new.first ≡ self.old.first }
        ensures second { self.new.second ≡ self.old.second }
    {
        self.spare = 0;
        make_lists(&mut self.first, variable)?;
        make_lists(&mut self.second, variable)?;
        Ok(())
    }

    /// Makes room for a clause of these literals.
    pub(crate) fn reserve(&mut self, lits: &[Lit]) -> Result<(), Memory>
        ensures clauses { self.new.clauses ≡ self.old.clauses }
        ensures first { self.new.first ≡ self.old.first }
        ensures second { self.new.second ≡ self.old.second }
        ensures spare { OnOk result (length lits.now < self.new.spare) }
        ensures lists { OnOk result (HasLists self.new lits.now) }
    {
        self.spare = 0;
        make_room(&mut self.first, lits)?;
        make_room(&mut self.second, lits)?;
        self.short.reserve(1)?;
        self.cursors.grow(self.arena.len() + 1)?;
        self.arena.reserve(lits)?;
        self.spare = lits.len() + 1;
        Ok(())
    }

    /// Adds a clause that there is room for.
    pub(crate) fn push(&mut self, lits: &[Lit])
        requires spare { length lits.now < self.old.spare }
        requires lists { HasLists self.old lits.now }
        ensures { self.new.clauses ≡ self.old.clauses ++ lits.now ∷ [] }
    {
        self.push_watched(lits, watched_of(lits));
    }

    /// Adds a clause that there is room for, watched second at its last literal, where the first one
    /// differs from it.
    pub(crate) fn push_last(&mut self, lits: &[Lit])
        requires spare { length lits.now < self.old.spare }
        requires lists { HasLists self.old lits.now }
        ensures { self.new.clauses ≡ self.old.clauses ++ lits.now ∷ [] }
    {
        self.push_watched(lits, ends_of(lits));
    }

    /// Adds a clause that there is room for, watched at these literals.
    pub(crate) fn push_watched(&mut self, lits: &[Lit], watched: Watched)
        requires spare { length lits.now < self.old.spare }
        requires lists { HasLists self.old lits.now }
        requires first_list { IsListed self.old watched.first }
        requires second_list { IsListed self.old watched.second }
        requires watched { IsWatched lits.now watched.first watched.second }
        ensures clauses { self.new.clauses ≡ self.old.clauses ++ lits.now ∷ [] }
        ensures first { self.new.first ≡ self.old.first ++ watched.first ∷ [] }
        ensures second { self.new.second ≡ self.old.second ++ watched.second ∷ [] }
        ensures count { length self.old.first ≡ length self.old.clauses }
        ensures second_count { length self.old.second ≡ length self.old.clauses }
    {
        self.spare = 0;
        let noted = is_noted(&self.short, &self.first, lits, watched.first);
        self.arena.push(lits);
        add_watch(&mut self.first, watched.first);
        add_watch(&mut self.second, watched.second);
        note_short(&mut self.short, watched, noted, self.arena.len());
    }

    /// Propagates to the end, or to a falsified clause, whose id it answers. All literals but the
    /// newest one were processed. Clauses that are watched second at a false literal may wait.
    pub(crate) fn propagate(&mut self, trail: &mut Trail, waits: bool) -> Option<u64>
        requires in_range { AreWithin trail.old.room self.old.clauses }
        requires sound { IsSound (live_in self.old.clauses) trail.old.steps }
        requires few { length trail.old.steps ≤ trail.old.room }
        requires ready { CanPropagate self.old.clauses self.old.first self.old.second trail.old.steps }
        ensures clauses { self.new.clauses ≡ self.old.clauses }
        ensures room { trail.new.room ≡ trail.old.room }
        ensures sound { IsSound (live_in self.new.clauses) trail.new.steps }
        ensures grown { Grown trail.old.steps trail.new.steps }
        ensures few { length trail.new.steps ≤ trail.new.room }
        ensures levels { AreLevelsGuarded self.new.clauses self.new.first self.new.second
            trail.new.steps }
        ensures guarded { result ≡ None
            → IsGuarded self.new.clauses self.new.first self.new.second
            (literals_of trail.new.steps) (literals_of trail.new.steps) }
        ensures ended { IsPropagated (live_in self.new.clauses) trail.new result }
    {
        self.spare = 0;
        propagate(
            trail,
            &self.arena,
            &mut self.first,
            &mut self.second,
            &self.short,
            &mut self.cursors,
            waits,
        )
    }
}

/// Two literals that a clause is watched at.
#[derive(Clone, Copy)]
pub(crate) struct Watched {
    pub(crate) first: Code,
    pub(crate) second: Code,
}

// The first literal of a clause, and the first that differs from it; some literal, where it has
// none.
fn watched_of(lits: &[Lit]) -> Watched
    ensures watched { IsWatched lits.now result.first result.second }
    ensures first { (result.first ≡ positive 1) ⊎ (holds lits.now result.first ≡ true) }
    ensures second { (result.second ≡ positive 1) ⊎ (holds lits.now result.second ≡ true) }
{
    match lits.first() {
        Some(l) => Watched {
            first: Code::of(*l),
            second: Code::of(other_of(lits, *l)),
        },
        None => Watched {
            first: Code::of(Lit::pos(1)),
            second: Code::of(Lit::pos(1)),
        },
    }
}

// The first literal of a clause and the last one, where they differ.
fn ends_of(lits: &[Lit]) -> Watched
    ensures watched { IsWatched lits.now result.first result.second }
    ensures first { (result.first ≡ positive 1) ⊎ (holds lits.now result.first ≡ true) }
    ensures second { (result.second ≡ positive 1) ⊎ (holds lits.now result.second ≡ true) }
{
    if lits.len() < 2 {
        return watched_of(lits);
    }
    let first = lits[0];
    let last = lits[lits.len() - 1];
    if first == last {
        return watched_of(lits);
    }
    Watched {
        first: Code::of(first),
        second: Code::of(last),
    }
}

// The first literal that differs from one of them; that one, where there is none.
fn other_of(lits: &[Lit], l: Lit) -> Lit
    requires { holds lits.now l ≡ true }
    ensures watched { IsWatched lits.now l result }
    ensures among { holds lits.now result ≡ true }
{
    for k in lits {
        if l != *k {
            return *k;
        }
    }
    l
}

// Notes a clause that is watched at one literal alone, unless one is noted that says the same: a formula
// that is refuted again and again gets the same answer, and a search passes it once.
fn note_short(short: &mut Vec<u64>, watched: Watched, is_noted: bool, id: u64)
    requires { length short.old.items < vec_capacity short.old }
    ensures { NotesShort short.old.items short.new.items watched.first watched.second is_noted id }
{
    if watched.first == watched.second && !is_noted && short.push(id).is_err() {
        unreachable!();
    }
}

// Whether the last clause that was noted is watched at a literal, as a clause is that isn't empty.
fn is_noted(short: &[u64], first: &Watches, lits: &[Lit], l: Code) -> bool
    requires { (x : ℕ) → Contains short.now x → (1 ≤ x) × (x ≤ length first.now.literals.items) }
    ensures { result ≡ true → IsNoted first.now.literals.items short.now lits.now l }
{
    match short.last() {
        Some(id) => !lits.is_empty() && first.literals[*id as usize - 1] == l,
        None => false,
    }
}
