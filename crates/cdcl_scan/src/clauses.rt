//! The clauses that a solver holds, flat: all literals stand in one list.

ghost use Rattle.std.specs.Prelude.{◌≡◌, ◌≤◌, ◌<◌, ◌+◌, ◌++◌, ◌∷◌, [], List, true, length, OnOk, Some, slice_get, vec_capacity};
ghost use Rattle.dq_lits.specs.Literal.{Literal};
ghost use Rattle.dq_lits.specs.Derivation.{holds};
ghost use Rattle.oracle.specs.Fit.{live_in};
ghost use Rattle.cdcl_scan.specs.Runs.{Shares, AreRuns};
ghost use Rattle.learning_trail.specs.Pieces.{pieces, AreEnds, start_of};

use dq_lits::{Lit, Memory};
use learning_trail::{Clauses, Code, holds};
use std::alloc::Global;
use std::marker::Model;

/// Neighbouring clauses that share a literal: where it is true, all of them are.
///
/// The clauses of a group share its negated selector, so that a whole group that isn't active is
/// passed over at once.
#[derive(Clone, Copy)]
pub(crate) struct Run {
    /// None, where the clause is empty.
    pub(crate) shared: Option<Lit>,
    /// The id of the last clause.
    pub(crate) last: u64,
}

/// Clauses in order of time, by their ids from 1 on.
#[derive(Drop)]
pub(crate) struct ClauseStore {
    // The literals of all clauses, in order.
    literals: Vec<Code>,
    // Where the literals of each clause end.
    ends: Vec<usize>,
    runs: Vec<Run>,
    // How many literals one clause more may have; there is no room for a clause where it is 0.
    spare: usize,
}

impl Model for ClauseStore {
    ghost use Rattle.cdcl_scan.specs.Storage.{Stored, stored_in, IsStored};

    ghost Value = { Stored };

    ghost view = { stored_in };

    ghost invariant = { IsStored };
}

impl Clauses for ClauseStore {
    ghost clauses = { λ s. s.clauses };

    ghost HasRoom = { λ s lits. length lits < s.spare };

    fn lits(&self, id: u64) -> &[Code] {
        piece(&self.literals, &self.ends, id as usize - 1)
    }

    fn make_room(&mut self, lits: &[Lit]) -> Result<(), Memory> {
        self.spare = 0;
        self.literals.reserve(lits.len())?;
        self.ends.reserve(1)?;
        self.runs.reserve(1)?;
        self.spare = lits.len() + 1;
        Ok(())
    }

    fn add(&mut self, lits: &[Lit]) {
        self.spare = 0;
        append(&mut self.literals, lits);
        put_end(&mut self.ends, self.literals.len());
        extend_runs(&mut self.runs, lits, self.ends.len() as u64);
    }
}

impl ClauseStore {
    /// No clauses. It takes no memory.
    pub(crate) fn new(alloc: Global) -> ClauseStore
        ensures { result.clauses ≡ [] }
    {
        ClauseStore {
            literals: Vec::new(alloc),
            ends: Vec::new(alloc),
            runs: Vec::new(alloc),
            spare: 0,
        }
    }

    /// How many clauses there are.
    pub(crate) fn len(&self) -> u64
        ensures { result ≡ length self.now.clauses }
    {
        self.ends.len() as u64
    }

    /// The runs in order.
    pub(crate) fn runs(&self) -> &[Run]
        ensures { AreRuns 0 result.now self.now.clauses (length self.now.clauses) }
    {
        &self.runs
    }
}

// The piece at a place.
fn piece<'a>(literals: &'a [Code], ends: &[usize], at: usize) -> &'a [Code]
    requires ends { AreEnds 0 ends.now (length literals.now) }
    requires at { at < length ends.now }
    ensures { slice_get (pieces literals.now 0 ends.now) at ≡ Some result.now }
{
    let start = start_of(ends, at);
    &literals[start..ends[at]]
}

// Where the piece at a place begins.
fn start_of(ends: &[usize], at: usize) -> usize
    requires { at < length ends.now }
    ensures { result ≡ start_of 0 ends.now at }
{
    if at == 0 { 0 } else { ends[at - 1] }
}

fn append(literals: &mut Vec<Code>, lits: &[Lit])
    requires { length literals.old.items + length lits.now ≤ vec_capacity literals.old }
    ensures { literals.new.items ≡ literals.old.items ++ lits.now }
{
    for l in lits {
        if literals.push(Code::of(*l)).is_err() {
            unreachable!();
        }
    }
}

fn put_end(ends: &mut Vec<usize>, end: usize)
    requires { length ends.old.items < vec_capacity ends.old }
    ensures { ends.new.items ≡ ends.old.items ++ end ∷ [] }
{
    if ends.push(end).is_err() {
        unreachable!();
    }
}

// One clause more, with this id: it goes with the newest run where it holds the literal that is
// shared there, and begins a run else.
fn extend_runs(runs: &mut Vec<Run>, lits: &[Lit], last: u64)
    requires { length runs.old.items < vec_capacity runs.old }
    ensures { (clauses : List (List Literal)) → AreRuns 0 runs.old.items clauses (length clauses)
        → last ≡ length clauses + 1
        → AreRuns 0 runs.new.items (clauses ++ lits.now ∷ []) last }
{
    match runs.pop() {
        None => put(runs, first_of(lits), last),
        Some(run) => {
            if is_shared(&run.shared, lits) {
                put(runs, run.shared, last);
            } else {
                put(runs, run.shared, run.last);
                put(runs, first_of(lits), last);
            }
        }
    }
}

fn put(runs: &mut Vec<Run>, shared: Option<Lit>, last: u64)
    requires { length runs.old.items < vec_capacity runs.old }
    ensures items { runs.new.items
        ≡ runs.old.items ++ record { shared = shared; last = last } ∷ [] }
    ensures capacity { vec_capacity runs.old ≤ vec_capacity runs.new }
{
    if runs.push(Run { shared, last }).is_err() {
        unreachable!();
    }
}

fn first_of(lits: &[Lit]) -> Option<Lit>
    ensures { Shares result lits.now }
{
    lits.first().copied()
}

fn is_shared(shared: &Option<Lit>, lits: &[Lit]) -> bool
    ensures { result ≡ true → Shares shared.now lits.now }
{
    match shared {
        None => false,
        Some(l) => holds(lits, *l),
    }
}
