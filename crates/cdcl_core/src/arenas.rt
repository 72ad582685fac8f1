//! The arena: the literals of all clauses stand end to end in one list.
//!
//! Literals stay where they are, in the log's order, as codes: a watch is a literal beside the
//! clause's id, not a place, so that the other watched literal is seen without the clause.

ghost use Rattle.std.specs.Prelude.{◌≡◌, ◌≤◌, ◌<◌, ◌+◌, ◌++◌, ◌∷◌, [], List, true, length, OnOk, Some, slice_get, vec_capacity};
ghost use Rattle.dq_lits.specs.Literal.{Literal};
ghost use Rattle.oracle.specs.Fit.{live_in};
ghost use Rattle.learning_trail.specs.Pieces.{pieces, AreEnds, start_of};
ghost use Rattle.cdcl_core.specs.Runs.{BeginAlike, BeginsAlike, IsNextStart};

use dq_lits::{Lit, Memory};
use learning_trail::Code;
use short_numbers::ShortNumbers;
use std::alloc::Global;
use std::marker::Model;

/// Clauses in order of time, by their ids from 1 on.
#[derive(Drop)]
pub(crate) struct Arena {
    // The literals of all clauses, in order.
    literals: Vec<Code>,
    // Where the literals of each clause end.
    ends: ShortNumbers,
    // Up to which id all clauses up to each one begin as this one does.
    starts: ShortNumbers,
    // How many literals one clause more may have; there is no room for a clause where it is 0.
    spare: usize,
}

impl Model for Arena {
    ghost use Rattle.cdcl_core.specs.ArenaInside.{Arranged, arranged_in, IsArranged};

    ghost Value = { Arranged };

    ghost view = { arranged_in };

    ghost invariant = { IsArranged };
}

impl Arena {
    /// No clauses. It takes no memory.
    pub(crate) fn new(alloc: Global) -> Arena
        ensures { result.clauses ≡ [] }
    {
        Arena {
            literals: Vec::new(alloc),
            ends: ShortNumbers::new(alloc),
            starts: ShortNumbers::new(alloc),
            spare: 0,
        }
    }

    /// How many clauses there are.
    pub(crate) fn len(&self) -> u64
        ensures { result ≡ length self.now.clauses }
    {
        self.ends.len() as u64
    }

    /// The literals of the clause with an id.
    pub(crate) fn lits(&self, id: u64) -> &[Code]
        requires from_one { 1 ≤ id }
        requires is_id { id ≤ length self.now.clauses }
        ensures { live_in self.now.clauses id ≡ Some result.now }
    {
        piece(&self.literals, &self.ends, id as usize - 1)
    }

    /// Of the clauses up to an id that begin with the same literal, one behind the other: the id
    /// before theirs.
    pub(crate) fn start(&self, id: u64) -> u64
        requires from_one { 1 ≤ id }
        requires is_id { id ≤ length self.now.clauses }
        ensures before { result < id }
        ensures same { BeginAlike self.now.clauses result id }
    {
        self.starts.get(id as usize - 1)
    }

    /// Makes room for a clause of these literals.
    pub(crate) fn reserve(&mut self, lits: &[Lit]) -> Result<(), Memory>
        ensures clauses { self.new.clauses ≡ self.old.clauses }
        ensures spare { OnOk result (length lits.now < self.new.spare) }
    {
        self.spare = 0;
        self.literals.reserve(lits.len())?;
        make_fit(&mut self.ends, (self.literals.len() + lits.len()) as u64)?;
        make_fit(&mut self.starts, self.ends.len() as u64)?;
        self.spare = lits.len() + 1;
        Ok(())
    }

    // The start of a clause behind all others.
    fn next_start(&self, lits: &[Lit]) -> u64
        ensures { IsNextStart self.now.clauses lits.now result }
    {
        let last = self.len();
        if last > 0 && begin_alike(self.lits(last), lits) {
            self.start(last)
        } else {
            last
        }
    }

    /// Adds a clause that there is room for.
    pub(crate) fn push(&mut self, lits: &[Lit])
        requires { length lits.now < self.old.spare }
        ensures { self.new.clauses ≡ self.old.clauses ++ lits.now ∷ [] }
    {
        let start = self.next_start(lits);
        self.spare = 0;
        append(&mut self.literals, lits);
        self.ends.push(self.literals.len() as u64);
        self.starts.push(start);
    }
}

/// Makes room for one number more, and lets numbers up to one fit.
pub(crate) fn make_fit(numbers: &mut ShortNumbers, most: u64) -> Result<(), Memory>
    ensures items { numbers.new.items ≡ numbers.old.items }
    ensures more { numbers.old.most ≤ numbers.new.most }
    ensures room { OnOk result (length numbers.new.items < numbers.new.capacity) }
    ensures fits { OnOk result (most ≤ numbers.new.most) }
{
    numbers.reserve()?;
    numbers.fit(most)?;
    Ok(())
}

// The piece at a place.
fn piece<'a>(literals: &'a [Code], ends: &ShortNumbers, at: usize) -> &'a [Code]
    requires ends { AreEnds 0 ends.now.items (length literals.now) }
    requires at { at < length ends.now.items }
    ensures { slice_get (pieces literals.now 0 ends.now.items) at ≡ Some result.now }
{
    let (start, end) = ends.span(at);
    &literals[start as usize..end as usize]
}

fn append(literals: &mut Vec<Code>, lits: &[Lit])
    requires { length literals.old.items + length lits.now ≤ vec_capacity literals.old }
    ensures { literals.new.items ≡ literals.old.items ++ lits.now }
{
    for l in lits {
        if literals.push(Code::of(*l)).is_err() {
            unreachable!();
        }
    }
}

// Whether two clauses begin with the same literal.
fn begin_alike(lits: &[Code], others: &[Lit]) -> bool
    ensures { result ≡ true → BeginsAlike lits.now others.now }
{
    match lits.first() {
        Some(l) => {
            let first = l.lit();
            others.first() == Some(&first)
        }
        None => false,
    }
}
