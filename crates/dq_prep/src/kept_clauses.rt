//! What is left of a formula.

ghost use Rattle.std.specs.Prelude.{◌≡◌, ◌<◌, ◌+◌, [], None, false, length, replicate, slice_index_or, true, IfOk, OnOk};
ghost use Rattle.dq_prep.specs.Units.{taken_literals, is_satisfied, left_of};
ghost use Rattle.dq_prep.specs.Simplified.{simplified_formula};
ghost use Rattle.dq_prep.specs.Takings.{IsTaking};
ghost use Rattle.dq_prep.specs.KeptClauses.{IsTableOf, IsKeeper, AreKeptBefore};

use crate::sights::reduce;
use crate::takings::Taking;
use crate::traces::Trace;
use copied_prefixes::copy_prefix;
use dq_formula::Formula;
use dq_lits::{Lit, Memory};
use std::alloc::Global;

/// The formula that is left where these units are taken.
pub(crate) fn simplified(alloc: Global, taking: &Taking) -> Result<Formula, Memory>
    requires { IsTaking taking.now }
    ensures { IfOk result (λ g. g ≡ simplified_formula taking.now.formula.now taking.now.trace) }
{
    let mut g = copy_prefix(alloc, taking.formula)?;
    keep_all(alloc, taking, &mut g)?;
    Ok(g)
}

fn keep_all(alloc: Global, taking: &Taking, g: &mut Formula) -> Result<(), Memory>
    requires right { IsTaking taking.now }
    requires empty { g.old ≡ record taking.now.formula.now { matrix = [] } }
    ensures { OnOk result
        (g.new ≡ simplified_formula taking.now.formula.now taking.now.trace) }
{
    let units = literals_taken(alloc, &taking.trace, taking.formula.clauses())?;
    let mut keeper = Keeper {
        alloc,
        taking,
        units: &units,
        open: Vec::new(alloc),
        left: Vec::new(alloc),
    };
    keeper.keep_all(g)
}

fn no_literals(alloc: Global, n: usize) -> Result<Vec<Option<Lit>>, Memory>
    ensures { IfOk result (λ table. table.items ≡ replicate n None) }
{
    Ok(vec![in alloc; None; n]?)
}

// For each clause, of so many, the literal that was taken of it.
fn literals_taken(alloc: Global, trace: &Trace, clauses: usize) -> Result<Vec<Option<Lit>>, Memory>
    ensures { IfOk result (λ table. IsTableOf trace.now clauses table.items) }
{
    let mut table = no_literals(alloc, clauses)?;
    for unit in trace.units() {
        if unit.place < clauses {
            table[unit.place] = Some(unit.literal);
        }
    }
    Ok(table)
}

// Adds what is left of clauses to a formula.
#[derive(Drop)]
pub(crate) struct Keeper<'t> {
    pub alloc: Global,
    pub taking: &'t Taking<'t>,
    // By clause, the literal that was taken of it.
    pub units: &'t [Option<Lit>],
    // The literals of a clause that aren't false, and those that are left.
    pub open: Vec<Lit>,
    pub left: Vec<Lit>,
}

impl<'t> Keeper<'t> {
    fn keep_all(&mut self, g: &mut Formula) -> Result<(), Memory>
        requires right { IsKeeper self.old }
        requires empty { g.old ≡ record self.old.taking.now.formula.now { matrix = [] } }
        ensures { OnOk result (g.new
            ≡ simplified_formula self.old.taking.now.formula.now self.old.taking.now.trace) }
    {
        for place in 0..self.taking.formula.clauses() {
            self.keep(g, place)?;
        }
        Ok(())
    }

    // Adds what is left of the clause at a place.
    fn keep(&mut self, g: &mut Formula, place: usize) -> Result<(), Memory>
        requires right { IsKeeper self.old }
        requires within { place < length self.old.taking.now.formula.now.matrix }
        requires before { AreKeptBefore self.old.taking.now g.old place }
        ensures taking { self.new.taking.now ≡ self.old.taking.now }
        ensures units { self.new.units.now ≡ self.old.units.now }
        ensures kept { OnOk result (AreKeptBefore self.old.taking.now g.new (place + 1)) }
    {
        if self.taking.is_satisfied(place) {
            self.keep_unit(g, place)
        } else {
            self.keep_left(g, place)
        }
    }

    // Adds what is left of a clause without a literal that was taken.
    fn keep_left(&mut self, g: &mut Formula, place: usize) -> Result<(), Memory>
        requires right { IsKeeper self.old }
        requires within { place < length self.old.taking.now.formula.now.matrix }
        requires before { AreKeptBefore self.old.taking.now g.old place }
        requires unsatisfied { is_satisfied (taken_literals self.old.taking.now.trace)
            (slice_index_or self.old.taking.now.formula.now.matrix place []) ≡ false }
        ensures taking { self.new.taking.now ≡ self.old.taking.now }
        ensures units { self.new.units.now ≡ self.old.units.now }
        ensures kept { OnOk result (AreKeptBefore self.old.taking.now g.new (place + 1)) }
    {
        self.write_left(place)?;
        g.add_clause(&self.left)
    }

    // Adds the unit that was taken of a clause, where one was.
    fn keep_unit(&self, g: &mut Formula, place: usize) -> Result<(), Memory>
        requires right { IsKeeper self.now }
        requires within { place < length self.now.taking.now.formula.now.matrix }
        requires before { AreKeptBefore self.now.taking.now g.old place }
        requires satisfied { is_satisfied (taken_literals self.now.taking.now.trace)
            (slice_index_or self.now.taking.now.formula.now.matrix place []) ≡ true }
        ensures { OnOk result (AreKeptBefore self.now.taking.now g.new (place + 1)) }
    {
        match &self.units[place] {
            Some(l) => g.add_clause(&[*l]),
            None => Ok(()),
        }
    }

    // Writes what is left of the clause at a place.
    fn write_left(&mut self, place: usize) -> Result<(), Memory>
        requires right { IsKeeper self.old }
        requires within { place < length self.old.taking.now.formula.now.matrix }
        requires unsatisfied { is_satisfied (taken_literals self.old.taking.now.trace)
            (slice_index_or self.old.taking.now.formula.now.matrix place []) ≡ false }
        ensures taking { self.new.taking.now ≡ self.old.taking.now }
        ensures units { self.new.units.now ≡ self.old.units.now }
        ensures left { OnOk result (self.new.left.items
            ≡ left_of self.old.taking.now.formula.now (taken_literals self.old.taking.now.trace)
            (slice_index_or self.old.taking.now.formula.now.matrix place [])) }
    {
        self.taking.write_open(place, &mut self.open)?;
        if self.taking.tautologies[place] {
            return copy(&self.open, &mut self.left);
        }
        reduce(self.alloc, self.taking.formula, &self.open, &mut self.left)
    }
}

// Writes literals in place of others.
fn copy(from: &[Lit], to: &mut Vec<Lit>) -> Result<(), Memory>
    ensures { OnOk result (to.new.items ≡ from.now) }
{
    to.clear();
    to.extend_from_slice(from)?;
    Ok(())
}
