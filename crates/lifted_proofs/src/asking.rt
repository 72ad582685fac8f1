//! Goals for units: one for each unit and the bits that its existential sees.
//!
//! Without one goal for a unit and the bits that its existential sees, units that use one another
//! twice would ask exponentially often. Whether the goal that the map proposes is the one asked for
//! is compared.

ghost use Rattle.std.specs.Prelude.{◌≡◌, ◌<◌, true, [], length, All, IfOk};
ghost use Rattle.std.specs.List.{AllZip};
ghost use Rattle.lifted_proofs.specs.UnitTables.{IsUnitTable};
ghost use Rattle.lifted_proofs.specs.Goals.{SeeSame, IsPlanOf, IsAskedIn, Adds};

use crate::goals::{Goal, Known, Plan, Source};
use crate::units::UnitTable;
use dq_formula::{Deps, Formula};
use dq_lits::{Memory, Row};
use std::alloc::Global;

impl Plan {
    /// The goals of the units at these places, under rows that show the same bits as this one.
    pub(crate) fn ask_all(
        &mut self,
        known: &mut Known,
        table: &UnitTable,
        places: &[u64],
        lowered: usize,
    ) -> Result<Vec<usize>, Memory>
        requires plan { IsPlanOf table.now self.old }
        requires within { All (λ j. j < length table.now.units.now) places.now }
        requires row { lowered < length self.old.rows }
        ensures { IfOk result (λ hints. Adds table.now self.old self.new
            (AllZip (IsAskedIn table.now self.new lowered) places.now hints.items)) }
    {
        let mut hints = Vec::new(table.alloc);
        for j in places {
            hints.push(self.ask(known, table, *j as usize, lowered)?)?;
        }
        Ok(hints)
    }

    // The goal of the unit at a place, under a row that shows the same bits as this one.
    fn ask(
        &mut self,
        known: &mut Known,
        table: &UnitTable,
        j: usize,
        lowered: usize,
    ) -> Result<usize, Memory>
        requires plan { IsPlanOf table.now self.old }
        requires within { j < length table.now.units.now }
        requires row { lowered < length self.old.rows }
        ensures { IfOk result (λ h. Adds table.now self.old self.new
            (IsAskedIn table.now self.new lowered j h)) }
    {
        let next = self.goals.len();
        let key = key(table, j, self.row(table, lowered))?;
        let first = first_with(known, key, next)?;
        if self.is_asked(table, first, j, lowered) {
            return Ok(first);
        }
        let added = self.add_unit(table, j, lowered)?;
        Ok(added)
    }

    // Whether the goal at a place is that of this unit, under a row with the same bits.
    fn is_asked(&self, table: &UnitTable, first: usize, j: usize, lowered: usize) -> bool
        requires plan { IsPlanOf table.now self.now }
        requires within { j < length table.now.units.now }
        requires row { lowered < length self.now.rows }
        ensures { result ≡ true → IsAskedIn table.now self.now lowered j first }
    {
        if first >= self.goals.len() {
            return false;
        }
        let goal = self.goal(table, first);
        if goal.source.taken != j || goal.source.place != table.unit(j).place {
            return false;
        }
        see_same(
            table,
            j,
            self.row(table, lowered),
            self.row(table, goal.row),
        )
    }

    // Adds the goal of a unit under a row.
    fn add_unit(&mut self, table: &UnitTable, j: usize, row: usize) -> Result<usize, Memory>
        requires plan { IsPlanOf table.now self.old }
        requires within { j < length table.now.units.now }
        requires row { row < length self.old.rows }
        ensures { IfOk result (λ h. Adds table.now self.old self.new
            (IsAskedIn table.now self.new row j h)) }
    {
        let h = self.goals.len();
        let place = table.unit(j).place;
        self.goals.push(Goal {
            source: Source { taken: j, place },
            row,
        })?;
        Ok(h)
    }
}

// Whether the existential of a unit sees the same bits in two rows.
fn see_same(table: &UnitTable, j: usize, a: &Row, b: &Row) -> bool
    requires right { IsUnitTable table.now }
    requires within { j < length table.now.units.now }
    requires first { length a.now ≡ length table.now.formula.now.universals }
    requires second { length b.now ≡ length table.now.formula.now.universals }
    ensures { result ≡ true → SeeSame table.now j a.now b.now }
{
    table.formula.same_on(table.unit(j).literal.var(), a, b)
}

// The place that is known of a key; else the key is known from now on as that of the next one.
fn first_with(known: &mut Known, key: Vec<u64>, next: usize) -> Result<usize, Memory> {
    if let Some(first) = known.get(&key) {
        return Ok(*first);
    }
    known.insert(key, next)?;
    Ok(next)
}

// The unit's place, and the bits of a row that its existential sees, 64 a word.
fn key(table: &UnitTable, j: usize, row: &Row) -> Result<Vec<u64>, Memory>
    requires right { IsUnitTable table.now }
    requires within { j < length table.now.units.now }
{
    let mut words = Vec::new(table.alloc);
    words.push(j as u64)?;
    let y = table.unit(j).literal.var();
    if !table.formula.is_existential(y) {
        return Ok(words);
    }
    match table.formula.deps_of(y) {
        Deps::FirstOf(n) => append_first(&mut words, row, *n)?,
        Deps::Listed(vars) => append_listed(&mut words, table.formula, row, vars.items())?,
    }
    Ok(words)
}

fn append_first(words: &mut Vec<u64>, row: &Row, count: usize) -> Result<(), Memory> {
    for i in 0..count {
        append_bit(words, i, bit_at(row, i))?;
    }
    Ok(())
}

fn append_listed(words: &mut Vec<u64>, f: &Formula, row: &Row, vars: &[u64]) -> Result<(), Memory> {
    for i in 0..vars.len() {
        append_bit(words, i, bit_at(row, f.place_of(vars[i])))?;
    }
    Ok(())
}

fn bit_at(row: &Row, place: usize) -> bool {
    place < row.len() && row.get(place)
}

fn append_bit(words: &mut Vec<u64>, i: usize, bit: bool) -> Result<(), Memory> {
    if i % 64 == 0 {
        words.push(0)?;
    }
    if let Some(last) = words.last_mut() {
        *last = (*last << 1) | u64::from(bit);
    }
    Ok(())
}
