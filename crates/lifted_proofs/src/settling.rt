//! The reasons of goals.

ghost use Rattle.std.specs.Prelude.{◌≡◌, ◌<◌, length, IfOk, OnOk};
ghost use Rattle.lifted_proofs.specs.UnitTables.{IsUnitTable};
ghost use Rattle.lifted_proofs.specs.Written.{IsWhole};
ghost use Rattle.lifted_proofs.specs.Goals.{IsGoalOf, IsLoweredIn, AreFalseUnitsOf, IsPlanOf, Grows, Adds, IsRowAdded, Settles};

use crate::goals::{Goal, Known, Plan, Reason};
use crate::rows::{any_true, falsified};
use crate::units::UnitTable;
use dq_lits::{Memory, Row};
use number_tables::NumberSet;

/// No more goals than these are looked at.
pub(crate) const MOST_GOALS: usize = 1_000_000;

impl Plan {
    /// Finds the reasons of all goals, and of those that they ask for. Where there are more goals
    /// than `MOST_GOALS`, or room for more rows is wanting, it answers `Memory`.
    pub(crate) fn settle_all(&mut self, known: &mut Known, table: &UnitTable) -> Result<(), Memory>
        requires plan { IsPlanOf table.now self.old }
        requires none { length self.old.reasons.items ≡ 0 }
        ensures whole { OnOk result (IsWhole table.now self.new) }
        ensures grows { OnOk result (Grows self.old self.new) }
    {
        for q in 0..MOST_GOALS {
            if q == self.goals.len() {
                return Ok(());
            }
            self.settle(known, table)?;
        }
        if self.goals.len() == MOST_GOALS {
            return Ok(());
        }
        Err(Memory)
    }

    // Finds the reason of the next goal.
    fn settle(&mut self, known: &mut Known, table: &UnitTable) -> Result<(), Memory>
        requires plan { IsPlanOf table.now self.old }
        requires left { length self.old.reasons.items < length self.old.goals.items }
        ensures { OnOk result (Settles table.now self.old self.new) }
    {
        let goal = self.goal(table, self.reasons.len());
        let places = false_units(table, goal)?;
        let lowered = self.lower(table, goal)?;
        let hints = self.ask_all(known, table, places.items(), lowered)?;
        self.reasons.push(Reason { lowered, hints })?;
        Ok(())
    }

    // The place of a row under which the goal's clause says what is left of it.
    fn lower(&mut self, table: &UnitTable, goal: Goal) -> Result<usize, Memory>
        requires plan { IsPlanOf table.now self.old }
        requires goal { IsGoalOf table.now self.old goal }
        requires row { goal.row < length self.old.rows }
        ensures { IfOk result (λ lowered. Adds table.now self.old self.new
            (IsLoweredIn table.now self.new goal lowered)) }
    {
        let clause = table.formula.clause(goal.source.place);
        let row = self.row(table, goal.row);
        if !any_true(table.formula, row, clause) {
            return Ok(goal.row);
        }
        let low = falsified(table.formula, row, clause)?;
        let place = self.add_row(low)?;
        Ok(place)
    }

    // Adds a row, where there is room for one.
    fn add_row(&mut self, row: Row) -> Result<usize, Memory>
        ensures { IfOk result (IsRowAdded self.old self.new row) }
    {
        if self.room == 0 {
            return Err(Memory);
        }
        let place = self.rows.items().len();
        self.rows.push(row)?;
        self.room -= 1;
        Ok(place)
    }
}

// The places of the units that make literals of a goal's clause false.
fn false_units(table: &UnitTable, goal: Goal) -> Result<NumberSet, Memory>
    requires right { IsUnitTable table.now }
    requires within { goal.source.place < length table.now.formula.now.matrix }
    ensures { IfOk result (AreFalseUnitsOf table.now goal) }
{
    let mut places = NumberSet::new(table.alloc);
    for l in table.formula.clause(goal.source.place) {
        if let Some(j) = table.false_by(*l, goal.source.taken) {
            places.insert(j as u64)?;
        }
    }
    Ok(places)
}
