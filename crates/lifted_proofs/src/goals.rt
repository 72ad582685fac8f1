//! Which clauses under which rows have to be derived, and why each follows.
//!
//! A goal is what is left of a clause under a row. It follows of the clause itself under the row
//! with its universal literals false, and of the units that make its other literals false there: so
//! it asks for units that were taken before. Goals are looked at in a queue; nothing recurses.
//! Where no literal is false the instance is hinted at itself.

ghost use Rattle.std.specs.Prelude.{◌≡◌, ◌<◌, length, Some};
ghost use Rattle.std.specs.List.{slice_get};
ghost use Rattle.lifted_proofs.specs.Goals.{IsPlanOf, IsGoalAt, IsReasonAt};
ghost use Rattle.lifted_proofs.specs.Written.{IsWhole};

use crate::units::UnitTable;
use dq_lits::{Row, RowList};
use std::collections::BTreeMap;

/// A clause of the formula, and how many of the units had been taken: what is left of the clause then
/// is a unit, or a clause of the simpler formula.
#[derive(Clone, Copy)]
pub(crate) struct Source {
    pub taken: usize,
    /// The place of the clause, from 0.
    pub place: usize,
}

/// What is left of a clause, under the row at a place.
#[derive(Clone, Copy)]
pub(crate) struct Goal {
    pub source: Source,
    pub row: usize,
}

/// Why a goal follows: of the clause itself under another row, and of units.
#[derive(Drop)]
pub(crate) struct Reason {
    /// The place of the row.
    pub lowered: usize,
    /// The places of the units' goals.
    pub hints: Vec<usize>,
}

/// Goals, with the reasons of the first of them.
#[derive(Drop)]
pub(crate) struct Plan {
    pub rows: RowList,
    pub goals: Vec<Goal>,
    pub reasons: Vec<Reason>,
    /// How many rows may be added.
    pub room: usize,
}

/// By a unit and the bits that its existential sees, the place of a goal. No contract speaks of what
/// stands here: each goal that is found is compared.
pub(crate) type Known = BTreeMap<Vec<u64>, usize>;

impl Plan {
    /// The goal at a place.
    pub(crate) fn goal(&self, table: &UnitTable, q: usize) -> Goal
        requires plan { IsPlanOf table.now self.now }
        requires within { q < length self.now.goals.items }
        ensures { IsGoalAt table.now self.now q result }
    {
        // Only the contract speaks of it.
        let _ = table;
        self.goals[q]
    }

    /// Its reason.
    pub(crate) fn reason(&self, table: &UnitTable, q: usize, goal: Goal) -> &Reason
        requires plan { IsWhole table.now self.now }
        requires within { q < length self.now.goals.items }
        requires goal { IsGoalAt table.now self.now q goal }
        ensures { IsReasonAt table.now self.now q goal result.now }
    {
        // Only the contract speaks of them.
        let _ = table;
        let _ = goal;
        &self.reasons[q]
    }

    /// The row at a place.
    pub(crate) fn row(&self, table: &UnitTable, place: usize) -> &Row
        requires plan { IsPlanOf table.now self.now }
        requires within { place < length self.now.rows }
        ensures at { slice_get self.now.rows place ≡ Some result.now }
        ensures whole { length result.now ≡ length table.now.formula.now.universals }
    {
        // Only the contract speaks of it.
        let _ = table;
        &self.rows.items()[place]
    }
}
