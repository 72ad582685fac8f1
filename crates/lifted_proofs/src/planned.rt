//! The goals that a refutation begins with: the instances that its lines hint at.

ghost use Rattle.std.specs.Prelude.{◌≡◌, ◌≤◌, ◌+◌, [], List, length, All, IfOk, OnOk};
ghost use Rattle.cert_text.specs.Header.{max_count};
ghost use Rattle.lifted_proofs.specs.UnitTables.{IsUnitTable};
ghost use Rattle.lifted_proofs.specs.Goals.{IsGoal, IsPlanOf, Grows};
ghost use Rattle.lifted_proofs.specs.declared.goals.Goal.{Goal};
ghost use Rattle.lifted_proofs.specs.Carried.{IsFirstGoal};
ghost use Rattle.lifted_proofs.specs.Planned.{IsInstanceId, AreFirstGoals, IsPlanFor};
ghost use Rattle.lifted_proofs.specs.Written.{IsWhole};

use crate::goals::{Goal, Plan, Source};
use crate::units::UnitTable;
use dq_lits::{Memory, RowList};
use std::alloc::Global;
use std::collections::BTreeMap;

/// No more rows than these are added.
const MOST_ROWS: usize = 1_000_000;

/// Nor more bits of rows.
const MOST_BITS: usize = 1_073_741_824;

/// The most rows of a refutation's text.
const MOST_IN_TEXT: usize = 1_000_000_000;

/// A plan whose first goals are these instances, where the clauses come from these sources. Past the
/// limits on rows and goals it answers `Memory`.
pub(crate) fn planned(
    table: &UnitTable,
    rows: &RowList,
    sources: &[Source],
    wanted: &[u64],
) -> Result<Plan, Memory>
    requires right { IsUnitTable table.now }
    requires whole { All (λ row. length row ≡ length table.now.formula.now.universals) rows.now }
    requires few { length rows.now ≤ max_count }
    requires ids { All (IsInstanceId (length rows.now) (length sources.now)) wanted.now }
    requires goals { (goals : List Goal) → AreFirstGoals sources.now wanted.now goals
        → All (IsGoal table.now.formula.now table.now.units.now rows.now) goals }
    ensures whole { IfOk result (IsWhole table.now) }
    ensures plan { IfOk result (IsPlanFor rows.now sources.now wanted.now) }
{
    let goals = first_goals(table.alloc, sources, wanted)?;
    let mut plan = begun(table, rows, goals)?;
    match settle(&mut plan, table) {
        Ok(()) => Ok(plan),
        Err(memory) => {
            drop(plan);
            Err(memory)
        }
    }
}

// Finds the reasons of a plan that has none.
fn settle(plan: &mut Plan, table: &UnitTable) -> Result<(), Memory>
    requires plan { IsPlanOf table.now plan.old }
    requires none { plan.old.reasons.items ≡ [] }
    ensures whole { OnOk result (IsWhole table.now plan.new) }
    ensures grows { OnOk result (Grows plan.old plan.new) }
{
    let mut known = BTreeMap::new(table.alloc);
    plan.settle_all(&mut known, table)
}

// The goals of these instances.
fn first_goals(alloc: Global, sources: &[Source], wanted: &[u64]) -> Result<Vec<Goal>, Memory>
    requires { All (λ h. (1 ≤ h) × (1 ≤ length sources.now)) wanted.now }
    ensures { IfOk result (λ goals. AreFirstGoals sources.now wanted.now goals.items) }
{
    let mut goals = Vec::new(alloc);
    for h in wanted {
        goals.push(first_goal(sources, *h))?;
    }
    Ok(goals)
}

fn first_goal(sources: &[Source], h: u64) -> Goal
    requires from_one { 1 ≤ h }
    requires some { 1 ≤ length sources.now }
    ensures { IsFirstGoal sources.now h result }
{
    let clauses = sources.len();
    let place = h as usize - 1;
    Goal {
        source: sources[place % clauses],
        row: place / clauses,
    }
}

// A plan with these rows and goals, and no reasons.
fn begun(table: &UnitTable, rows: &RowList, goals: Vec<Goal>) -> Result<Plan, Memory>
    requires right { IsUnitTable table.now }
    requires whole { All (λ row. length row ≡ length table.now.formula.now.universals) rows.now }
    requires few { length rows.now ≤ max_count }
    requires goals { All (IsGoal table.now.formula.now table.now.units.now rows.now) goals.items }
    ensures plan { IfOk result (IsPlanOf table.now) }
    ensures rows { IfOk result (λ p. p.rows ≡ rows.now) }
    ensures goals { IfOk result (λ p. p.goals.items ≡ goals.items) }
    ensures reasons { IfOk result (λ p. p.reasons.items ≡ []) }
{
    let copies = copied(table.alloc, rows)?;
    let room = room(table.formula.universals().len(), rows.items().len());
    Ok(Plan {
        rows: copies,
        goals,
        reasons: Vec::new(table.alloc),
        room,
    })
}

fn copied(alloc: Global, rows: &RowList) -> Result<RowList, Memory>
    ensures { IfOk result (λ copies. copies ≡ rows.now) }
{
    let mut copies = RowList::new(alloc);
    for row in rows.items() {
        copies.push(row.copy()?)?;
    }
    Ok(copies)
}

// How many rows of so many bits may be added to so many.
fn room(bits: usize, rows: usize) -> usize
    requires { rows ≤ max_count }
    ensures { rows + result ≤ max_count }
{
    let by_bits = MOST_BITS / bits.max(1);
    MOST_ROWS.min(by_bits).min(MOST_IN_TEXT - rows)
}
