//! A refutation of the simpler formula, lifted to the formula.

ghost use Rattle.std.specs.Prelude.{◌≡◌, ◌≤◌, ◌*◌, None, length, reverse, IfOk};
ghost use Rattle.dq_lits.specs.Formula.{IsWellFormed};
ghost use Rattle.dq_prep.specs.Units.{AreUnits};
ghost use Rattle.dq_prep.specs.Simplified.{simplified_formula};
ghost use Rattle.cert_text.specs.Grammar.{IsDqrOf};
ghost use Rattle.cert_text.specs.Header.{max_count};
ghost use Rattle.proof_deletions.specs.Deletions.{AreNumberedLines};
ghost use Rattle.refutation_checker.specs.Refutation.{refutation_fault};
ghost use Rattle.lifted_proofs.specs.UnitTables.{IsUnitTable};
ghost use Rattle.lifted_proofs.specs.Goals.{Keeps};
ghost use Rattle.lifted_proofs.specs.Carried.{lines_of, AreWanted, AreSources};
ghost use Rattle.lifted_proofs.specs.Planned.{IsPlanFor};
ghost use Rattle.lifted_proofs.specs.Written.{IsWhole};
ghost use Rattle.lifted_proofs.specs.LiftedRefutations.{Refutes, AreLifted, kept_matrix};

use crate::carried::Renumbered;
use crate::goals::{Plan, Source};
use crate::hinted::hinted_instances;
use crate::lines::Written;
use crate::planned::planned;
use crate::sources::sources;
use crate::units::UnitTable;
use cert_text::{Dqr, ItemList, StepList};
use dq_formula::Formula;
use dq_lits::Memory;
use dq_prep::Trace;
use number_tables::NumberSet;
use proof_deletions::laws::allowed_lines_are_numbered;
use std::alloc::Global;

/// The most lines of a refutation's text.
const MOST_LINES: usize = 1_000_000_000;

/// A refutation of a formula, from one of what is left of it where these units were taken. The rows
/// come first, then further ones, under which the clauses say what was left of them; lines in front
/// derive what was left, where units made literals false.
///
/// A formula may need exponentially more rows than units: past 1,000,000 rows, 2^30 bits of rows or
/// 1,000,000 clauses under rows that are added, and past the counts that a text can hold, it answers
/// `Memory`.
pub fn lift_false(alloc: Global, d: &Dqr, trace: &Trace, f: &Formula) -> Result<Dqr, Memory>
    requires well { IsWellFormed f.now }
    requires units { AreUnits f.now trace.now }
    requires allowed { IsDqrOf (simplified_formula f.now trace.now) d.now }
    requires refutes { refutation_fault (simplified_formula f.now trace.now) d.now ≡ None }
    ensures allowed { IfOk result (IsDqrOf f.now) }
    ensures refutes { IfOk result (λ e. refutation_fault f.now e ≡ None) }
    // The rows are the first ones.
    ensures rows { IfOk result (λ e. Keeps d.now.rows e.rows) }
    ensures lines { IfOk result (λ e. AreNumberedLines e.items) }
{
    let table = UnitTable::new(alloc, f, trace)?;
    let sources = sources(&table)?;
    let lifted = lift(&table, d, &sources)?;
    Ok(lifted)
}

fn lift(table: &UnitTable, d: &Dqr, sources: &[Source]) -> Result<Dqr, Memory>
    requires right { IsUnitTable table.now }
    requires refutes { Refutes table.now d.now }
    requires sources { AreSources table.now.formula.now table.now.units.now (kept_matrix table.now)
        sources.now }
    ensures allowed { IfOk result (IsDqrOf table.now.formula.now) }
    ensures refutes { IfOk result (λ e. refutation_fault table.now.formula.now e ≡ None) }
    ensures rows { IfOk result (λ e. Keeps d.now.rows e.rows) }
    ensures lines { IfOk result (λ e. AreNumberedLines e.items) }
{
    let last = d.rows.items().len() as u64 * sources.len() as u64;
    let wanted = hinted_instances(table.alloc, &d.items, last)?;
    lift_wanted(table, d, sources, &wanted)
}

// The same, by the instances that its lines hint at.
fn lift_wanted(
    table: &UnitTable,
    d: &Dqr,
    sources: &[Source],
    wanted: &NumberSet,
) -> Result<Dqr, Memory>
    requires right { IsUnitTable table.now }
    requires refutes { Refutes table.now d.now }
    requires sources { AreSources table.now.formula.now table.now.units.now (kept_matrix table.now)
        sources.now }
    requires wanted { AreWanted (lines_of d.now.items) (length d.now.rows * length sources.now)
        wanted.now }
    ensures allowed { IfOk result (IsDqrOf table.now.formula.now) }
    ensures refutes { IfOk result (λ e. refutation_fault table.now.formula.now e ≡ None) }
    ensures rows { IfOk result (λ e. Keeps d.now.rows e.rows) }
    ensures lines { IfOk result (λ e. AreNumberedLines e.items) }
{
    allowed_lines_are_numbered();
    let plan = planned(table, &d.rows, sources, wanted.items())?;
    let steps = lifted_lines(table, d, sources, wanted, &plan)?;
    Ok(Dqr {
        rows: plan.rows,
        items: ItemList::of_lines(steps),
    })
}

// The lines that derive the goals, and the refutation's own lines behind them.
fn lifted_lines(
    table: &UnitTable,
    d: &Dqr,
    sources: &[Source],
    wanted: &NumberSet,
    plan: &Plan,
) -> Result<StepList, Memory>
    requires right { IsUnitTable table.now }
    requires refutes { Refutes table.now d.now }
    requires sources { AreSources table.now.formula.now table.now.units.now (kept_matrix table.now)
        sources.now }
    requires wanted { AreWanted (lines_of d.now.items) (length d.now.rows * length sources.now)
        wanted.now }
    requires whole { IsWhole table.now plan.now }
    requires plan { IsPlanFor d.now.rows sources.now wanted.now plan.now }
    ensures lifted { IfOk result (AreLifted table.now plan.now.rows) }
    ensures few { IfOk result (λ steps. length steps ≤ max_count) }
{
    let written = Written::of(table, plan)?;
    let ids = written.ids;
    let mut steps = written.steps;
    let rows = plan.rows.items().len() as u64;
    let renumbered = Renumbered {
        wanted,
        ids: &ids,
        old_last: d.rows.items().len() as u64 * sources.len() as u64,
        new_last: rows * table.formula.clauses() as u64 + steps.len() as u64,
    };
    renumbered.carry(table.alloc, &d.items, &mut steps)?;
    if steps.len() > MOST_LINES {
        return Err(Memory);
    }
    Ok(steps)
}
