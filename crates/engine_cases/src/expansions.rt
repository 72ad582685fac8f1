//! The expansion and its candidates, row by row.

ghost use Rattle.std.specs.Prelude.{◌≡◌, ◌≤◌, ◌+◌, ◌++◌, ◌∷◌, [], ℕ, true, All, ◌<◌, length, IfOk};
ghost use Rattle.dq_lits.specs.Formula.{IsWellFormed};
ghost use Rattle.hint_log.specs.Entries.{rounds_of};
ghost use Rattle.hint_log.specs.Naming.{rows_of};
ghost use Rattle.hint_log.specs.ProductiveLog.{fault_groups};
ghost use Rattle.dq_formula.specs.Prefix.{existential_variables};
ghost use Rattle.expansion.specs.Table.{ArePoints, point_bits};
ghost use Rattle.engine_cases.specs.Ready.{IsTableOfRounds};

use crate::evaluation::{Candidates, TableModel, show_candidates, show_rows};
use crate::reports::{Detail, Report};
use crate::rows::row_of;
use crate::shown::{Shown, show_more};
use aig_graph::Graph;
use anyhow::{Result, anyhow};
use candidate_functions::{Samples, Trees, build};
use cdcl_core::Cdcl;
use dq_formula::Formula;
use dq_lits::Row;
use expansion::laws::rounds_leave_tables;
use expansion::{Exp, Points, Table};
use hint_log::{Log, Stop};
use log_laws::laws::engines_leave_the_rest;
use oracle::Oracle;
use std::alloc::Global;

// More steps than any case takes.
const LIMIT: u64 = 1000;

/// Adds rows until they are refuted.
pub fn run(
    alloc: Global,
    f: &Formula,
    rows: &str,
    detail: Detail,
    printed: &mut String,
) -> Result<()>
    requires formula { IsWellFormed f.now }
{
    let mut report = Report::new(alloc, detail);
    run_by(
        alloc,
        Cdcl::new(alloc),
        Log::new(alloc, LIMIT),
        f,
        rows,
        &mut report,
    )?;
    printed.push_str(&report.text)?;
    Ok(())
}

// Over any solver: what drops one here is the same few steps whatever it holds.
fn run_by<O: Oracle + Drop>(
    alloc: Global,
    oracle: O,
    log: Log,
    f: &Formula,
    rows: &str,
    report: &mut Report,
) -> Result<()>
    requires formula { IsWellFormed f.now }
    requires fit { O.Fits oracle log }
    requires empty { log.entries ≡ [] }
{
    let mut expanding = begin(alloc, oracle, log, f)?;
    expanding.add_rows(alloc, f, rows, report)
}

fn begin<O: Oracle + Drop>(
    alloc: Global,
    mut oracle: O,
    mut log: Log,
    f: &Formula,
) -> Result<Expanding<O>>
    requires formula { IsWellFormed f.now }
    requires fit { O.Fits oracle log }
    requires empty { log.entries ≡ [] }
    ensures fit { IfOk result (λ e. O.Fits e.oracle e.log) }
    ensures ready { IfOk result (λ e. IsTableOfRounds f.now e.table e.log.entries) }
{
    engines_leave_the_rest();
    let table = Table::new(alloc, &mut oracle, f, &mut log)?;
    Ok(Expanding {
        oracle,
        log,
        table,
        trees: Trees::new(alloc),
    })
}

/// The table of the rows so far, with the solver that has their instances, and its log; and the
/// trees that grew by the models.
#[derive(Drop)]
struct Expanding<O> {
    oracle: O,
    log: Log,
    table: Table,
    trees: Trees,
}

impl<O: Oracle> Expanding<O> {
    fn add_rows(
        &mut self,
        alloc: Global,
        f: &Formula,
        rows: &str,
        report: &mut Report,
    ) -> Result<()>
        requires formula { IsWellFormed f.now }
        requires fit { O.Fits self.old.oracle self.old.log }
        requires ready { IsTableOfRounds f.now self.old.table self.old.log.entries }
    {
        let from = Shown { names: 0, id: 0 };
        let mut shown = show_more(alloc, &self.log, from, &mut report.text)?;
        for row in rows.split(';') {
            self.add_row(alloc, f, row)?;
            shown = show_more(alloc, &self.log, shown, &mut report.text)?;
            if !self.find(alloc, f, report)? {
                return Ok(());
            }
        }
        Ok(())
    }

    // A round with this row, and its instances.
    fn add_row(&mut self, alloc: Global, f: &Formula, text: &str) -> Result<()>
        requires formula { IsWellFormed f.now }
        requires fit { O.Fits self.old.oracle self.old.log }
        requires ready { IsTableOfRounds f.now self.old.table self.old.log.entries }
        ensures fit { IfOk result (λ u. O.Fits self.new.oracle self.new.log) }
        ensures ready { IfOk result (λ u. IsTableOfRounds f.now self.new.table self.new.log.entries) }
    {
        let row = row_of(alloc, f, text)?;
        let values = Row::new(alloc, f.existentials().len())?;
        self.log.round(&row, &values, 1)?;
        engines_leave_the_rest();
        rounds_leave_tables();
        self.table
            .add_row(&mut self.oracle, f, &row, &mut self.log)?;
        Ok(())
    }

    // Whether the instances have a model, which is shown.
    fn find(&mut self, alloc: Global, f: &Formula, report: &mut Report) -> Result<bool>
        requires formula { IsWellFormed f.now }
        requires fit { O.Fits self.old.oracle self.old.log }
        requires ready { IsTableOfRounds f.now self.old.table self.old.log.entries }
        ensures fit { IfOk result (λ b. O.Fits self.new.oracle self.new.log) }
        ensures ready { IfOk result (λ b. IsTableOfRounds f.now self.new.table self.new.log.entries) }
    {
        engines_leave_the_rest();
        match self.table.solve(&mut self.oracle, &mut self.log) {
            Ok(Exp::Refuted(_)) => {
                report.text.push_str("\n refuted")?;
                Ok(false)
            }
            Ok(Exp::Model(points)) => {
                let model = TableModel {
                    table: &self.table,
                    points: &points,
                };
                show_model(alloc, f, &model, &mut self.trees, report)?;
                Ok(true)
            }
            Err(Stop::Limit) => Err(anyhow!("limit")),
            Err(Stop::Memory) => Err(anyhow!("out of memory")),
        }
    }
}

// The points and the candidates that follow them.
fn show_model(
    alloc: Global,
    f: &Formula,
    model: &TableModel,
    trees: &mut Trees,
    report: &mut Report,
) -> Result<()>
    requires formula { IsWellFormed f.now }
    requires whole { All (λ row. length row ≡ length f.now.universals) model.now.table.now.rows }
    requires rows { length model.now.points.now.rows ≡ length model.now.table.now.rows }
    requires variables { model.now.points.now.variables ≡ existential_variables f.now }
    requires points { ArePoints f.now model.now.table.now.rows (point_bits model.now.points.now) }
{
    let mut graph = Graph::new(alloc, f.universals().len() + f.existentials().len());
    let outputs = build(
        alloc,
        f,
        model.table,
        model.points,
        &Samples::new(alloc),
        trees,
        &[],
        &[],
        &[],
        &[],
        &mut graph,
    )?;
    let candidates = Candidates {
        graph: &graph,
        nodes: outputs.items(),
    };
    show_rows(alloc, f, model, &candidates, report)?;
    match report.detail {
        Detail::Checks => Ok(()),
        Detail::Bits => show_candidates(alloc, f, &candidates, &mut report.text),
        Detail::Leaves => show_leaves(alloc, f, model, trees, &mut report.text),
    }
}

// How many leaves each existential's tree has, and whether it has the points' bits at all rows.
fn show_leaves(
    alloc: Global,
    f: &Formula,
    model: &TableModel,
    trees: &Trees,
    text: &mut String,
) -> Result<()>
    requires rows { length model.now.points.now.rows ≡ length model.now.table.now.rows }
    requires variables { model.now.points.now.variables ≡ existential_variables f.now }
{
    for place in 0..f.existentials().len() {
        let leaves = trees.leaves(place);
        let kind = if is_pure(f, model, trees, place) {
            "pure"
        } else {
            "mixed"
        };
        text.push_str(&format!(in alloc; "\n tree: {leaves} leaves, {kind}")?)?;
    }
    Ok(())
}

fn is_pure(f: &Formula, model: &TableModel, trees: &Trees, place: usize) -> bool
    requires place { place < length f.now.existentials }
    requires rows { length model.now.points.now.rows ≡ length model.now.table.now.rows }
    requires variables { model.now.points.now.variables ≡ existential_variables f.now }
{
    f.every_formula_is_lawful();
    let y = f.existentials()[place];
    for before in 0..model.table.rows() {
        let row = model.table.row(before + 1);
        if trees.bit(f, place, row) != model.points.bit(y, before + 1) {
            return false;
        }
    }
    true
}
