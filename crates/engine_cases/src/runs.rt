//! Whole runs of the loop, by the solver of the programs, and beside it by the one that scans.

ghost use Rattle.std.specs.Prelude.{◌≡◌, ◌≤◌, []};
ghost use Rattle.dq_lits.specs.Formula.{IsWellFormed};
ghost use Rattle.cert_text.specs.Header.{max_count};

use crate::decisions::decide_by;
use crate::exports::refute_by;
use crate::reports::{Detail, Report};
use anyhow::{Result, anyhow};
use cdcl_core::Cdcl;
use cdcl_scan::Scan;
use dq_formula::Formula;
use hint_log::Log;
use oracle::Oracle;
use std::alloc::Global;

// As many steps as a certificate may have.
const MAX_STEPS: u64 = 1_000_000_000;

/// What a run is for, and what is printed of it.
#[derive(Clone, Copy)]
pub enum Aim {
    /// A verdict, and where it is asked for in how many rounds.
    Verdict(Detail),
    /// A refutation, which the checker judges, and where it is asked for its text.
    Refutation(Detail),
}

/// A formula, in how many steps it is decided, and what for.
#[derive(Clone, Copy)]
struct Task<'a> {
    f: &'a Formula,
    limit: u64,
    aim: Aim,
}

/// Decides a formula in so many steps.
pub fn run(alloc: Global, f: &Formula, limit: &str, aim: Aim, printed: &mut String) -> Result<()>
    requires formula { IsWellFormed f.now }
{
    let limit: u64 = limit.trim().parse()?;
    if limit > MAX_STEPS {
        return Err(anyhow!("too many steps: {limit}"));
    }
    run_both(alloc, Task { f, limit, aim }, printed)
}

fn run_both(alloc: Global, task: Task, printed: &mut String) -> Result<()>
    requires formula { IsWellFormed task.f.now }
    requires limit { task.limit ≤ max_count }
{
    let mut report = Report::new(alloc, printed_detail(task.aim));
    by_watches(alloc, task, &mut report)?;
    printed.push_str(&report.text)?;
    compare(alloc, task, &report.text, printed)
}

fn printed_detail(aim: Aim) -> Detail {
    match aim {
        Aim::Verdict(detail) | Aim::Refutation(detail) => detail,
    }
}

// Prints what comes of the run by scans, where it is something else: another verdict, in however
// many rounds, another word of the checker's, or where its text is printed another refutation.
fn compare(alloc: Global, task: Task, shown: &str, printed: &mut String) -> Result<()>
    requires formula { IsWellFormed task.f.now }
    requires limit { task.limit ≤ max_count }
{
    let mut scanned = Report::new(alloc, compared_detail(task.aim));
    by_scans(alloc, task, &mut scanned)?;
    if !are_same(task.aim, shown, &scanned.text) {
        printed.push_str(", by scans")?;
        printed.push_str(&scanned.text)?;
    }
    Ok(())
}

fn compared_detail(aim: Aim) -> Detail {
    match aim {
        Aim::Verdict(_) => Detail::Checks,
        Aim::Refutation(detail) => detail,
    }
}

fn are_same(aim: Aim, shown: &str, scanned: &str) -> bool {
    match aim {
        Aim::Verdict(_) => shown.starts_with(scanned),
        Aim::Refutation(_) => shown == scanned,
    }
}

fn by_watches(alloc: Global, task: Task, report: &mut Report) -> Result<()>
    requires formula { IsWellFormed task.f.now }
    requires limit { task.limit ≤ max_count }
{
    let mut oracle = Cdcl::new(alloc);
    let mut log = Log::new(alloc, task.limit);
    run_by(alloc, &mut oracle, &mut log, task, report)
}

fn by_scans(alloc: Global, task: Task, report: &mut Report) -> Result<()>
    requires formula { IsWellFormed task.f.now }
    requires limit { task.limit ≤ max_count }
{
    let mut oracle = Scan::new(alloc);
    let mut log = Log::new(alloc, task.limit);
    run_by(alloc, &mut oracle, &mut log, task, report)
}

fn run_by<O: Oracle>(
    alloc: Global,
    oracle: &mut O,
    log: &mut Log,
    task: Task,
    report: &mut Report,
) -> Result<()>
    requires formula { IsWellFormed task.f.now }
    requires fit { O.Fits oracle.old log.old }
    requires empty { log.old.entries ≡ [] }
    requires limit { log.old.limit ≤ max_count }
{
    match task.aim {
        Aim::Verdict(_) => decide_by(alloc, oracle, task.f, log, report),
        Aim::Refutation(_) => refute_by(alloc, oracle, task.f, log, report),
    }
}
