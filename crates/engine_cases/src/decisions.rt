//! A run of the loop, and its verdict.

ghost use Rattle.std.specs.Prelude.{◌≡◌, [], length};
ghost use Rattle.dq_lits.specs.Formula.{IsWellFormed};

use crate::reports::{Detail, Report};
use aig_graph::Graph;
use anyhow::{Result, anyhow};
use dq_formula::Formula;
use hint_log::{Log, Stop};
use oracle::Oracle;
use repair_loop::{Verdict, decide};
use std::alloc::Global;

/// Decides a formula, and writes the verdict's word and, where it is asked for, how many rounds it
/// took.
pub fn decide_by<O: Oracle>(
    alloc: Global,
    oracle: &mut O,
    f: &Formula,
    log: &mut Log,
    report: &mut Report,
) -> Result<()>
    requires formula { IsWellFormed f.now }
    requires fit { O.Fits oracle.old log.old }
    requires empty { log.old.entries ≡ [] }
{
    let verdict = decided(alloc, oracle, f, log)?;
    show_verdict(alloc, verdict, log, report)
}

fn show_verdict(alloc: Global, verdict: &str, log: &Log, report: &mut Report) -> Result<()> {
    report.text.push_str(verdict)?;
    if let Detail::Bits = report.detail {
        push_counts(alloc, log, &mut report.text)?;
    }
    Ok(())
}

// Decides a formula, and gives the verdict's word.
fn decided<O: Oracle>(
    alloc: Global,
    oracle: &mut O,
    f: &Formula,
    log: &mut Log,
) -> Result<&'static str>
    requires formula { IsWellFormed f.now }
    requires fit { O.Fits oracle.old log.old }
    requires empty { log.old.entries ≡ [] }
{
    let mut graph = Graph::new(alloc, f.universals().len() + f.existentials().len());
    let verdict = decide(alloc, oracle, &mut graph, f, log);
    word_of(&verdict)
}

fn word_of(verdict: &Result<Verdict, Stop>) -> Result<&'static str> {
    match verdict {
        Ok(Verdict::True(_, _)) => Ok(": true"),
        Ok(Verdict::False(_)) => Ok(": false"),
        Err(Stop::Limit) => Ok(": limit"),
        Err(Stop::Memory) => Err(anyhow!("out of memory")),
    }
}

fn push_counts(alloc: Global, log: &Log, printed: &mut String) -> Result<()> {
    let rounds = log.rounds();
    printed.push_str(&format!(in alloc; ", rounds {rounds}")?)?;
    Ok(())
}
