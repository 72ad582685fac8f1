//! A run of the loop whose refutation is exported, and judged by the checker.

ghost use Rattle.std.specs.Prelude.{◌≡◌, ◌≤◌, [], length};
ghost use Rattle.dq_lits.specs.Formula.{IsWellFormed};
ghost use Rattle.hint_log.specs.ProductiveLog.{IsProductiveLog};
ghost use Rattle.cert_text.specs.Header.{max_count};
ghost use Rattle.expansion.specs.Table.{IsRefutedBy};

use crate::reports::{Detail, Report};
use aig_graph::Graph;
use anyhow::{Result, anyhow};
use cert_export::laws::productive_answers_can_be_exported;
use cert_export::{clause_numbers, export_false};
use cert_judge::{Judgement, judge};
use cert_text::write_dqr;
use dq_formula::Formula;
use hint_log::Log;
use oracle::Oracle;
use repair_loop::{Verdict, decide};
use std::alloc::Global;

// More bytes than any case's certificate has.
const MAX_BYTES: usize = 1 << 20;

/// Decides a formula, and prints what the checker says of the refutation.
pub fn refute_by<O: Oracle>(
    alloc: Global,
    oracle: &mut O,
    f: &Formula,
    log: &mut Log,
    report: &mut Report,
) -> Result<()>
    requires formula { IsWellFormed f.now }
    requires fit { O.Fits oracle.old log.old }
    requires empty { log.old.entries ≡ [] }
    requires limit { log.old.limit ≤ max_count }
{
    let mut graph = Graph::new(alloc, f.universals().len() + f.existentials().len());
    match decide(alloc, oracle, &mut graph, f, log) {
        Ok(Verdict::False(id)) => export(alloc, f, log, id, report),
        _ => {
            report.text.push_str(": not refuted")?;
            Ok(())
        }
    }
}

fn export(alloc: Global, f: &Formula, log: &Log, id: u64, report: &mut Report) -> Result<()>
    requires formula { IsWellFormed f.now }
    requires productive { IsProductiveLog f.now log.now.entries }
    requires refuted { IsRefutedBy log.now.entries id }
    requires limit { log.now.limit ≤ max_count }
{
    let text = certificate(alloc, f, log, id)?;
    show_text(&text, report)?;
    show_judgement(alloc, f, text, report)
}

fn certificate(alloc: Global, f: &Formula, log: &Log, id: u64) -> Result<Vec<u8>>
    requires formula { IsWellFormed f.now }
    requires productive { IsProductiveLog f.now log.now.entries }
    requires refuted { IsRefutedBy log.now.entries id }
    requires limit { log.now.limit ≤ max_count }
{
    log.every_log_is_lawful();
    productive_answers_can_be_exported();
    let numbers = clause_numbers(alloc, f)?;
    let refutation = export_false(alloc, log, id, f, &numbers)?;
    Ok(write_dqr(alloc, &refutation, f)?)
}

fn show_text(text: &[u8], report: &mut Report) -> Result<()> {
    if let Detail::Bits = report.detail {
        report.text.push('\n')?;
        report.text.push_str(str::from_utf8(text)?)?;
    }
    Ok(())
}

fn show_judgement(alloc: Global, f: &Formula, text: Vec<u8>, report: &mut Report) -> Result<()>
    requires formula { IsWellFormed f.now }
{
    let word = judgement(alloc, f, text)?;
    report.text.push_str(word)?;
    Ok(())
}

fn judgement(alloc: Global, f: &Formula, text: Vec<u8>) -> Result<&'static str>
    requires formula { IsWellFormed f.now }
{
    if text.len() > MAX_BYTES {
        return Err(anyhow!("a long certificate"));
    }
    match judge(alloc, f, text)? {
        Judgement::ValidFalse => Ok(": VALID FALSE"),
        _ => Ok(": not accepted"),
    }
}
