//! Each case by both solvers: by watched literals and by scans.

ghost use Rattle.std.specs.Prelude.{◌≡◌, []};

use crate::solver_cases::{Case, empty_case, take_line};
use anyhow::Result;
use cdcl_core::Cdcl;
use cdcl_scan::Scan;
use hint_log::Log;
use oracle::Oracle;
use std::alloc::Global;

/// What the cases of a table give, a line each: by watched literals, and behind each case whether
/// the answers by scans are the same.
///
/// A case begins with `new LIMIT`, an empty log that takes so many learned clauses.
pub fn answers(alloc: Global, table: &str) -> Result<String> {
    let mut printed = String::new(alloc);
    let mut limit = 0u64;
    let mut commands = String::new(alloc);
    for line in table.lines() {
        match line.strip_prefix("new ") {
            Some(next) => {
                push_answers(alloc, limit, &commands, &mut printed)?;
                limit = next.parse()?;
                commands.clear();
            }
            None => push_line(&mut commands, line)?,
        }
    }
    push_answers(alloc, limit, &commands, &mut printed)?;
    Ok(printed)
}

fn push_line(text: &mut String, line: &str) -> Result<()> {
    text.push_str(line)?;
    text.push('\n')?;
    Ok(())
}

// What a case gives; nothing for a table's head.
fn push_answers(alloc: Global, limit: u64, commands: &str, printed: &mut String) -> Result<()> {
    let watched = by_watches(alloc, limit, commands)?;
    let scanned = by_scans(alloc, limit, commands)?;
    push_both(&watched, &scanned, printed)
}

fn push_both(watched: &str, scanned: &str, printed: &mut String) -> Result<()> {
    printed.push_str(watched)?;
    if watched != scanned {
        printed.push_str("by scans:\n")?;
        printed.push_str(scanned)?;
    } else if !watched.is_empty() {
        printed.push_str("by scans: the same\n")?;
    }
    Ok(())
}

fn by_watches(alloc: Global, limit: u64, commands: &str) -> Result<String> {
    let mut oracle = Cdcl::new(alloc);
    let mut log = Log::new(alloc, limit);
    answered(alloc, &mut oracle, &mut log, commands)
}

fn by_scans(alloc: Global, limit: u64, commands: &str) -> Result<String> {
    let mut oracle = Scan::new(alloc);
    let mut log = Log::new(alloc, limit);
    answered(alloc, &mut oracle, &mut log, commands)
}

// What a case's commands give by one solver.
fn answered<O: Oracle>(
    alloc: Global,
    oracle: &mut O,
    log: &mut Log,
    commands: &str,
) -> Result<String>
    requires fit { O.Fits oracle.old log.old }
    requires empty { log.old.entries ≡ [] }
{
    let mut case = empty_case(alloc);
    let mut printed = String::new(alloc);
    for line in commands.lines() {
        if let Some(text) = take_line(alloc, oracle, log, &mut case, line)? {
            push_line(&mut printed, &text)?;
        }
    }
    Ok(printed)
}
