//! Runs the checker and the solver on tables of cases, and prints the status and the text of each.
//!
//! The files `dqcheck` and `dqsolve` are the tables, each of the program of its name; `tables` says
//! which lines there are.
#![tactic(auto)]

mod blocks;
mod calls;
mod programs;
mod settings;
mod tables;
mod texts;

use anyhow::Result;
use dq_io::{RealFiles, read_all};
use hint_log::Log;
use programs::Program;
use settings::Settings;

/// The most bytes of a table.
const MAX_TABLE: u64 = 1 << 20;

fn main(rt: HostRuntime) -> Result<()> {
    run_table(&rt, Program::Checker)?;
    run_table(&rt, Program::Solver)
}

// Runs the cases of the program's table.
fn run_table(rt: &HostRuntime, program: Program) -> Result<()> {
    let alloc = rt.alloc();
    let mut files = RealFiles::new(rt);
    let table = read_all(alloc, &mut files, program.name(), MAX_TABLE)?;
    let table = str::from_utf8(&table)?;
    let mut settings = Settings::new(alloc, program)?;
    let mut log = Log::new(alloc, 0);
    for line in table.lines() {
        if let Some(printed) = tables::take_line(rt, &mut settings, &mut log, line)? {
            println!(rt; "{printed}")?;
        }
    }
    Ok(())
}
