//! Runs the solver and the search's engines on tables of cases, or the solver on a formula in DIMACS.
//!
//! Without a word behind the program's name it reads the table `engines`, a command a line, and
//! prints what each case gives; `tables` says which commands there are. Then it reads the table
//! `solver`, and prints what each case gives by watched literals, and whether it gives the same by
//! scans; `solver_cases` says which commands there are; and at last what a list gives of numbers
//! beyond 32 bits. With a file's name it reads that file, a CNF, and prints its answer: `s
//! SATISFIABLE` with a line of values, or `s UNSATISFIABLE` with the lines of a refutation, each with
//! its id, its literals and its hints; and how many clauses were learned. A number behind the name is
//! how many may be: where one more would have to be learned, the answer is `s UNKNOWN`.
#![tactic(auto)]

mod calls;
mod circuits;
mod cnf;
mod conditions;
mod decisions;
mod definitions;
mod evaluation;
mod expansions;
mod exports;
mod expressions;
mod forcing;
mod forms;
mod gates;
mod guesses;
mod judging;
mod numbers;
mod reports;
mod rows;
mod runs;
mod shown;
mod solver_cases;
mod tables;
mod wide;

use anyhow::Result;
use dq_io::{RealFiles, read_all};
use std::env;

/// The most bytes of a table or a formula.
const MAX_TEXT: u64 = 1 << 30;

fn main(rt: HostRuntime) -> Result<()> {
    let alloc = rt.alloc();
    let words: Vec<String> = env::args(&rt)?.collect(alloc)?;
    match words.get(1) {
        Some(name) => answer_file(&rt, name, limit_of(words.get(2))?),
        None => {
            run_engines(&rt)?;
            run_solver(&rt)
        }
    }
}

// Answers the CNF in a file, by at most so many learned clauses.
fn answer_file(rt: &HostRuntime, name: &str, limit: u64) -> Result<()> {
    let alloc = rt.alloc();
    let text = text_of(rt, name)?;
    let answer = cnf::answer(alloc, &text, limit)?;
    println!(rt; "{answer}")?;
    Ok(())
}

// Prints what each case of the engines gives.
fn run_engines(rt: &HostRuntime) -> Result<()> {
    let alloc = rt.alloc();
    let table = text_of(rt, "engines")?;
    let table = str::from_utf8(&table)?;
    let mut formula = String::new(alloc);
    for line in table.lines() {
        if let Some(printed) = tables::take_line(alloc, &mut formula, line)? {
            println!(rt; "{printed}")?;
        }
    }
    Ok(())
}

// Prints what each case of the solver gives.
fn run_solver(rt: &HostRuntime) -> Result<()> {
    let alloc = rt.alloc();
    let table = text_of(rt, "solver")?;
    let answers = forms::answers(alloc, str::from_utf8(&table)?)?;
    print!(rt; "{answers}")?;
    let wide = wide::answer(alloc)?;
    println!(rt; "{wide}")?;
    Ok(())
}

fn text_of(rt: &HostRuntime, name: &str) -> Result<Vec<u8>> {
    let mut files = RealFiles::new(rt);
    Ok(read_all(rt.alloc(), &mut files, name, MAX_TEXT)?)
}

// How many clauses may be learned.
fn limit_of(word: Option<&String>) -> Result<u64> {
    match word {
        Some(word) => Ok(word.parse()?),
        None => Ok(u64::MAX),
    }
}
