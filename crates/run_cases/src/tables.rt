//! The lines of a table.
//!
//! `formula`, `certificate`, `specification`, `implementation` and `script` give the files' texts, whose lines
//! are parted by ` / ` and each end with LF, but that a `\` at the end takes the last LF away; `\r`
//! is a CR, and `\x0a` the byte with these two digits. `more` adds lines to the formula, the number
//! of times that stands before them. `absent` takes the files away. `words` gives
//! the words behind the program's name, `reads` the most bytes of a read and the numbers of the
//! calls that fail, `writes` the same of the sink. `run` runs the program under a name, and then
//! words, reads and writes are as at the start; the checker has to say the same under reads of 1, 2,
//! 3, 7 and 64 bytes, where none is to fail; behind a verdict of the solver it prints what the
//! checker says of the text that was written, and how many rounds and learned clauses the log has.
//! `alone` does the same without that. `moment` gives the formula at the next search of the script,
//! and `blocks` prints each block's verdict, and what the checker says of it for that formula. `verdict` runs the solver, and prints the status and, behind
//! a verdict or definitions, what the checker says, but no text. `compare` does it with a verdict
//! on two circuits: the formula is the one that `encode` writes, and of the text the status alone
//! is printed, and what the checker says. `unfailing` runs the program over files and a sink that
//! never fail, and prints the status alone; `real` runs it over the system's files. `read` reads the
//! formula's file, of at most so many bytes. `canonical` prints the canonical text of the formula, `refutation` that of the
//! certificate as a refutation of it, `proof` that of the proof in the certificate, a circuit, and
//! `circuit` that of the circuit. `values` prints the values of the outputs of the certificate, a
//! circuit in either form, under the row whose bits stand before the name, and `check` what is wrong
//! with the certificate as a refutation. Lines that begin with `#` are comments.

use crate::blocks::shown_blocks;
use crate::settings::{Calls, Ran, Settings, shown_run, words_of};
use crate::{calls, texts};
use anyhow::{Result, anyhow};
use dq_io::ReadStop;
use hint_log::Log;
use hint_log::laws::rounds_are_steps;
use std::alloc::Global;

/// Takes a line: a setting, or a case, of which it gives what is to be printed.
pub fn take_line(
    rt: &HostRuntime,
    settings: &mut Settings,
    log: &mut Log,
    line: &str,
) -> Result<Option<String>> {
    let alloc = rt.alloc();
    let (word, rest) = line.split_once(' ').unwrap_or((line, ""));
    match word {
        "" | "#" => Ok(None),
        "formula" => set_formula(alloc, settings, rest),
        "more" => add_lines(alloc, settings, rest),
        "certificate" => set_certificate(alloc, settings, rest),
        "specification" => set_specification(alloc, settings, rest),
        "implementation" => set_implementation(alloc, settings, rest),
        "script" => set_script(alloc, settings, rest),
        "moment" => add_moment(alloc, settings, rest),
        "absent" => take_files_away(settings),
        "words" => set_words(alloc, settings, rest),
        "reads" => set_reads(alloc, settings, rest),
        "writes" => set_writes(alloc, settings, rest),
        "run" => run(alloc, settings, log, rest),
        "compare" => compare(alloc, settings, log, rest),
        "alone" => run_alone(alloc, settings, log, rest),
        "blocks" => run_blocks(alloc, settings, log, rest),
        "verdict" => run_verdict(alloc, settings, log, rest),
        "unfailing" => run_unfailing(alloc, settings, log, rest),
        "real" => run_real(rt, settings, log, rest),
        "read" => read(alloc, settings, rest),
        "canonical" => named(alloc, rest, texts::canonical_formula(alloc, settings)),
        "refutation" => named(alloc, rest, texts::canonical_refutation(alloc, settings)),
        "proof" => named(alloc, rest, texts::canonical_proof(alloc, settings)),
        "circuit" => named(alloc, rest, texts::canonical_circuit(alloc, settings)),
        "values" => values(alloc, settings, rest),
        "check" => check(alloc, settings, rest),
        _ => Err(anyhow!("no setting: {line}")),
    }
}

fn set_formula(alloc: Global, settings: &mut Settings, rest: &str) -> Result<Option<String>> {
    settings.formula = Some(texts::text_of(alloc, rest)?);
    Ok(None)
}

// Adds lines to the formula's text, so many times.
fn add_lines(alloc: Global, settings: &mut Settings, rest: &str) -> Result<Option<String>> {
    let Some((times, spelled)) = rest.split_once(' ') else {
        return Err(anyhow!("no lines: {rest}"));
    };
    let lines = texts::text_of(alloc, spelled)?;
    let Some(text) = &mut settings.formula else {
        return Err(anyhow!("no formula"));
    };
    let times: u64 = times.parse()?;
    for _ in 0..times {
        text.extend_from_slice(&lines)?;
    }
    Ok(None)
}

fn set_certificate(alloc: Global, settings: &mut Settings, rest: &str) -> Result<Option<String>> {
    settings.certificate = Some(texts::text_of(alloc, rest)?);
    Ok(None)
}

fn set_specification(alloc: Global, settings: &mut Settings, rest: &str) -> Result<Option<String>> {
    settings.specification = Some(texts::text_of(alloc, rest)?);
    Ok(None)
}

fn set_implementation(
    alloc: Global,
    settings: &mut Settings,
    rest: &str,
) -> Result<Option<String>> {
    settings.implementation = Some(texts::text_of(alloc, rest)?);
    Ok(None)
}

fn set_script(alloc: Global, settings: &mut Settings, rest: &str) -> Result<Option<String>> {
    settings.script = Some(texts::text_of(alloc, rest)?);
    settings.moments = Vec::new(alloc);
    Ok(None)
}

fn add_moment(alloc: Global, settings: &mut Settings, rest: &str) -> Result<Option<String>> {
    settings.moments.push(texts::text_of(alloc, rest)?)?;
    Ok(None)
}

fn take_files_away(settings: &mut Settings) -> Result<Option<String>> {
    settings.formula = None;
    settings.certificate = None;
    settings.specification = None;
    settings.implementation = None;
    settings.script = None;
    Ok(None)
}

fn set_words(alloc: Global, settings: &mut Settings, rest: &str) -> Result<Option<String>> {
    settings.words = words_of(alloc, settings.program, rest)?;
    Ok(None)
}

fn set_reads(alloc: Global, settings: &mut Settings, rest: &str) -> Result<Option<String>> {
    settings.reads = calls_of(alloc, rest)?;
    Ok(None)
}

fn set_writes(alloc: Global, settings: &mut Settings, rest: &str) -> Result<Option<String>> {
    settings.writes = calls_of(alloc, rest)?;
    Ok(None)
}

// A case: its status and text, and, behind a verdict, what shows it.
fn run(
    alloc: Global,
    settings: &mut Settings,
    log: &mut Log,
    name: &str,
) -> Result<Option<String>> {
    let ran = settings.run(alloc, log)?;
    if settings.program.is_checker() && !settings.is_same_by_pieces(alloc, &ran, log)? {
        return Err(anyhow!("by pieces it isn't the same: {name}"));
    }
    settings.reset(alloc)?;
    let shown = shown_run(alloc, &ran)?;
    if ran.status != 10 && ran.status != 20 {
        return Ok(Some(format!(in alloc; "{name}: {shown}")?));
    }
    let evidence = evidence(alloc, settings, log, &ran)?;
    Ok(Some(format!(in alloc; "{name}: {shown}\n  judged {evidence}")?))
}

// What the checker says of the text, and how much the log has.
fn evidence(alloc: Global, settings: &Settings, log: &mut Log, ran: &Ran) -> Result<String> {
    let counts = counts_of(alloc, log)?;
    let judged = shown_run(alloc, &settings.judge(alloc, &ran.text, log)?)?;
    Ok(format!(in alloc; "{judged} {counts}")?)
}

// A case of two circuits: its status and text, or, behind a verdict, its status and what the checker
// says of the text.
fn compare(
    alloc: Global,
    settings: &mut Settings,
    log: &mut Log,
    name: &str,
) -> Result<Option<String>> {
    let ran = settings.run(alloc, log)?;
    settings.reset(alloc)?;
    if ran.status != 10 && ran.status != 20 {
        let shown = shown_run(alloc, &ran)?;
        return Ok(Some(format!(in alloc; "{name}: {shown}")?));
    }
    let status = ran.status;
    let judged = judged_boxes(alloc, settings, log, &ran)?;
    Ok(Some(format!(in alloc; "{name}: {status} judged {judged}")?))
}

// What the checker says of the text as a certificate of the two circuits' formula.
fn judged_boxes(
    alloc: Global,
    settings: &mut Settings,
    log: &mut Log,
    ran: &Ran,
) -> Result<String> {
    settings.formula = Some(settings.encode(alloc, log)?.text);
    let judged = settings.judge(alloc, &ran.text, log)?;
    shown_run(alloc, &judged)
}

fn run_alone(
    alloc: Global,
    settings: &mut Settings,
    log: &mut Log,
    name: &str,
) -> Result<Option<String>> {
    let ran = settings.run(alloc, log)?;
    settings.reset(alloc)?;
    let shown = shown_run(alloc, &ran)?;
    Ok(Some(format!(in alloc; "{name}: {shown}")?))
}

// A case of a session: its status, and of each block the verdict and what the checker says of it.
fn run_blocks(
    alloc: Global,
    settings: &mut Settings,
    log: &mut Log,
    name: &str,
) -> Result<Option<String>> {
    let ran = settings.run(alloc, log)?;
    settings.reset(alloc)?;
    let status = ran.status;
    let blocks = shown_blocks(alloc, &settings.moments, log, &ran.text)?;
    Ok(Some(format!(in alloc; "{name}: {status}{blocks}")?))
}

// A case: its status, and, behind a verdict or definitions, what the checker says of the text.
fn run_verdict(
    alloc: Global,
    settings: &mut Settings,
    log: &mut Log,
    name: &str,
) -> Result<Option<String>> {
    let ran = settings.run(alloc, log)?;
    settings.reset(alloc)?;
    let status = ran.status;
    if status != 10 && status != 20 && status != 30 {
        return Ok(Some(format!(in alloc; "{name}: {status}")?));
    }
    let judged = shown_run(alloc, &settings.judge(alloc, &ran.text, log)?)?;
    Ok(Some(format!(in alloc; "{name}: {status} judged {judged}")?))
}

fn run_unfailing(
    alloc: Global,
    settings: &Settings,
    log: &mut Log,
    name: &str,
) -> Result<Option<String>> {
    let status = settings.run_unfailing(alloc, log)?;
    Ok(Some(format!(in alloc; "{name}: {status}")?))
}

fn run_real(
    rt: &HostRuntime,
    settings: &mut Settings,
    log: &mut Log,
    name: &str,
) -> Result<Option<String>> {
    let alloc = rt.alloc();
    let ran = settings.run_real(rt, log)?;
    settings.reset(alloc)?;
    let shown = shown_run(alloc, &ran)?;
    Ok(Some(format!(in alloc; "{name}: {shown}")?))
}

// What is read of the formula's file, of at most so many bytes.
fn read(alloc: Global, settings: &Settings, limit: &str) -> Result<Option<String>> {
    let taken = match settings.read(alloc, limit.parse()?)? {
        Ok(bytes) => texts::shown(alloc, &bytes)?,
        Err(ReadStop::Memory) => String::from_str(alloc, "memory")?,
        Err(ReadStop::Fault) => String::from_str(alloc, "fault")?,
        Err(ReadStop::TooLong) => String::from_str(alloc, "too long")?,
    };
    Ok(Some(format!(in alloc; "at most {limit}: {taken}")?))
}

fn named(alloc: Global, name: &str, text: Result<Vec<u8>>) -> Result<Option<String>> {
    let shown = texts::shown(alloc, &text?)?;
    Ok(Some(format!(in alloc; "{name}: {shown}")?))
}

// The outputs' values in the certificate, a circuit, under the row whose bits stand before the name.
fn values(alloc: Global, settings: &Settings, rest: &str) -> Result<Option<String>> {
    let (bits, name) = rest.split_once(' ').unwrap_or((rest, ""));
    let shown = calls::output_values(alloc, settings, bits)?;
    Ok(Some(format!(in alloc; "{name}: {shown}")?))
}

// What is wrong with the certificate, a refutation of the formula.
fn check(alloc: Global, settings: &Settings, name: &str) -> Result<Option<String>> {
    let shown = calls::checked(alloc, settings)?;
    Ok(Some(format!(in alloc; "{name}: {shown}")?))
}

// How many rounds and learned clauses the log has.
fn counts_of(alloc: Global, log: &Log) -> Result<String> {
    rounds_are_steps();
    let rounds = log.rounds();
    let learned = log.steps() - rounds;
    Ok(format!(in alloc; "rounds {rounds} learned {learned}")?)
}

// The greatest size, and the numbers of the calls that fail.
fn calls_of(alloc: Global, rest: &str) -> Result<Calls> {
    let mut calls = Calls::new(alloc);
    let mut numbers = rest.split_whitespace();
    if let Some(greatest) = numbers.next() {
        calls.greatest = greatest.parse()?;
    }
    for number in numbers {
        calls.failing.push(number.parse()?)?;
    }
    Ok(calls)
}
