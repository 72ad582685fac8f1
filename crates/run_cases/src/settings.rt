//! What a case runs on.

use crate::programs::Program;
use crate::texts;
use anyhow::Result;
use dq_io::{
    Files, MemFiles, MemSink, NeverFailFiles, NeverFailSink, ReadStop, RealFiles, Sink, read_all,
};
use dqcheck_core::dqcheck_run;
use dqsolve_core::dqsolve_run;
use hint_log::Log;
use std::alloc::Global;

/// The sizes of reads under which the checker is to say the same.
const PIECES: [usize; 5] = [1, 2, 3, 7, 64];

/// The most bytes of a call, and the numbers of the calls that fail.
#[derive(Drop)]
pub struct Calls {
    pub greatest: usize,
    pub failing: Vec<u64>,
}

impl Calls {
    /// Calls of any size, of which none fails.
    pub fn new(alloc: Global) -> Calls {
        Calls {
            greatest: usize::MAX,
            failing: Vec::new(alloc),
        }
    }
}

/// The program of a case, its files and its words, and how its files and its sink behave.
#[derive(Drop)]
pub struct Settings {
    pub program: Program,
    pub formula: Option<Vec<u8>>,
    pub certificate: Option<Vec<u8>>,
    pub specification: Option<Vec<u8>>,
    pub implementation: Option<Vec<u8>>,
    pub script: Option<Vec<u8>>,
    /// The formula at each search of the script.
    pub moments: Vec<Vec<u8>>,
    pub words: Vec<String>,
    pub reads: Calls,
    pub writes: Calls,
}

/// What came of a run: its status, and what was written.
#[derive(Drop)]
pub struct Ran {
    pub status: u8,
    pub text: Vec<u8>,
}

impl Settings {
    pub fn new(alloc: Global, program: Program) -> Result<Settings> {
        Ok(Settings {
            program,
            formula: None,
            certificate: None,
            specification: None,
            implementation: None,
            script: None,
            moments: Vec::new(alloc),
            words: words_of(alloc, program, program.usual_words())?,
            reads: Calls::new(alloc),
            writes: Calls::new(alloc),
        })
    }

    /// Words, reads and writes are as at the start.
    pub fn reset(&mut self, alloc: Global) -> Result<()> {
        self.words = words_of(alloc, self.program, self.program.usual_words())?;
        self.reads = Calls::new(alloc);
        self.writes = Calls::new(alloc);
        Ok(())
    }

    /// Runs the program.
    pub fn run(&self, alloc: Global, log: &mut Log) -> Result<Ran> {
        let files = self.files(alloc)?;
        self.run_over(alloc, files, log)
    }

    /// Whether the program says the same under reads of other sizes, where no read is to fail.
    pub fn is_same_by_pieces(&self, alloc: Global, ran: &Ran, log: &mut Log) -> Result<bool> {
        if !self.reads.failing.is_empty() {
            return Ok(true);
        }
        for greatest in PIECES {
            let files = self.files_by(alloc, greatest)?;
            let other = self.run_over(alloc, files, log)?;
            if other.status != ran.status || other.text != ran.text {
                return Ok(false);
            }
        }
        Ok(true)
    }

    fn run_over(&self, alloc: Global, mut files: MemFiles, log: &mut Log) -> Result<Ran> {
        let sink = MemSink::new(alloc, self.writes.greatest.max(1), &self.writes.failing)?;
        run_into(alloc, self.program, &self.words, &mut files, sink, log)
    }

    /// Runs the program over files and a sink that never fail, and gives its status.
    pub fn run_unfailing(&self, alloc: Global, log: &mut Log) -> Result<u8> {
        let mut files = NeverFailFiles::new(alloc);
        if let Some(formula) = &self.formula {
            files.hold("formula", formula)?;
        }
        if let Some(certificate) = &self.certificate {
            files.hold("certificate", certificate)?;
        }
        let mut sink = NeverFailSink::new();
        Ok(status_of(alloc, self.program, &self.words, &mut files, &mut sink, log))
    }

    /// Runs the program over the system's files.
    pub fn run_real(&self, rt: &HostRuntime, log: &mut Log) -> Result<Ran> {
        let alloc = rt.alloc();
        let mut files = RealFiles::new(rt);
        let sink = MemSink::new(alloc, usize::MAX, &[])?;
        run_into(alloc, self.program, &self.words, &mut files, sink, log)
    }

    /// What the checker says of a certificate for the formula.
    pub fn judge(&self, alloc: Global, certificate: &[u8], log: &mut Log) -> Result<Ran> {
        let words = words_of(alloc, Program::Checker, Program::Checker.usual_words())?;
        let mut files = MemFiles::new(alloc, usize::MAX, &[])?;
        self.hold_certificate(&mut files, certificate)?;
        judge_over(alloc, &words, &mut files, log)
    }

    /// What `encode` writes of the two circuits.
    pub fn encode(&self, alloc: Global, log: &mut Log) -> Result<Ran> {
        let words = words_of(
            alloc,
            Program::Solver,
            "encode specification implementation",
        )?;
        let files = self.files(alloc)?;
        encode_over(alloc, &words, files, log)
    }

    fn hold_certificate(&self, files: &mut MemFiles, certificate: &[u8]) -> Result<()> {
        if let Some(formula) = &self.formula {
            files.hold("formula", formula)?;
        }
        files.hold("certificate", certificate)?;
        Ok(())
    }

    /// Reads the formula's file, of at most so many bytes.
    pub fn read(&self, alloc: Global, limit: u64) -> Result<Result<Vec<u8>, ReadStop>> {
        let mut files = self.files(alloc)?;
        Ok(read_all(alloc, &mut files, "formula", limit))
    }

    fn files(&self, alloc: Global) -> Result<MemFiles> {
        self.files_by(alloc, self.reads.greatest)
    }

    // The files, which give at most so many bytes a read.
    fn files_by(&self, alloc: Global, greatest: usize) -> Result<MemFiles> {
        let mut files = MemFiles::new(alloc, greatest.max(1), &self.reads.failing)?;
        if let Some(formula) = &self.formula {
            files.hold("formula", formula)?;
        }
        if let Some(certificate) = &self.certificate {
            files.hold("certificate", certificate)?;
        }
        self.hold_circuits(&mut files)?;
        self.hold_script(&mut files)?;
        Ok(files)
    }

    fn hold_script(&self, files: &mut MemFiles) -> Result<()> {
        if let Some(script) = &self.script {
            files.hold("script", script)?;
        }
        Ok(())
    }

    fn hold_circuits(&self, files: &mut MemFiles) -> Result<()> {
        if let Some(specification) = &self.specification {
            files.hold("specification", specification)?;
        }
        if let Some(implementation) = &self.implementation {
            files.hold("implementation", implementation)?;
        }
        Ok(())
    }
}

fn encode_over(alloc: Global, words: &[String], mut files: MemFiles, log: &mut Log) -> Result<Ran> {
    let sink = MemSink::new(alloc, usize::MAX, &[])?;
    run_into(alloc, Program::Solver, words, &mut files, sink, log)
}

fn judge_over(alloc: Global, words: &[String], files: &mut MemFiles, log: &mut Log) -> Result<Ran> {
    let sink = MemSink::new(alloc, usize::MAX, &[])?;
    run_into(alloc, Program::Checker, words, files, sink, log)
}

// Runs a program, and gives its status and what was written.
fn run_into<F: Files>(
    alloc: Global,
    program: Program,
    words: &[String],
    files: &mut F,
    mut sink: MemSink,
    log: &mut Log,
) -> Result<Ran> {
    let status = status_of(alloc, program, words, files, &mut sink, log);
    let text = sink.taken().to_vec(alloc)?;
    Ok(Ran { status, text })
}

// Runs a program, and gives its status.
fn status_of<F: Files, K: Sink>(
    alloc: Global,
    program: Program,
    words: &[String],
    files: &mut F,
    sink: &mut K,
    log: &mut Log,
) -> u8 {
    match program {
        Program::Checker => check(alloc, words, files, sink),
        Program::Solver => solve(alloc, words, files, sink, log),
    }
}

// The one call of the checker: it costs the prover more than all that stands around it.
fn check<F: Files, K: Sink>(alloc: Global, words: &[String], files: &mut F, sink: &mut K) -> u8 {
    dqcheck_run(alloc, words, files, sink)
}

// The one call of the solver.
fn solve<F: Files, K: Sink>(
    alloc: Global,
    words: &[String],
    files: &mut F,
    sink: &mut K,
    log: &mut Log,
) -> u8 {
    dqsolve_run(alloc, words, files, sink, log)
}

/// A program's name, and then these words.
pub fn words_of(alloc: Global, program: Program, rest: &str) -> Result<Vec<String>> {
    let mut words = Vec::new(alloc);
    words.push(String::from_str(alloc, program.name())?)?;
    for word in rest.split_whitespace() {
        words.push(String::from_str(alloc, word)?)?;
    }
    Ok(words)
}

/// What the checker says of a certificate for this formula, with its status, on one line.
pub fn judge_for(
    alloc: Global,
    formula: &[u8],
    certificate: &[u8],
    log: &mut Log,
) -> Result<String> {
    let mut files = MemFiles::new(alloc, usize::MAX, &[])?;
    files.hold("formula", formula)?;
    files.hold("certificate", certificate)?;
    let words = words_of(alloc, Program::Checker, Program::Checker.usual_words())?;
    let ran = judge_over(alloc, &words, &mut files, log)?;
    shown_run(alloc, &ran)
}

/// A status, and what was written, on one line.
pub fn shown_run(alloc: Global, ran: &Ran) -> Result<String> {
    let status = ran.status;
    let text = texts::shown(alloc, &ran.text)?;
    Ok(format!(in alloc; "{status} {text}")?)
}
