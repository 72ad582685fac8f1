//! `dqsolve COMMAND ..`: decides a formula, fills the black boxes of a circuit, finds definitions or
//! takes a script's commands; writes what came of it, and ends with its status.
#![tactic(auto)]

use dq_io::{RealFiles, RealSink, command_words};
use dq_runs::Failure;
use dqsolve_core::dqsolve_run;
use hint_log::Log;
use std::io;
use std::process::ExitCode;

fn main(rt: HostRuntime) -> ExitCode {
    let words = match command_words(&rt) {
        Ok(words) => words,
        Err(error) if error.kind() == io::ErrorKind::OutOfMemory => {
            return ExitCode::from(Failure::WantOfMemory.code());
        }
        // A word that is no text belongs to no command, and neither do no words at all.
        Err(_) => Vec::new(rt.alloc()),
    };
    let mut files = RealFiles::new(&rt);
    let mut out = RealSink::new(&rt);
    let mut log = Log::new(rt.alloc(), 0);
    ExitCode::from(dqsolve_run(rt.alloc(), &words, &mut files, &mut out, &mut log))
}
