//! `dqcheck FORMULA CERT`: judges the certificate in one file for the formula in another, writes one
//! line, and ends with its status.
#![tactic(auto)]

use dq_io::{RealFiles, RealSink, command_words};
use dq_runs::Failure;
use dqcheck_core::dqcheck_run;
use std::io;
use std::process::ExitCode;

fn main(rt: HostRuntime) -> ExitCode {
    let words = match command_words(&rt) {
        Ok(words) => words,
        Err(error) if error.kind() == io::ErrorKind::OutOfMemory => {
            return ExitCode::from(Failure::WantOfMemory.code());
        }
        // A word that is no text belongs to no command, and neither do no words at all.
        Err(_) => Vec::new(rt.alloc()),
    };
    let mut files = RealFiles::new(&rt);
    let mut out = RealSink::new(&rt);
    ExitCode::from(dqcheck_run(rt.alloc(), &words, &mut files, &mut out))
}
