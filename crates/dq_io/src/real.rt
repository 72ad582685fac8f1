//! The system's files and its standard output: the trusted edge.

// The trusted edge: files and the output of the system that the program runs on. It tells nothing
// of what they hold, and counts every error.
ghost use Rattle.std.specs.Prelude.{◌≡◌, ◌+◌, ◌<◌, ◌≤◌, ℕ, true, false, length, IfOk, OnOk, OnErr, Ok, None};
ghost use Rattle.dq_io.specs.Causes.{HasCause, next_count};
ghost use Rattle.dq_io.specs.Files.{Untold};

use crate::errors::Failed;
use crate::files::Files;
use crate::sinks::Sink;
use std::io::{Read, Write};
use std::marker::Model;
use std::{fs, io, rt};

// Counts a fault. The count stays at its last value.
fn count_fault(faults: &mut u64) -> Failed
    ensures counted { faults.new ≡ next_count faults.old }
    ensures later { faults.old ≤ faults.new }
{
    *faults = faults.saturating_add(1);
    Failed
}

/// The files of the runtime that the program is given, by their paths.
#[derive(Drop)]
pub struct RealFiles<R: rt::Files> {
    runtime: R,
    file: Option<R::File>,
    given: u64,
    faults: u64,
    picks: u64,
}

impl<R: rt::Files> Model for RealFiles<R> {
    ghost use Rattle.std.specs.Prelude.{is_some};
    ghost use Rattle.dq_io.specs.Real.{RealState};

    ghost Value = { RealState };

    ghost view = { λ f.
        record { is_open = is_some f.file; given = f.given; faults = f.faults; picks = f.picks } };
}

impl<R: rt::Files> RealFiles<R> {
    pub fn new(runtime: R) -> RealFiles<R>
        ensures { result ≡ record { is_open = false; given = 0; faults = 0; picks = 0 } }
    {
        RealFiles {
            runtime,
            file: None,
            given: 0,
            faults: 0,
            picks: 0,
        }
    }
}

impl<R: rt::Files> Files for RealFiles<R> {
    ghost held = { λ f name. Untold };

    ghost rest = { λ f. None };

    ghost given = { λ f. f.given };

    ghost faults = { λ f. f.faults };

    ghost picks = { λ f. f.picks };

    ghost reliable = { λ f. false };

    fn pick(&mut self, name: &str) -> Result<(), Failed>
        ensures ok { OnOk result (self.new ≡ record self.old {
          is_open = true;
          given = 0;
          picks = next_count self.old.picks;
        }) }
        ensures err { OnErr result (self.new ≡ record {
          is_open = false;
          given = 0;
          faults = next_count self.old.faults;
          picks = next_count self.old.picks;
        }) }
        ensures cause { HasCause self.old.faults self.new.faults result }
    {
        self.picks = self.picks.saturating_add(1);
        self.file = None;
        self.given = 0;
        match fs::open(&self.runtime, name) {
            Ok(file) => {
                self.file = Some(file);
                Ok(())
            }
            Err(_) => Err(count_fault(&mut self.faults)),
        }
    }

    /// Where no file is open nothing is left. It fails too where the count of the bytes given would
    /// overflow.
    fn read(&mut self, buf: &mut [u8]) -> Result<usize, Failed>
        ensures bound { IfOk result (λ n. n ≤ length buf.new) }
        ensures ok { IfOk result (λ n.
            self.new ≡ record self.old { given = self.old.given + n }) }
        ensures err { OnErr result
            (self.new ≡ record self.old { faults = next_count self.old.faults }) }
        ensures closed { self.old.is_open ≡ false → result ≡ Ok 0 }
        ensures cause { HasCause self.old.faults self.new.faults result }
    {
        let Some(file) = &mut self.file else {
            return Ok(0);
        };
        let Ok(count) = file.read(buf) else {
            return Err(count_fault(&mut self.faults));
        };
        let Some(given) = self.given.checked_add(count as u64) else {
            return Err(count_fault(&mut self.faults));
        };
        self.given = given;
        Ok(count)
    }
}

/// The standard output of the runtime that the program is given.
#[derive(Drop)]
pub struct RealSink<R: Print> {
    runtime: R,
    faults: u64,
}

impl<R: Print> Model for RealSink<R> {
    ghost use Rattle.std.specs.Prelude.{ℕ};

    ghost Value = { ℕ };

    ghost view = { λ s. s.faults };
}

impl<R: Print> RealSink<R> {
    pub fn new(runtime: R) -> RealSink<R>
        ensures { result ≡ 0 }
    {
        RealSink { runtime, faults: 0 }
    }
}

// Writes some of the bytes and flushes them.
fn write_and_flush(runtime: &impl Print, bytes: &[u8]) -> io::Result<usize>
    ensures { IfOk result (λ n. n ≤ length bytes.now) }
{
    let mut output = io::writer(runtime);
    let count = output.write(bytes)?;
    output.flush()?;
    Ok(count)
}

impl<R: Print> Sink for RealSink<R> {
    ghost taken = { λ s. None };

    ghost faults = { λ s. s };

    /// A write that takes nothing of a piece that isn't empty is a fault.
    fn write(&mut self, bytes: &[u8]) -> Result<usize, Failed>
        ensures bound { IfOk result (λ n. n ≤ length bytes.now) }
        ensures some { IfOk result (λ n. 0 < length bytes.now → 0 < n) }
        ensures ok { OnOk result (self.new ≡ self.old) }
        ensures err { OnErr result (self.new ≡ next_count self.old) }
        ensures cause { HasCause self.old self.new result }
    {
        let Ok(count) = write_and_flush(&self.runtime, bytes) else {
            return Err(count_fault(&mut self.faults));
        };
        if count == 0 && !bytes.is_empty() {
            return Err(count_fault(&mut self.faults));
        }
        Ok(count)
    }
}
