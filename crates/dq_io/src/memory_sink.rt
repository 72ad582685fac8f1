//! A sink in memory, for tests.

ghost use Rattle.std.specs.Prelude.{◌≡◌, ◌≤◌, ◌<◌, ◌++◌, [], true, min, length, take, Some, IsErr, IfOk, OnErr};
ghost use Rattle.dq_io.specs.Causes.{HasCause};
ghost use Rattle.dq_io.specs.Failures.{fails_next, called, faulted};

use crate::errors::Failed;
use crate::failures::Failures;
use crate::sinks::Sink;
use dq_lits::Memory;
use std::alloc::Global;
use std::marker::Model;

/// A sink in memory, for tests: it tells what it took, takes at most so many bytes a write, and
/// fails at the calls of given numbers, and where there is no memory for more bytes.
#[derive(Drop)]
pub struct MemSink {
    greatest: usize,
    taken: Vec<u8>,
    failures: Failures,
}

impl Model for MemSink {
    ghost use Rattle.std.specs.Prelude.{◌≤◌};
    ghost use Rattle.dq_io.specs.Memory.{MemorySink};

    ghost Value = { MemorySink };

    ghost view = { λ s. record {
      greatest = s.greatest;
      taken = s.taken.items;
      failures = s.failures;
    } };

    ghost invariant = { λ s. 1 ≤ s.greatest };
}

impl MemSink {
    /// A sink that took nothing yet. A write takes at most `greatest` bytes. The calls of `write`
    /// are counted from 1 on, and those whose numbers stand in `failing` are to fail.
    pub fn new(alloc: Global, greatest: usize, failing: &[u64]) -> Result<MemSink, Memory>
        requires { 1 ≤ greatest }
        ensures { IfOk result (λ s. s ≡ record {
          greatest = greatest;
          taken = [];
          failures = record { failing = failing.now; calls = 0; faults = 0 };
        }) }
    {
        Ok(MemSink {
            greatest,
            taken: Vec::new(alloc),
            failures: Failures::new(alloc, failing)?,
        })
    }

    /// The bytes taken so far.
    pub fn taken(&self) -> &[u8]
        ensures { result.now ≡ self.now.taken }
    {
        &self.taken
    }
}

impl Sink for MemSink {
    ghost taken = { λ s. Some s.taken };

    ghost faults = { λ s. s.failures.faults };

    /// It fails where the call's number is among those that are to fail, and where a growth is
    /// refused. Else it takes all bytes, but at most the greatest size.
    fn write(&mut self, bytes: &[u8]) -> Result<usize, Failed>
        ensures fails { fails_next self.old.failures ≡ true → IsErr result }
        ensures count { IfOk result (λ n. n ≡ min self.old.greatest (length bytes.now)) }
        ensures ok { IfOk result (λ n. self.new ≡ record self.old {
          taken = self.old.taken ++ take n bytes.now;
          failures = called self.old.failures;
        }) }
        ensures err { OnErr result
            (self.new ≡ record self.old { failures = faulted (called self.old.failures) }) }
        ensures some { IfOk result (λ n. 0 < length bytes.now → 0 < n) }
        ensures cause { HasCause self.old.failures.faults self.new.failures.faults result }
    {
        if self.failures.call() {
            return Err(self.failures.fault());
        }
        let count = bytes.len().min(self.greatest);
        if self.taken.extend_from_slice(&bytes[..count]).is_err() {
            return Err(self.failures.fault());
        }
        Ok(count)
    }
}
