//! Files in memory, for tests.

ghost use Rattle.std.specs.Prelude.{◌≡◌, ◌+◌, ◌≤◌, ◌<◌, ◌||◌, not, min, is_err, IfOk, OnOk, OnErr, [], ◌∷◌, ◌++◌, ℕ, length, take, drop, Some};
ghost use Rattle.dq_io.specs.Causes.{HasCause, next_count};
ghost use Rattle.dq_io.specs.Store.{held_in, is_held, bytes_of};
ghost use Rattle.dq_io.specs.Failures.{fails_next, never_fails, called, faulted};

use crate::errors::Failed;
use crate::failures::Failures;
use crate::files::Files;
use crate::store::FileStore;
use dq_lits::Memory;
use std::alloc::Global;
use std::marker::Model;

/// Files in memory, for tests: they tell what is held, give at most so many bytes a read, and fail
/// at the calls of given numbers. Of several files of one name the first counts.
#[derive(Drop)]
pub struct MemFiles {
    greatest: usize,
    store: FileStore,
    failures: Failures,
}

impl Model for MemFiles {
    ghost use Rattle.std.specs.Prelude.{◌≤◌};
    ghost use Rattle.dq_io.specs.Memory.{MemoryFiles};

    ghost Value = { MemoryFiles };

    ghost view = { λ m. record { greatest = m.greatest; store = m.store; failures = m.failures } };

    ghost invariant = { λ m. 1 ≤ m.greatest };
}

impl MemFiles {
    /// No files. A read gives at most `greatest` bytes. The calls of `pick` and `read` are counted
    /// together, from 1 on, and those whose numbers stand in `failing` are to fail.
    pub fn new(alloc: Global, greatest: usize, failing: &[u64]) -> Result<MemFiles, Memory>
        requires { 1 ≤ greatest }
        ensures { IfOk result (λ m. m ≡ record {
          greatest = greatest;
          store = record { files = []; rest = []; given = 0; picks = 0 };
          failures = record { failing = failing.now; calls = 0; faults = 0 };
        }) }
    {
        Ok(MemFiles {
            greatest,
            store: FileStore::new(alloc),
            failures: Failures::new(alloc, failing)?,
        })
    }

    /// Adds a file behind the others.
    pub fn hold(&mut self, name: &str, bytes: &[u8]) -> Result<(), Memory>
        ensures ok { OnOk result (self.new ≡ record self.old {
          store = record self.old.store {
            files = self.old.store.files ++ record { name = name.now; bytes = bytes.now } ∷ [];
          };
        }) }
        ensures err { OnErr result (self.new ≡ self.old) }
    {
        self.store.hold(name, bytes)
    }
}

impl Files for MemFiles {
    ghost held = { λ m. held_in m.store.files };

    ghost rest = { λ m. Some m.store.rest };

    ghost given = { λ m. m.store.given };

    ghost faults = { λ m. m.failures.faults };

    ghost picks = { λ m. m.store.picks };

    ghost reliable = { λ m. never_fails m.failures };

    /// It fails where the call's number is among those that are to fail, or the name isn't held.
    fn pick(&mut self, name: &str) -> Result<(), Failed>
        ensures fails { is_err result
            ≡ (fails_next self.old.failures
            || not (is_held (held_in self.old.store.files name.now))) }
        ensures ok { OnOk result (self.new ≡ record self.old {
          store = record self.old.store {
            rest = bytes_of (held_in self.old.store.files name.now);
            given = 0;
            picks = next_count self.old.store.picks;
          };
          failures = called self.old.failures;
        }) }
        ensures err { OnErr result (self.new ≡ record self.old {
          store = record self.old.store
              { rest = []; given = 0; picks = next_count self.old.store.picks };
          failures = faulted (called self.old.failures);
        }) }
        ensures cause { HasCause self.old.failures.faults self.new.failures.faults result }
    {
        if self.failures.call() {
            self.store.close();
            return Err(self.failures.fault());
        }
        if !self.store.open(name) {
            return Err(self.failures.fault());
        }
        Ok(())
    }

    /// It fails where the call's number is among those that are to fail. Else it gives as many
    /// bytes as there are and as fit, but at most the greatest size.
    fn read(&mut self, buf: &mut [u8]) -> Result<usize, Failed>
        ensures fails { is_err result ≡ fails_next self.old.failures }
        ensures count { IfOk result (λ n.
            n ≡ min self.old.greatest (min (length self.old.store.rest) (length buf.old))) }
        ensures moved { IfOk result (λ n.
            buf.new ≡ take n self.old.store.rest ++ drop n buf.old) }
        ensures ok { IfOk result (λ n. self.new ≡ record self.old {
          store = record self.old.store {
            rest = drop n self.old.store.rest;
            given = self.old.store.given + n;
          };
          failures = called self.old.failures;
        }) }
        ensures err { OnErr result
            (self.new ≡ record self.old { failures = faulted (called self.old.failures) }) }
        ensures err_buffer { OnErr result (buf.new ≡ buf.old) }
        ensures end { IfOk result (λ n.
            n ≡ 0 → 0 < length buf.new → self.old.store.rest ≡ []) }
        ensures cause { HasCause self.old.failures.faults self.new.failures.faults result }
    {
        if self.failures.call() {
            return Err(self.failures.fault());
        }
        Ok(self.store.read(buf, self.greatest))
    }
}
