//! Files and a sink in memory that never fail.

ghost use Rattle.std.specs.Prelude.{◌≡◌, ◌+◌, ◌<◌, [], ◌∷◌, ◌++◌, min, length, take, drop, true, OnOk, OnErr, IsOk, IfOk, Ok, Some, None};
ghost use Rattle.dq_io.specs.Causes.{next_count};
ghost use Rattle.dq_io.specs.Files.{Holds};
ghost use Rattle.dq_io.specs.Store.{held_in, bytes_of};

use crate::errors::Failed;
use crate::files::Files;
use crate::sinks::Sink;
use crate::store::FileStore;
use dq_lits::Memory;
use std::alloc::Global;
use std::marker::Model;

/// Files in memory that never fail: a name that wasn't given opens as an empty file. Of several
/// files of one name the first counts.
#[derive(Drop)]
pub struct NeverFailFiles {
    store: FileStore,
}

impl Model for NeverFailFiles {
    ghost use Rattle.dq_io.specs.Store.{StoredFiles};

    ghost Value = { StoredFiles };

    ghost view = { λ f. f.store };
}

impl NeverFailFiles {
    /// No files. It takes no memory.
    pub fn new(alloc: Global) -> NeverFailFiles
        ensures { result ≡ record { files = []; rest = []; given = 0; picks = 0 } }
    {
        NeverFailFiles {
            store: FileStore::new(alloc),
        }
    }

    /// Adds a file behind the others.
    pub fn hold(&mut self, name: &str, bytes: &[u8]) -> Result<(), Memory>
        ensures ok { OnOk result (self.new ≡ record self.old {
          files = self.old.files ++ record { name = name.now; bytes = bytes.now } ∷ [];
        }) }
        ensures err { OnErr result (self.new ≡ self.old) }
    {
        self.store.hold(name, bytes)
    }
}

impl Files for NeverFailFiles {
    ghost held = { λ f name. Holds (bytes_of (held_in f.files name)) };

    ghost rest = { λ f. Some f.rest };

    ghost given = { λ f. f.given };

    ghost faults = { λ f. 0 };

    ghost picks = { λ f. f.picks };

    ghost reliable = { λ f. true };

    fn pick(&mut self, name: &str) -> Result<(), Failed>
        ensures never { IsOk result }
        ensures after { self.new ≡ record self.old {
          rest = bytes_of (held_in self.old.files name.now);
          given = 0;
          picks = next_count self.old.picks;
        } }
    {
        let _held = self.store.open(name);
        Ok(())
    }

    /// It gives as many bytes as there are and as fit.
    fn read(&mut self, buf: &mut [u8]) -> Result<usize, Failed>
        ensures never { IsOk result }
        ensures count { IfOk result (λ n. n ≡ min (length self.old.rest) (length buf.old)) }
        ensures moved { IfOk result (λ n. buf.new ≡ take n self.old.rest ++ drop n buf.old) }
        ensures after { IfOk result (λ n. self.new ≡ record self.old {
          rest = drop n self.old.rest;
          given = self.old.given + n;
        }) }
    {
        let room = buf.len();
        Ok(self.store.read(buf, room))
    }
}

/// A sink that takes every byte and keeps none, so that it doesn't tell what it took.
#[derive(Clone, Copy, PartialEq, Eq)]
pub struct NeverFailSink;

impl NeverFailSink {
    pub fn new() -> NeverFailSink
        ensures { result ≡ record {} }
    {
        NeverFailSink
    }
}

impl Sink for NeverFailSink {
    ghost taken = { λ s. None };

    ghost faults = { λ s. 0 };

    fn write(&mut self, bytes: &[u8]) -> Result<usize, Failed>
        ensures { result ≡ Ok (length bytes.now) }
    {
        Ok(bytes.len())
    }
}
