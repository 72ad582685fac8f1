//! Files in memory by their names, of which one may be open.

ghost use Rattle.std.specs.Prelude.{◌≡◌, ◌+◌, ◌^◌, ◌<◌, min, [], ◌∷◌, ◌++◌, length, take, drop, position, bytes_eq, IfOk, OnOk, OnErr};
ghost use Rattle.dq_io.specs.Causes.{next_count};
ghost use Rattle.dq_io.specs.Store.{held_in, is_held, bytes_of};

use dq_lits::Memory;
use std::alloc::Global;
use std::marker::Model;

#[derive(Drop)]
struct NamedFile {
    name: String,
    bytes: Vec<u8>,
}

impl Model for NamedFile {
    ghost use Rattle.std.specs.Prelude.{string_bytes};
    ghost use Rattle.dq_io.specs.Store.{NamedBytes};

    ghost Value = { NamedBytes };

    ghost view = { λ f. record { name = string_bytes f.name; bytes = f.bytes.items } };
}

impl NamedFile {
    fn new(alloc: Global, name: &str, bytes: &[u8]) -> Result<NamedFile, Memory>
        ensures { IfOk result (λ file. file ≡ record { name = name.now; bytes = bytes.now }) }
    {
        Ok(NamedFile {
            name: String::from_str(alloc, name)?,
            bytes: bytes.to_vec(alloc)?,
        })
    }

    fn is_named(&self, name: &str) -> bool
        ensures { result ≡ bytes_eq self.now.name name.now }
    {
        self.name.as_str() == name
    }

    fn bytes(&self) -> &[u8]
        ensures { result.now ≡ self.now.bytes }
    {
        &self.bytes
    }
}

// The place of the first file of that name.
fn place_of(files: &[NamedFile], name: &str) -> Option<usize>
    ensures { result ≡ position (λ file. bytes_eq file.name name.now) files.now }
{
    files.iter().position(|file| file.is_named(name))
}

/// Files in memory, of which one may be open. Of several files of one name the first counts.
#[derive(Drop)]
pub struct FileStore {
    alloc: Global,
    files: Vec<NamedFile>,
    place: Option<usize>,
    given: usize,
    picks: u64,
}

impl Model for FileStore {
    ghost use Rattle.dq_io.specs.Store.{StoredFiles, IsOpenAt, rest_from};

    ghost Value = { StoredFiles };

    ghost view = { λ s. record {
      files = s.files.items;
      rest = rest_from s.files.items s.place s.given;
      given = s.given;
      picks = s.picks;
    } };

    ghost invariant = { λ s. IsOpenAt s.files.items s.place s.given };
}

impl FileStore {
    /// No files. It takes no memory.
    pub fn new(alloc: Global) -> FileStore
        ensures { result ≡ record { files = []; rest = []; given = 0; picks = 0 } }
    {
        FileStore {
            alloc,
            files: Vec::new(alloc),
            place: None,
            given: 0,
            picks: 0,
        }
    }

    /// Adds a file behind the others.
    pub fn hold(&mut self, name: &str, bytes: &[u8]) -> Result<(), Memory>
        ensures ok { OnOk result (self.new ≡ record self.old {
          files = self.old.files ++ record { name = name.now; bytes = bytes.now } ∷ [];
        }) }
        ensures err { OnErr result (self.new ≡ self.old) }
    {
        let file = NamedFile::new(self.alloc, name, bytes)?;
        self.files.push(file)?;
        Ok(())
    }

    /// Picks the first file of that name, at its front, and says whether there is one.
    pub fn open(&mut self, name: &str) -> bool
        ensures found { result ≡ is_held (held_in self.old.files name.now) }
        ensures opened { self.new ≡ record self.old {
          rest = bytes_of (held_in self.old.files name.now);
          given = 0;
          picks = next_count self.old.picks;
        } }
    {
        self.picks = self.picks.saturating_add(1);
        self.place = place_of(&self.files, name);
        self.given = 0;
        self.place.is_some()
    }

    /// Picks no file: a pick that failed.
    pub fn close(&mut self)
        ensures { self.new
            ≡ record self.old { rest = []; given = 0; picks = next_count self.old.picks } }
    {
        self.picks = self.picks.saturating_add(1);
        self.place = None;
        self.given = 0;
    }

    /// What is left to read of the open file.
    fn rest(&self) -> &[u8]
        ensures rest { result.now ≡ self.now.rest }
        ensures fits { self.now.given + length result.now < 2 ^ 64 }
    {
        match self.place {
            Some(place) => &self.files[place].bytes()[self.given..],
            None => &[],
        }
    }

    /// Moves as many bytes as there are and as fit, but at most `most`, to the front of the buffer.
    pub fn read(&mut self, buf: &mut [u8], most: usize) -> usize
        ensures count { result ≡ min most (min (length self.old.rest) (length buf.old)) }
        ensures moved { buf.new ≡ take result self.old.rest ++ drop result buf.old }
        ensures after { self.new ≡ record self.old {
          rest = drop result self.old.rest;
          given = self.old.given + result;
        } }
    {
        let rest = self.rest();
        let count = most.min(rest.len().min(buf.len()));
        buf[..count].copy_from_slice(&rest[..count]);
        self.given += count;
        count
    }
}
