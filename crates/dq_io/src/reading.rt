//! A file, read whole.
//!
//! A read asks for at least one byte: with room for none, the end and a short read would look
//! alike.

ghost use Rattle.std.specs.Prelude.{◌≡◌, ℕ, ◌<◌, ◌≤◌, ◌↔◌, true, List, length, vec_len, IfOk, OnOk, IsErrOf, Err};
ghost use Rattle.std.specs.Io.KnownBytes.{IsAtEnd};
ghost use Rattle.dq_io.specs.Causes.{Rose, next_count};
ghost use Rattle.dq_io.specs.Files.{Absent, Holds};

use crate::errors::ReadStop;
use crate::files::Files;
use std::alloc::{AllocError, Global};

/// How many bytes are asked for at once.
const PIECE: usize = 65536;

/// The file of that name, read to its end: up to the first read that gives nothing, since a short
/// read isn't the end. It stops at a failed call, and once more than `limit` bytes were given.
/// After an error the file may have been read in part.
pub fn read_all<F: Files>(
    alloc: Global,
    files: &mut F,
    name: &str,
    limit: u64,
) -> Result<Vec<u8>, ReadStop>
    // Where the files tell, Ok gives the bytes held, and no more bytes are given than are held.
    ensures bytes { IfOk result (λ v. (bytes : List ℕ) →
        F.held files.old name.now ≡ Holds bytes → v.items ≡ bytes) }
    ensures longer { (bytes : List ℕ) →
        F.held files.old name.now ≡ Holds bytes → F.given files.new ≤ length bytes }
    ensures absent { F.held files.old name.now ≡ Absent → result ≡ Err ReadStop.Fault }
    // Over all files, `given` decides what is too long.
    ensures count { IfOk result (λ v. F.given files.new ≡ length v.items) }
    ensures end { OnOk result (IsAtEnd (F.rest files.new)) }
    ensures too_long { IsErrOf result ReadStop.TooLong ↔ (limit < F.given files.new) }
    // A fault has its cause, and where one is counted it is the answer.
    ensures fault { IsErrOf result ReadStop.Fault → Rose (F.faults files.old) (F.faults files.new) }
    ensures unfaulted { ¬ IsErrOf result ReadStop.Fault → F.faults files.new ≡ F.faults files.old }
    ensures later { F.faults files.old ≤ F.faults files.new }
    ensures held { F.held files.new ≡ F.held files.old }
    // One file is picked. Over reliable files only one that isn't held is a fault.
    ensures picked { F.picks files.new ≡ next_count (F.picks files.old) }
    ensures reliable { F.reliable files.old ≡ true → IsErrOf result ReadStop.Fault →
        F.held files.old name.now ≡ Absent }
    ensures still_reliable { F.reliable files.new ≡ F.reliable files.old }
{
    files.pick(name)?;
    let mut buffer = zeros(alloc, PIECE)?;
    let mut bytes = Vec::new(alloc);
    loop {
        let count = files.read(&mut buffer)?;
        if count == 0 {
            return Ok(bytes);
        }
        if count as u64 > limit - bytes.len() as u64 {
            return Err(ReadStop::TooLong);
        }
        bytes.extend_from_slice(&buffer[..count])?;
    }
}

fn zeros(alloc: Global, count: usize) -> Result<Vec<u8>, AllocError>
    ensures { IfOk result (λ v. vec_len v ≡ count) }
{
    vec![in alloc; 0u8; count]
}
