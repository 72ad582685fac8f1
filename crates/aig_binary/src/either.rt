//! Reading a circuit file in either form.

ghost use Rattle.std.specs.Prelude.{◌≡◌, ◌+◌, ◌<◌, ◌^◌, true, false, length, codes, IfOk};
ghost use Rattle.dq_text.specs.Line.{line_tokens, lines_from};
ghost use Rattle.aiger_text.specs.CommentLine.{IsCommentLine, file_of};
ghost use Rattle.aiger_text.specs.Scan.{scan, IsAagReading};
ghost use Rattle.aig_binary.specs.BareReading.{IsReadingBy};
ghost use Rattle.aig_binary.specs.Either.{begins_with_word, is_binary};
ghost use Rattle.aig_binary.specs.Scan.{scan_binary};

use crate::bare::list_inputs;
use crate::reader::read_bare;
use aiger_text::{AagStop, ReadCircuit};
use dq_text::{LineTokens, Lines, is_word};
use std::alloc::Global;

/// Reads a circuit file whose first line has the number `first`: in the binary form, with its inputs
/// listed, where its first token is `aig`, and else in ASCII. Listing takes time and memory by the
/// number of inputs, which a binary text's length doesn't bound.
pub fn read(alloc: Global, bytes: &[u8], first: u64) -> Result<ReadCircuit, AagStop>
    requires { first + length bytes.now < 2 ^ 62 }
    ensures binary { is_binary (lines_from first bytes.now) ≡ true
        → IsReadingBy (λ read. read) (scan_binary bytes.now first) result }
    ensures ascii { is_binary (lines_from first bytes.now) ≡ false
        → IsAagReading first (scan bytes.now first) (file_of result) }
    ensures ascii_comment { is_binary (lines_from first bytes.now) ≡ false → IfOk result
        (λ read. IsCommentLine bytes.now first read.file.comment read.comment_line) }
{
    if !is_binary(bytes, first) {
        return aiger_text::read(alloc, bytes, first);
    }
    let bare = read_bare(alloc, bytes, first)?;
    Ok(list_inputs(bare)?)
}

// Whether a text's first token is that of the binary form.
fn is_binary(bytes: &[u8], first: u64) -> bool
    requires { first + length bytes.now < 2 ^ 62 }
    ensures { result ≡ is_binary (lines_from first bytes.now) }
{
    match Lines::new(bytes, first).next() {
        Some(line) => begins_with_word(line.text),
        None => false,
    }
}

fn begins_with_word(line: &[u8]) -> bool
    ensures { result ≡ begins_with_word (line_tokens line.now) }
{
    match LineTokens::new(line).next() {
        Some(word) => is_word(word, b"aig"),
        None => false,
    }
}
