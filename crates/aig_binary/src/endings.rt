//! The lines behind the binary part.

ghost use Rattle.std.specs.Prelude.{◌≡◌, ◌+◌, ◌≤◌, length, IfOk, IfSome};
ghost use Rattle.dq_text.specs.Line.{lines_from};
ghost use Rattle.aiger_text.specs.ReaderState.{IsCircuitReader};
ghost use Rattle.aig_binary.specs.Scan.{read_symbols};
ghost use Rattle.aig_binary.specs.Endings.{IsEndingOf};

use crate::stops::at_line;
use aiger_text::{AagStop, CircuitReader, is_comment_mark, take_symbol};
use dq_text::{Lines, is_blank};

/// A comment, and the number of the line on which it begins.
#[derive(Clone, Copy)]
pub struct Comment<'a> {
    pub bytes: &'a [u8],
    pub line: u64,
}

/// Reads symbols up to the end of the text, or to the line `c`: the comment behind it.
pub fn read_ending<'a>(
    reader: &mut CircuitReader,
    lines: &mut Lines<'a>,
) -> Result<Option<Comment<'a>>, AagStop>
    requires { IsCircuitReader reader.old }
    ensures ending { IsEndingOf
        (read_symbols reader.old.header reader.old.symbols
        (lines_from lines.old.number lines.old.rest)) result reader.new.symbols }
    ensures header { reader.new.header ≡ reader.old.header }
    ensures counted { IfOk result (λ found. IfSome found
        (λ c. c.line + length c.bytes.now ≤ lines.old.number + length lines.old.rest)) }
{
    while let Some(line) = lines.next() {
        if is_blank(line.text) {
            continue;
        }
        if is_comment_mark(line.text) {
            return Ok(Some(Comment {
                bytes: lines.rest(),
                line: lines.number(),
            }));
        }
        match take_symbol(reader, line.text) {
            Ok(()) => {}
            Err(stop) => return Err(at_line(line.number, stop)),
        }
    }
    Ok(None)
}
