//! Circuit files that come line by line.

ghost use Rattle.std.specs.Prelude.{◌≡◌, ◌+◌, ◌<◌, ◌^◌, true, false, [], Some, None, Err, IsSome, IfSome, IfNone, IfErr, IfOk, OnOk, OnErr};
ghost use Rattle.std.specs.Option.{option_map};
ghost use Rattle.aiger_text.specs.ReaderState.{body_of, IsCircuitReader};
ghost use Rattle.aiger_text.specs.Scan.{IsAagReading, finish, read_body};
ghost use Rattle.aiger_text.specs.AagLinesInside.{BeginsWith, IsReadSoFar, TakesBehind};
ghost use Rattle.aiger_text.specs.CircuitLines.{as_file, gives, header_line, header_line_or, lines_give, netlist_so_far, no_lines, with_stop, GoesOn, IsWhole, Reads, ReadsLine};

use crate::body::{CircuitReader, start_reader};
use crate::faults::{AagFault, AagStop};
use crate::files::AagFile;
use crate::headers::read_header;
use crate::reader::{Taken, at_end, at_line, check_file, take_line};
use crate::symbols::Symbols;
use circuit_plain::Circuit;
use std::alloc::Global;
use std::marker::Model;

/// Reads a circuit file in ASCII AIGER line by line.
///
/// It keeps the circuit and the symbols. At the line `c` it is decided whether the file has a fault:
/// what stands behind it is free text. Behind a line that is refused, or where memory wanted, it
/// keeps nothing, and answers the same from then on. A line with the number 2^64 - 1 finds no memory.
#[derive(Drop)]
pub struct AagLines {
    alloc: Global,
    number: u64,
    reader: Option<CircuitReader>,
    // What is shown where there is no reader.
    nothing: Circuit,
    in_comment: bool,
    stopped: Option<AagStop>,
}

impl Model for AagLines {
    ghost use Rattle.aiger_text.specs.AagLinesInside.{lines_in, IsReader};
    ghost use Rattle.aiger_text.specs.CircuitLines.{CircuitLines};

    ghost Value = { CircuitLines };

    ghost view = { lines_in };

    ghost invariant = { IsReader };
}

impl AagLines {
    /// Before the header line, which has the number `first`. It takes no memory.
    pub fn new(alloc: Global, first: u64) -> AagLines
        requires { first < 2 ^ 62 }
        ensures { result ≡ no_lines first }
    {
        AagLines {
            alloc,
            number: first,
            reader: None,
            nothing: Circuit::new(alloc, 0),
            in_comment: false,
            stopped: None,
        }
    }

    /// Reads the next line, which has no LF at its end.
    pub fn line(&mut self, text: &[u8]) -> Result<(), AagStop>
        ensures line { IfNone self.old.stopped (ReadsLine self.old text.now result self.new) }
        ensures going { OnOk result (GoesOn self.old self.new) }
        ensures stopped { IfSome self.old.stopped (λ stop. result ≡ Err stop) }
        ensures stops { IfErr result (λ stop. self.new ≡ with_stop self.old stop) }
    {
        if let Some(stop) = self.stopped {
            return Err(stop);
        }
        match count_line(
            self.alloc,
            &mut self.number,
            &mut self.reader,
            &mut self.in_comment,
            text,
        ) {
            Ok(()) => Ok(()),
            Err(stop) => {
                let_go(&mut self.reader);
                self.in_comment = false;
                self.stopped = Some(stop);
                Err(stop)
            }
        }
    }

    /// What was read of the circuit.
    pub fn circuit(&self) -> &Circuit
        ensures { result.now ≡ netlist_so_far self.now.body }
    {
        match &self.reader {
            Some(reader) => &reader.circuit,
            None => &self.nothing,
        }
    }

    /// The number of the next line.
    pub fn number(&self) -> u64
        ensures { result ≡ self.now.number }
    {
        self.number
    }

    /// Whether the line `c` was read. Then the file has no fault.
    pub fn in_comment(&self) -> bool
        ensures comment { result ≡ self.now.in_comment }
        ensures header { result ≡ true → IsSome self.now.body }
        ensures whole { result ≡ true → IfSome self.now.body IsWhole }
    {
        self.in_comment
    }

    /// The circuit and its symbols, where the text ends here, or the first fault of the file.
    pub fn end(self) -> Result<(Circuit, Symbols), AagStop>
        ensures end { IfNone self.stopped
            (IsAagReading (header_line self) (lines_give self []) (as_file result)) }
        ensures stopped { IfSome self.stopped (λ stop. result ≡ Err stop) }
    {
        if let Some(stop) = self.stopped {
            return Err(stop);
        }
        finish(self.alloc, self.number, self.reader, self.in_comment)
    }
}

// Reads the line with a number, and counts it.
fn count_line(
    alloc: Global,
    number: &mut u64,
    reader: &mut Option<CircuitReader>,
    in_comment: &mut bool,
    text: &[u8],
) -> Result<(), AagStop>
    requires so_far { IfSome reader.old (λ r. IsReadSoFar r in_comment.old) }
    requires small { IfNone reader.old (number.old < 2 ^ 62) }
    requires no_comment { IfNone reader.old (in_comment.old ≡ false) }
    ensures line { Reads (option_map body_of reader.old) in_comment.old number.old text.now result
        (option_map body_of reader.new) in_comment.new }
    ensures so_far { OnOk result (IfSome reader.new (λ r. IsReadSoFar r in_comment.new)) }
    ensures some { OnOk result (IsSome reader.new) }
    ensures number { OnOk result (number.new ≡ number.old + 1) }
    ensures header { OnOk result (header_line_or (option_map body_of reader.new) number.new
        ≡ header_line_or (option_map body_of reader.old) number.old) }
    ensures err { OnErr result (number.new ≡ number.old) }
{
    let Some(next) = number.checked_add(1) else {
        return Err(AagStop::Memory);
    };
    take(alloc, *number, reader, in_comment, text)?;
    *number = next;
    Ok(())
}

// Reads the line with a number.
fn take(
    alloc: Global,
    number: u64,
    reader: &mut Option<CircuitReader>,
    in_comment: &mut bool,
    text: &[u8],
) -> Result<(), AagStop>
    requires so_far { IfSome reader.old (λ r. IsReadSoFar r in_comment.old) }
    requires small { IfNone reader.old (number < 2 ^ 62) }
    requires no_comment { IfNone reader.old (in_comment.old ≡ false) }
    ensures line { Reads (option_map body_of reader.old) in_comment.old number text.now result
        (option_map body_of reader.new) in_comment.new }
    ensures so_far { OnOk result (IfSome reader.new (λ r. IsReadSoFar r in_comment.new)) }
    ensures some { OnOk result (IsSome reader.new) }
    ensures header { OnOk result (IfSome reader.new
        (λ r. r.header_line ≡ header_line_or (option_map body_of reader.old) number)) }
{
    match reader {
        Some(reader) => take_next(number, reader, in_comment, text),
        None => take_header(alloc, number, reader, text),
    }
}

// Keeps nothing of what was read. Like `take_header`, it isn't written where it is called, since a
// call pays for each reader that it may have in hand.
fn let_go(reader: &mut Option<CircuitReader>)
    ensures { reader.new ≡ None }
{
    *reader = None;
}

// Reads the header line, which has this number, and keeps what it begins.
fn take_header(
    alloc: Global,
    number: u64,
    reader: &mut Option<CircuitReader>,
    text: &[u8],
) -> Result<(), AagStop>
    requires { number < 2 ^ 62 }
    ensures line { Reads None false number text.now result (option_map body_of reader.new) false }
    ensures so_far { OnOk result (IfSome reader.new (λ r. IsReadSoFar r false)) }
    ensures some { OnOk result (IsSome reader.new) }
    ensures header { OnOk result (IfSome reader.new (λ r. r.header_line ≡ number)) }
{
    *reader = Some(begin(alloc, number, text)?);
    Ok(())
}

// Reads a line behind the header.
fn take_next(
    number: u64,
    reader: &mut CircuitReader,
    in_comment: &mut bool,
    text: &[u8],
) -> Result<(), AagStop>
    requires so_far { IsReadSoFar reader.old in_comment.old }
    ensures line { Reads (Some (body_of reader.old)) in_comment.old number text.now result
        (Some (body_of reader.new)) in_comment.new }
    ensures so_far { OnOk result (IsReadSoFar reader.new in_comment.new) }
    ensures header { reader.new.header_line ≡ reader.old.header_line }
{
    if *in_comment {
        return Ok(());
    }
    match take_behind(number, reader, text) {
        Ok(Taken::Line) => Ok(()),
        Ok(Taken::CommentMark) => {
            *in_comment = true;
            Ok(())
        }
        Err(stop) => Err(stop),
    }
}

// Reads the header line, which has this number.
fn begin(alloc: Global, number: u64, text: &[u8]) -> Result<CircuitReader, AagStop>
    requires { number < 2 ^ 62 }
    ensures line { BeginsWith number text.now result }
    ensures ready { IfOk result IsCircuitReader }
    ensures at { IfOk result (λ reader. reader.header_line ≡ number) }
{
    let mut numbers = Vec::new(alloc);
    match read_header(text, b"aag", &mut numbers) {
        Ok(header) => Ok(start_reader(alloc, number, header, numbers)),
        Err(stop) => Err(at_line(number, stop)),
    }
}

// Reads a line behind the header; at the comment's mark the file is checked.
fn take_behind(number: u64, reader: &mut CircuitReader, text: &[u8]) -> Result<Taken, AagStop>
    requires ready { IsCircuitReader reader.old }
    ensures line { TakesBehind (body_of reader.old) number text.now result (body_of reader.new) }
    ensures ready { OnOk result (IsCircuitReader reader.new) }
    ensures at { reader.new.header_line ≡ reader.old.header_line }
{
    match take_line(reader, text) {
        Ok(Taken::Line) => Ok(Taken::Line),
        Ok(Taken::CommentMark) => {
            check_file(reader)?;
            Ok(Taken::CommentMark)
        }
        Err(stop) => Err(at_line(number, stop)),
    }
}

// The circuit and its symbols, where the text ends.
fn finish(
    alloc: Global,
    number: u64,
    reader: Option<CircuitReader>,
    in_comment: bool,
) -> Result<(Circuit, Symbols), AagStop>
    requires so_far { IfSome reader (λ r. IsReadSoFar r in_comment) }
    ensures { IsAagReading (header_line_or (option_map body_of reader) number)
        (gives (option_map body_of reader) in_comment [] number) (as_file result) }
{
    match reader {
        None => Err(AagStop::Refused {
            line: number,
            name: AagFault::BadHeader,
        }),
        Some(reader) => {
            if in_comment {
                parts_of(reader)
            } else {
                parts_at_end(alloc, number, reader)
            }
        }
    }
}

// The same where the comment began.
fn parts_of(reader: CircuitReader) -> Result<(Circuit, Symbols), AagStop>
    requires { IsWhole (body_of reader) }
    ensures { IsAagReading reader.header_line (finish (body_of reader) None) (as_file result) }
{
    let CircuitReader {
        circuit,
        symbols,
        ..
    } = reader;
    Ok((circuit, symbols))
}

// The same where it didn't.
fn parts_at_end(
    alloc: Global,
    number: u64,
    reader: CircuitReader,
) -> Result<(Circuit, Symbols), AagStop>
    requires { IsCircuitReader reader }
    ensures { IsAagReading reader.header_line (read_body (body_of reader) [] number)
        (as_file result) }
{
    let read = at_end(alloc, reader, number)?;
    let AagFile {
        circuit,
        symbols,
        ..
    } = read.file;
    Ok((circuit, symbols))
}
