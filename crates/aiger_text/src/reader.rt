//! Reading a circuit file.
//!
//! It goes line by line in functions over a plain struct: after an error it holds nothing that is
//! promised, as a growth may have been refused between two of its lists. A gate's line is three
//! numbers until its checks have passed, and a `Gate` from then on, so that no `Gate` has a literal
//! where its variable belongs.

ghost use Rattle.std.specs.Prelude.{◌≡◌, ℕ, ◌+◌, ◌<◌, ◌^◌, List, Option, length, Some, None, OnOk, IfOk, MatchOption};
ghost use Rattle.std.specs.Option.{option_copied};
ghost use Rattle.aiger_text.specs.Grammar.{SpellsCircuit};
ghost use Rattle.aiger_text.specs.Scan.{scan, finish, checked_file, next_part, at_end, IsAagReading};
ghost use Rattle.aiger_text.specs.Steps.{TakesLine, TakesAnyLine, StopsAt, IsSymbolIfLast};
ghost use Rattle.aiger_text.specs.CommentLine.{IsCommentLine, file_of};
ghost use Rattle.aiger_text.specs.ReaderState.{body_of, IsCircuitReader};

use crate::body::{
    CircuitReader, NextLine, part_of, start_reader, take_gate, take_input, take_output,
};
use crate::faults::{AagFault, AagStop, LineStop};
use crate::files::{AagFile, ReadCircuit, Text};
use crate::headers::read_header;
use crate::laws::circuit_or_first_fault;
use crate::symbol_lines::is_comment_mark;
use crate::symbol_steps::take_symbol;
use crate::undefined::first_undefined_line;
use dq_lits::Memory;
use dq_text::{Lines, is_blank};
use std::alloc::Global;

/// What a line was.
#[derive(Clone, Copy, PartialEq, Eq)]
pub enum Taken {
    /// A line of the file.
    Line,
    /// The mark behind which the comment stands.
    CommentMark,
}

/// Reads an ASCII AIGER file whose first line has the number `first`: exactly the circuit file that
/// it spells within the limits, or its first fault by line and name.
pub fn read(alloc: Global, bytes: &[u8], first: u64) -> Result<ReadCircuit, AagStop>
    requires { first + length bytes.now < 2 ^ 62 }
    ensures exact { IsAagReading first (scan bytes.now first) (file_of result) }
    ensures spelled { IfOk result (λ read. SpellsCircuit bytes.now read.file) }
    ensures comment { IfOk result
        (λ read. IsCommentLine bytes.now first read.file.comment read.comment_line) }
{
    circuit_or_first_fault();
    read_file(alloc, bytes, first)
}

// What the lines of a file give.
fn read_file(alloc: Global, bytes: &[u8], first: u64) -> Result<ReadCircuit, AagStop>
    requires { first + length bytes.now < 2 ^ 62 }
    ensures exact { IsAagReading first (scan bytes.now first) (file_of result) }
    ensures comment { IfOk result
        (λ read. IsCommentLine bytes.now first read.file.comment read.comment_line) }
{
    let mut lines = Lines::new(bytes, first);
    let Some(line) = lines.next() else {
        return Err(refused(first, AagFault::BadHeader));
    };
    let mut numbers = Vec::new(alloc);
    let header = match read_header(line.text, b"aag", &mut numbers) {
        Ok(header) => header,
        Err(stop) => return Err(at_line(line.number, stop)),
    };
    let mut reader = start_reader(alloc, line.number, header, numbers);
    while let Some(line) = lines.next() {
        match take_line(&mut reader, line.text) {
            Ok(Taken::Line) => {}
            Ok(Taken::CommentMark) => {
                return behind_mark(alloc, reader, lines.rest(), lines.number());
            }
            Err(stop) => return Err(at_line(line.number, stop)),
        }
    }
    at_end(alloc, reader, lines.number())
}

// The file whose comment begins on this line.
fn behind_mark(
    alloc: Global,
    reader: CircuitReader,
    comment: &[u8],
    line: u64,
) -> Result<ReadCircuit, AagStop>
    requires { IsCircuitReader reader }
    ensures exact { IsAagReading reader.header_line (finish (body_of reader) (Some comment.now))
        (file_of result) }
    ensures comment { IfOk result (λ read. read.file.comment ≡ Some comment.now) }
    ensures line { IfOk result (λ read. read.comment_line ≡ Some line) }
{
    let file = finish_file(alloc, reader, Some(comment))?;
    Ok(ReadCircuit {
        file,
        comment_line: Some(line),
    })
}

/// The file where the text ends, and the next line would have this number.
pub fn at_end(alloc: Global, reader: CircuitReader, number: u64) -> Result<ReadCircuit, AagStop>
    requires { IsCircuitReader reader }
    ensures exact { IsAagReading reader.header_line
        (at_end (next_part (body_of reader)) (body_of reader) number) (file_of result) }
    ensures comment { IfOk result (λ read. read.file.comment ≡ None) }
    ensures line { IfOk result (λ read. read.comment_line ≡ None) }
{
    match part_of(&reader) {
        NextLine::SymbolLine => without_comment(alloc, reader),
        _ => Err(refused(number, AagFault::Truncated)),
    }
}

fn without_comment(alloc: Global, reader: CircuitReader) -> Result<ReadCircuit, AagStop>
    requires { IsCircuitReader reader }
    ensures exact { IsAagReading reader.header_line (finish (body_of reader) None)
        (file_of result) }
    ensures comment { IfOk result (λ read. read.file.comment ≡ None) }
    ensures line { IfOk result (λ read. read.comment_line ≡ None) }
{
    let file = finish_file(alloc, reader, None)?;
    Ok(ReadCircuit {
        file,
        comment_line: None,
    })
}

fn refused(line: u64, name: AagFault) -> AagStop
    ensures { result ≡ AagStop.Refused line name }
{
    AagStop::Refused { line, name }
}

/// A line's stop as one of the text.
pub fn at_line(line: u64, stop: LineStop) -> AagStop
    ensures { StopsAt line stop result }
{
    match stop {
        LineStop::Fault(name) => refused(line, name),
        LineStop::Memory => AagStop::Memory,
    }
}

/// Reads the next line behind the header.
pub fn take_line(reader: &mut CircuitReader, line: &[u8]) -> Result<Taken, LineStop>
    requires ready { IsCircuitReader reader.old }
    ensures line { TakesAnyLine (body_of reader.old) line.now result (body_of reader.new) }
    ensures ready { OnOk result (IsCircuitReader reader.new) }
    ensures header_line { reader.new.header_line ≡ reader.old.header_line }
{
    match part_of(reader) {
        NextLine::SymbolLine if is_blank(line) => Ok(Taken::Line),
        NextLine::SymbolLine if is_comment_mark(line) => Ok(Taken::CommentMark),
        part => {
            take_part(reader, part, line)?;
            Ok(Taken::Line)
        }
    }
}

// Reads a line that is neither blank nor the comment's mark where symbols stand.
fn take_part(reader: &mut CircuitReader, part: NextLine, line: &[u8]) -> Result<(), LineStop>
    requires ready { IsCircuitReader reader.old }
    requires part { part ≡ next_part (body_of reader.old) }
    requires symbol { IsSymbolIfLast part line.now }
    ensures line { TakesLine (body_of reader.old) line.now result (body_of reader.new) }
    ensures ready { OnOk result (IsCircuitReader reader.new) }
    ensures header_line { reader.new.header_line ≡ reader.old.header_line }
{
    match part {
        NextLine::InputLine => take_input(reader, line),
        NextLine::OutputLine => take_output(reader, line),
        NextLine::GateLine => take_gate(reader, line),
        NextLine::SymbolLine => take_symbol(reader, line),
    }
}

/// Whether a file names only what it defines and has no cycle, as it stands, whatever its comment is.
pub fn check_file(reader: &CircuitReader) -> Result<(), AagStop>
    requires { IsCircuitReader reader.now }
    ensures { (comment : Option (List ℕ)) → IsAagReading reader.now.header_line
        (finish (body_of reader.now) comment)
        (checked_file (body_of reader.now) comment result) }
{
    if let Some(line) = first_undefined_line(reader) {
        return Err(refused(line, AagFault::Undefined));
    }
    if let Some(place) = reader.circuit.first_ungrounded()? {
        return Err(refused(gate_line(reader, place), AagFault::Cyclic));
    }
    Ok(())
}

/// The file as it stands, unless it names what it doesn't define or has a cycle.
pub fn finish_file(
    alloc: Global,
    reader: CircuitReader,
    comment: Option<&[u8]>,
) -> Result<AagFile, AagStop>
    requires { IsCircuitReader reader }
    ensures comment { IfOk result (λ file. file.comment ≡ option_copied comment.entry) }
    ensures exact { IsAagReading reader.header_line
        (finish (body_of reader) (option_copied comment.entry)) result }
{
    check_file(&reader)?;
    let comment = copy_comment(alloc, comment)?;
    let CircuitReader {
        circuit,
        symbols,
        ..
    } = reader;
    Ok(AagFile {
        circuit,
        symbols,
        comment,
    })
}

// The line of the gate at a place.
fn gate_line(reader: &CircuitReader, place: usize) -> u64
    requires ready { IsCircuitReader reader.now }
    requires in_range { place < length reader.now.circuit.gates }
    ensures { result
        ≡ reader.now.header_line + 1 + length reader.now.circuit.inputs
        + length reader.now.circuit.outputs + place }
{
    let inputs = reader.circuit.inputs().len() as u64;
    let outputs = reader.circuit.outputs().len() as u64;
    reader.header_line + 1 + inputs + outputs + place as u64
}

fn copy_comment(alloc: Global, comment: Option<&[u8]>) -> Result<Option<Text>, Memory>
    ensures { IfOk result (λ text. text ≡ option_copied comment.entry) }
{
    match comment {
        None => Ok(None),
        Some(bytes) => Ok(Some(Text::from_bytes(alloc, bytes)?)),
    }
}
