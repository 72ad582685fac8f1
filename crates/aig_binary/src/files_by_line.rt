//! Circuit files in the binary form that come line by line. Within the gates a line ends where a byte
//! of theirs is LF.

ghost use Rattle.std.specs.Prelude.{◌≡◌, ◌≢◌, ◌⊎◌, ◌+◌, ◌<◌, ◌≤◌, ◌^◌, ℕ, List, true, false, length, drop, ◌-◌, OnOk, IfOk, IsTrue, ◌↔◌, IfNone, None};
ghost use Rattle.std.specs.List.{All};
ghost use Rattle.aiger_text.specs.ReaderState.{IsCircuitReader, IsSmall};
ghost use Rattle.aig_binary.specs.BareFile.{IsBare, IsBareOf, bare_with};
ghost use Rattle.aig_binary.specs.FilesByLine.{binary_gives, file_so_far, AreAigLines, AreOutputs, BeginsBinary, EndsBinary, TakesBinary, TakesBytes, TakesFeed, TakesText};
ghost use Rattle.aig_binary.specs.Scan.{behind_header, behind_outputs};
ghost use Rattle.aig_binary.specs.declared.files_by_line.Place.TheVariants.{Outputs, Gates, Symbols as AtSymbols, Comment};

use crate::bare::BareCircuit;
use crate::headers::read_binary_header;
use crate::more_gates::take_gate_bytes;
use crate::stops::{at_line, refused};
use aiger_text::{
    AagFault, AagFile, AagStop, CircuitReader, Header, Symbols, is_comment_mark, start_reader,
    take_output, take_symbol,
};
use circuit_plain::Circuit;
use dq_text::is_blank;
use std::alloc::Global;
use std::mem;

/// Where in the file the next bytes stand.
#[derive(Clone, Copy, PartialEq, Eq)]
pub enum Place {
    Outputs,
    Gates,
    Symbols,
    Comment,
}

/// A circuit file in the binary form, up to its line `c`.
///
/// It keeps the circuit, the symbols, and the bytes of a gate that didn't come whole.
#[derive(Drop)]
pub struct AigLines {
    /// The header, the outputs until all came, and the symbols.
    pub reader: CircuitReader,
    /// The circuit behind its outputs.
    pub circuit: Circuit,
    /// The first bytes of the next gate.
    pub pending: Vec<u8>,
    /// The number of the next line. All gates stand on one.
    pub number: u64,
    pub place: Place,
}

/// Reads the header line, which has this number.
pub fn begin_lines(alloc: Global, first: u64, line: &[u8]) -> Result<AigLines, AagStop>
    requires { first < 2 ^ 62 }
    ensures begins { BeginsBinary first line.now result }
    ensures ready { IfOk result AreAigLines }
    ensures header_line { IfOk result (λ l. l.reader.header_line ≡ first) }
{
    let mut numbers = Vec::new(alloc);
    match read_binary_header(line, &mut numbers) {
        Ok(header) => Ok(start(alloc, first, header, numbers)),
        Err(stop) => Err(at_line(first, stop)),
    }
}

// Nothing is read behind the header.
fn start(alloc: Global, first: u64, header: Header, numbers: Vec<u64>) -> AigLines
    requires small { IsSmall header }
    requires all_defined { header.max_var ≡ header.inputs + header.gates }
    requires line { first < 2 ^ 62 }
    ensures gives { (bytes : List ℕ) → behind_header first bytes header ≡ binary_gives result bytes }
    ensures ready { AreAigLines result }
    ensures header_line { result.reader.header_line ≡ first }
{
    let mut lines = AigLines {
        reader: start_reader(alloc, first, header, numbers),
        circuit: Circuit::new(alloc, header.max_var),
        pending: Vec::new(alloc),
        number: first + 1,
        place: Place::Outputs,
    };
    behind_output(alloc, &mut lines);
    lines
}

// Turns to the gates where all outputs came.
fn behind_output(alloc: Global, lines: &mut AigLines)
    requires ready { IsCircuitReader lines.old.reader }
    requires all_defined { lines.old.reader.header.max_var
        ≡ lines.old.reader.header.inputs + lines.old.reader.header.gates }
    requires place { lines.old.place ≡ Outputs }
    requires outputs { AreOutputs lines.old }
    ensures gives { (bytes : List ℕ) → binary_gives lines.old bytes ≡ binary_gives lines.new bytes }
    ensures ready { AreAigLines lines.new }
    ensures header_line { lines.new.reader.header_line ≡ lines.old.reader.header_line }
{
    if (lines.reader.circuit.outputs().len() as u64) < lines.reader.header.outputs {
        return;
    }
    turn_to_gates(alloc, lines);
}

fn turn_to_gates(alloc: Global, lines: &mut AigLines)
    requires ready { IsCircuitReader lines.old.reader }
    requires all_defined { lines.old.reader.header.max_var
        ≡ lines.old.reader.header.inputs + lines.old.reader.header.gates }
    requires outputs { AreOutputs lines.old }
    requires all { length lines.old.reader.circuit.outputs ≡ lines.old.reader.header.outputs }
    ensures gives { (bytes : List ℕ) → behind_outputs lines.old.reader.header_line
        lines.old.reader.header (lines.old.reader.circuit, bytes) ≡ binary_gives lines.new bytes }
    ensures ready { AreAigLines lines.new }
    ensures header_line { lines.new.reader.header_line ≡ lines.old.reader.header_line }
{
    let none = Circuit::new(alloc, lines.reader.header.max_var);
    lines.circuit = mem::replace(&mut lines.reader.circuit, none);
    if lines.reader.header.gates == 0 {
        lines.place = Place::Symbols;
        lines.number += 1;
    } else {
        lines.place = Place::Gates;
    }
}

impl AigLines {
    /// Reads the next line without its LF, which it has unless the text ends there.
    pub fn line(&mut self, alloc: Global, text: &[u8], ended: bool) -> Result<(), AagStop>
        requires ready { AreAigLines self.old }
        requires before { self.old.place ≢ Comment }
        requires one_line { All (λ byte. byte ≢ 10) text.now }
        ensures line { TakesBinary self.old text.now ended result self.new }
        ensures ready { OnOk result (AreAigLines self.new) }
        ensures header_line { self.new.reader.header_line ≡ self.old.reader.header_line }
    {
        match self.place {
            Place::Outputs => take_output_line(alloc, self, text),
            Place::Gates => take_gate_line(alloc, self, text, ended),
            Place::Symbols => take_symbol_line(self, text),
            Place::Comment => unreachable!(),
        }
    }

    /// Whether the line `c` was read.
    pub fn in_comment(&self) -> bool
        ensures { IsTrue result ↔ (self.now.place ≡ Comment) }
    {
        match self.place {
            Place::Comment => true,
            _ => false,
        }
    }

    /// The circuit and its symbols, which are taken away.
    pub fn take_file(&mut self, alloc: Global) -> BareCircuit
        requires ready { AreAigLines self.old }
        requires place { (self.old.place ≡ AtSymbols) ⊎ (self.old.place ≡ Comment) }
        ensures parts { result ≡ file_so_far self.old }
        ensures bare { IsBare result }
        ensures number { self.new.number ≡ self.old.number }
    {
        let circuit = mem::replace(&mut self.circuit, Circuit::new(alloc, 0));
        let symbols = mem::replace(&mut self.reader.symbols, Symbols::new(alloc));
        bare_of(self.reader.header, circuit, symbols)
    }

    /// The circuit and its symbols, where the text ends here, or the first fault of the file.
    pub fn end(mut self, alloc: Global) -> Result<BareCircuit, AagStop>
        requires { AreAigLines self }
        ensures end { EndsBinary self result }
        ensures bare { IfOk result IsBare }
    {
        self.take_end(alloc)
    }

    // The same of lines that are lent.
    fn take_end(&mut self, alloc: Global) -> Result<BareCircuit, AagStop>
        requires { AreAigLines self.old }
        ensures end { EndsBinary self.old result }
        ensures bare { IfOk result IsBare }
    {
        match self.place {
            Place::Outputs => Err(refused(self.number, AagFault::Truncated)),
            Place::Gates => Err(refused(self.number, AagFault::Truncated)),
            Place::Symbols => Ok(self.take_file(alloc)),
            Place::Comment => Ok(self.take_file(alloc)),
        }
    }
}

// Reads the line of an output.
fn take_output_line(alloc: Global, lines: &mut AigLines, text: &[u8]) -> Result<(), AagStop>
    requires ready { AreAigLines lines.old }
    requires place { lines.old.place ≡ Outputs }
    ensures line { TakesText lines.old text.now result lines.new }
    ensures ready { OnOk result (AreAigLines lines.new) }
    ensures header_line { lines.new.reader.header_line ≡ lines.old.reader.header_line }
{
    match take_output(&mut lines.reader, text) {
        Ok(()) => {
            lines.number += 1;
            behind_output(alloc, lines);
            Ok(())
        }
        Err(stop) => Err(at_line(lines.number, stop)),
    }
}

// Reads bytes of gates.
fn take_bytes(alloc: Global, lines: &mut AigLines, bytes: &[u8]) -> Result<Option<usize>, AagStop>
    requires ready { AreAigLines lines.old }
    requires place { lines.old.place ≡ Gates }
    ensures bytes { TakesBytes lines.old bytes.now result lines.new }
    ensures ready { OnOk result (AreAigLines lines.new) }
    ensures header_line { lines.new.reader.header_line ≡ lines.old.reader.header_line }
    ensures same { IfOk result (λ left. IfNone left (lines.new.place ≡ Gates)) }
{
    let header = lines.reader.header;
    match take_gate_bytes(alloc, &mut lines.circuit, header, &mut lines.pending, bytes) {
        Ok(Some(left)) => {
            lines.place = Place::Symbols;
            lines.number += 1;
            lines.pending = Vec::new(alloc);
            Ok(Some(left))
        }
        Ok(None) => Ok(None),
        Err(stop) => Err(at_line(lines.number, stop)),
    }
}

// The last bytes of a text.
fn last_bytes(text: &[u8], count: usize) -> &[u8]
    requires { count ≤ length text.now }
    ensures { result.now ≡ drop (length text.now - count) text.now }
{
    &text[text.len() - count..]
}

// Reads a line that begins within the gates, and the symbol behind them, if they end there.
fn take_gate_line(
    alloc: Global,
    lines: &mut AigLines,
    text: &[u8],
    ended: bool,
) -> Result<(), AagStop>
    requires ready { AreAigLines lines.old }
    requires place { lines.old.place ≡ Gates }
    requires one_line { All (λ byte. byte ≢ 10) text.now }
    ensures line { TakesBinary lines.old text.now ended result lines.new }
    ensures ready { OnOk result (AreAigLines lines.new) }
    ensures header_line { lines.new.reader.header_line ≡ lines.old.reader.header_line }
{
    match take_bytes(alloc, lines, text) {
        Ok(Some(left)) => {
            if !begins_line(left, ended) {
                return Ok(());
            }
            take_symbol_line(lines, last_bytes(text, left))
        }
        Ok(None) => {
            if !ended {
                return Ok(());
            }
            take_feed(alloc, lines)
        }
        Err(stop) => Err(stop),
    }
}

// Whether a line begins behind the gates, where so many bytes are left of one that ended or didn't.
fn begins_line(left: usize, ended: bool) -> bool
    ensures some { result ≡ true → ended ≡ false → 0 < left }
    ensures none { result ≡ false → (ended ≡ false) × (left ≡ 0) }
{
    ended || left > 0
}

// Reads an LF that is a byte of gates.
fn take_feed(alloc: Global, lines: &mut AigLines) -> Result<(), AagStop>
    requires ready { AreAigLines lines.old }
    requires place { lines.old.place ≡ Gates }
    ensures feed { TakesFeed lines.old result lines.new }
    ensures ready { OnOk result (AreAigLines lines.new) }
    ensures header_line { lines.new.reader.header_line ≡ lines.old.reader.header_line }
{
    match take_bytes(alloc, lines, b"\n") {
        Ok(_) => Ok(()),
        Err(stop) => Err(stop),
    }
}

// Reads a line behind the gates.
fn take_symbol_line(lines: &mut AigLines, text: &[u8]) -> Result<(), AagStop>
    requires ready { AreAigLines lines.old }
    requires place { lines.old.place ≡ AtSymbols }
    ensures line { TakesText lines.old text.now result lines.new }
    ensures ready { OnOk result (AreAigLines lines.new) }
    ensures header_line { lines.new.reader.header_line ≡ lines.old.reader.header_line }
{
    let Some(next) = lines.number.checked_add(1) else {
        return Err(AagStop::Memory);
    };
    if is_blank(text) {
        lines.number = next;
        return Ok(());
    }
    if is_comment_mark(text) {
        lines.place = Place::Comment;
        lines.number = next;
        return Ok(());
    }
    match take_symbol(&mut lines.reader, text) {
        Ok(()) => {
            lines.number = next;
            Ok(())
        }
        Err(stop) => Err(at_line(lines.number, stop)),
    }
}

// The file of these parts, without a comment.
fn bare_of(header: Header, circuit: Circuit, symbols: Symbols) -> BareCircuit
    requires { IsBareOf header circuit }
    ensures parts { result ≡ bare_with header circuit
        (record { symbols = symbols; comment = None; comment_line = None }) }
    ensures bare { IsBare result }
{
    BareCircuit {
        inputs: header.inputs,
        file: AagFile {
            circuit,
            symbols,
            comment: None,
        },
        comment_line: None,
    }
}
