//! Reading a circuit file.

ghost use Rattle.std.specs.Prelude.{◌≡◌, ◌+◌, ◌<◌, ◌^◌, [], length, IfOk, IfErr, IfSome};
ghost use Rattle.aiger_text.specs.ReaderState.{IsCircuitReader};
ghost use Rattle.aiger_text.specs.Symbol.{SymbolTable};
ghost use Rattle.aig_binary.specs.BareReading.{listed, IsReadingBy};
ghost use Rattle.aiger_text.specs.declared.faults.AagStop.TheVariants.{Memory as NoMemory};
ghost use Rattle.aig_binary.specs.BareFile.{CanCount, IsBare, IsBareOf, bare_with};
ghost use Rattle.aig_binary.specs.Endings.{ending_of};
ghost use Rattle.aig_binary.specs.Steps.{IsFresh};
ghost use Rattle.aig_binary.specs.Scan.{behind_gates, behind_outputs, behind_header, scan_binary};

use crate::bare::BareCircuit;
use crate::deltas::Deltas;
use crate::endings::{Comment, read_ending};
use crate::gates::take_gates;
use crate::headers::read_binary_header;
use crate::outputs::take_outputs;
use crate::stops::{at_line, refused};
use aiger_text::{AagFault, AagFile, AagStop, CircuitReader, Text, start_reader};
use circuit_plain::Circuit;
use dq_text::Lines;
use std::alloc::Global;

/// Reads a binary circuit file whose first line has the number `first`, without listing its inputs:
/// exactly the file that it spells within the limits, or its first fault by line and name.
pub fn read_bare(alloc: Global, bytes: &[u8], first: u64) -> Result<BareCircuit, AagStop>
    requires { first + length bytes.now < 2 ^ 62 }
    ensures exact { IsReadingBy listed (scan_binary bytes.now first) result }
    ensures bare { IfOk result IsBare }
{
    let mut lines = Lines::new(bytes, first);
    let Some(line) = lines.next() else {
        return Err(refused(first, AagFault::BadHeader));
    };
    let mut numbers = Vec::new(alloc);
    match read_binary_header(line.text, &mut numbers) {
        Ok(header) => {
            let reader = start_reader(alloc, first, header, numbers);
            read_outputs(alloc, reader, lines)
        }
        Err(stop) => Err(at_line(first, stop)),
    }
}

// The file behind the header's line.
fn read_outputs(
    alloc: Global,
    mut reader: CircuitReader,
    mut lines: Lines,
) -> Result<BareCircuit, AagStop>
    requires ready { IsCircuitReader reader }
    requires fresh { IsFresh reader }
    requires all_defined { reader.header.max_var ≡ reader.header.inputs + reader.header.gates }
    requires line { lines.number ≡ reader.header_line + 1 }
    requires fits { reader.header_line + length lines.rest < 2 ^ 62 }
    ensures exact { IsReadingBy listed (behind_header reader.header_line lines.entry.rest reader.header)
        result }
    ensures bare { IfOk result IsBare }
{
    match take_outputs(&mut reader, &mut lines) {
        Ok(()) => read_gates(alloc, reader, lines.rest()),
        Err(stop) => Err(stop),
    }
}

// The file behind the outputs' lines.
fn read_gates(alloc: Global, reader: CircuitReader, bytes: &[u8]) -> Result<BareCircuit, AagStop>
    requires ready { IsCircuitReader reader }
    requires no_inputs { reader.circuit.inputs ≡ [] }
    requires no_gates { reader.circuit.gates ≡ [] }
    requires all_defined { reader.header.max_var ≡ reader.header.inputs + reader.header.gates }
    requires fits { reader.header_line + length bytes.now < 2 ^ 62 }
    ensures exact { IsReadingBy listed
        (behind_outputs reader.header_line reader.header (reader.circuit, bytes.now)) result }
    ensures bare { IfOk result IsBare }
{
    let CircuitReader {
        header_line,
        header,
        mut circuit,
        numbers,
        ..
    } = reader;
    let line = header_line + 1 + header.outputs;
    let mut deltas = Deltas::new(bytes);
    match take_gates(&mut circuit, header, &mut deltas) {
        Ok(()) => {
            let symbols = start_reader(alloc, header_line, header, numbers);
            read_symbols(alloc, symbols, circuit, Lines::new(deltas.rest(), line + 1))
        }
        Err(stop) => Err(at_line(line, stop)),
    }
}

// The file behind the gates.
fn read_symbols(
    alloc: Global,
    mut reader: CircuitReader,
    circuit: Circuit,
    mut lines: Lines,
) -> Result<BareCircuit, AagStop>
    requires ready { IsCircuitReader reader }
    requires fresh { IsFresh reader }
    requires bare { IsBareOf reader.header circuit }
    requires line { lines.number ≡ reader.header_line + 1 + reader.header.outputs + 1 }
    requires fits { reader.header_line + length lines.rest < 2 ^ 62 }
    ensures exact { IsReadingBy listed
        (behind_gates reader.header_line reader.header (circuit, lines.entry.rest)) result }
    ensures bare { IfOk result IsBare }
{
    match read_ending(&mut reader, &mut lines) {
        Ok(comment) => finished(alloc, reader, circuit, comment),
        Err(stop) => Err(stop),
    }
}

// The file of these parts.
fn finished(
    alloc: Global,
    reader: CircuitReader,
    circuit: Circuit,
    comment: Option<Comment>,
) -> Result<BareCircuit, AagStop>
    requires bare { IsBareOf reader.header circuit }
    requires fits { IfSome comment (λ c. c.line + length c.bytes.now < 2 ^ 63) }
    ensures file { IfOk result (λ bare. bare ≡ bare_with reader.header circuit
        (ending_of reader.symbols comment.entry)) }
    ensures bare { IfOk result IsBare }
    ensures refused_memory { IfErr result (λ stop. stop ≡ NoMemory) }
{
    let (comment, comment_line) = text_of(alloc, comment)?;
    let CircuitReader {
        header,
        symbols,
        ..
    } = reader;
    Ok(BareCircuit {
        inputs: header.inputs,
        file: AagFile {
            circuit,
            symbols,
            comment,
        },
        comment_line,
    })
}

// A comment's text, and its line.
fn text_of(alloc: Global, comment: Option<Comment>) -> Result<(Option<Text>, Option<u64>), AagStop>
    requires fits { IfSome comment (λ c. c.line + length c.bytes.now < 2 ^ 63) }
    ensures text { IfOk result (λ kept. (table : SymbolTable)
        → record { symbols = table; comment = kept.0; comment_line = kept.1 }
        ≡ ending_of table comment.entry) }
    ensures line { IfOk result (λ kept. CanCount kept.0 kept.1) }
    ensures refused_memory { IfErr result (λ stop. stop ≡ NoMemory) }
{
    match comment {
        None => Ok((None, None)),
        Some(found) => {
            let text = Text::from_bytes(alloc, found.bytes)?;
            Ok((Some(text), Some(found.line)))
        }
    }
}
