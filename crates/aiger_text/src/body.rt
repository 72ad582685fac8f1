//! The lines of inputs, outputs and gates.

ghost use Rattle.std.specs.Prelude.{◌≡◌, ◌<◌, ◌≤◌, ◌^◌, ◌||◌, true, length, if◌then◌else◌, MatchResult, OnOk, Ok, Err, Some, None};
ghost use Rattle.circuit_plain.specs.Netlist.{Netlist, IsLiteral};
ghost use Rattle.dq_text.specs.Line.{line_tokens};
ghost use Rattle.aiger_text.specs.Lines.{numbers_of, is_positive, is_literal, is_too_big, with_input, with_output, input_of, output_of, gate_of, input_line, output_line, gate_line};
ghost use Rattle.aiger_text.specs.Scan.{start, next_part};
ghost use Rattle.aiger_text.specs.ReaderState.{body_of, IsSmall, IsCircuitReader, IsNetlistOf, SameElse, IsNewVariable, gate_in_range};
ghost use Rattle.aiger_text.specs.declared.faults.AagFault.{AagFault};
ghost use Rattle.aiger_text.specs.declared.faults.AagFault.TheVariants.{TooBig, Range};
ghost use Rattle.aiger_text.specs.declared.headers.TheConstants.{MAX_COUNT};

use crate::faults::{AagFault, LineStop};
use crate::headers::{Header, MAX_COUNT};
use crate::numbers::{GateNumbers, one_number, three_numbers};
use crate::symbols::Symbols;
use circuit_plain::Circuit;
use dq_text::TOO_BIG;
use number_tables::NumberSet;
use std::alloc::Global;

/// What was read behind the header, and the header's line.
#[derive(Drop)]
pub struct CircuitReader {
    pub header_line: u64,
    pub header: Header,
    pub circuit: Circuit,
    /// The variables of the inputs and gates so far.
    pub defined: NumberSet,
    pub symbols: Symbols,
    /// A buffer for a line's numbers.
    pub numbers: Vec<u64>,
}

/// Which line comes next.
#[derive(Clone, Copy, PartialEq, Eq)]
pub enum NextLine {
    InputLine,
    OutputLine,
    GateLine,
    /// A symbol, or what ends the symbols.
    SymbolLine,
}

/// Nothing is read behind the header.
pub fn start_reader(
    alloc: Global,
    header_line: u64,
    header: Header,
    numbers: Vec<u64>,
) -> CircuitReader
    requires small { IsSmall header }
    requires line { header_line < 2 ^ 62 }
    ensures body { body_of result ≡ start header_line header }
    ensures ready { IsCircuitReader result }
{
    CircuitReader {
        header_line,
        header,
        circuit: Circuit::new(alloc, header.max_var),
        defined: NumberSet::new(alloc),
        symbols: Symbols::new(alloc),
        numbers,
    }
}

// Whether a number is the positive literal of a variable in range.
fn is_positive_literal(max_var: u64, literal: u64) -> bool
    requires { max_var < 2 ^ 62 }
    ensures { result ≡ is_positive max_var literal }
{
    literal % 2 == 0 && literal >= 2 && literal <= 2 * max_var
}

// Whether a number is a literal in range.
fn is_literal_in_range(max_var: u64, literal: u64) -> bool
    requires { max_var < 2 ^ 62 }
    ensures { result ≡ is_literal max_var literal }
{
    literal <= 2 * max_var + 1
}

// The variable of an input.
fn input_variable(reader: &CircuitReader, literal: u64) -> Result<u64, AagFault>
    requires { IsCircuitReader reader.now }
    ensures { MatchResult result
        (λ v. (input_of reader.now.circuit literal ≡ Ok (with_input reader.now.circuit v))
        × IsNewVariable reader.now.circuit v)
        (λ name. input_of reader.now.circuit literal ≡ Err name) }
{
    if literal >= TOO_BIG {
        return Err(AagFault::TooBig);
    }
    if !is_positive_literal(reader.circuit.max_var(), literal) {
        return Err(AagFault::Range);
    }
    if reader.defined.contains(literal / 2) {
        return Err(AagFault::DefinedTwice);
    }
    Ok(literal / 2)
}

/// Reads the line of an input.
pub fn take_input(reader: &mut CircuitReader, line: &[u8]) -> Result<(), LineStop>
    requires ready { IsCircuitReader reader.old }
    requires room { length reader.old.circuit.inputs < reader.old.header.inputs }
    ensures netlist { IsNetlistOf
        (input_line reader.old.circuit (numbers_of (line_tokens line.now))) result
        reader.new.circuit }
    ensures same { SameElse reader.old reader.new }
    ensures ready { OnOk result (IsCircuitReader reader.new) }
{
    let literal = one_number(line, &mut reader.numbers)?;
    let variable = input_variable(reader, literal)?;
    reader.circuit.add_input(variable)?;
    reader.defined.insert(variable)?;
    Ok(())
}

// The literal of an output.
fn output_literal(reader: &CircuitReader, literal: u64) -> Result<u64, AagFault>
    requires { IsCircuitReader reader.now }
    ensures { MatchResult result
        (λ l. (output_of reader.now.circuit literal ≡ Ok (with_output reader.now.circuit l))
        × IsLiteral reader.now.circuit.max_var l)
        (λ name. output_of reader.now.circuit literal ≡ Err name) }
{
    if literal >= TOO_BIG {
        return Err(AagFault::TooBig);
    }
    if !is_literal_in_range(reader.circuit.max_var(), literal) {
        return Err(AagFault::Range);
    }
    Ok(literal)
}

/// Reads the line of an output.
pub fn take_output(reader: &mut CircuitReader, line: &[u8]) -> Result<(), LineStop>
    requires ready { IsCircuitReader reader.old }
    requires room { length reader.old.circuit.outputs < reader.old.header.outputs }
    ensures netlist { IsNetlistOf
        (output_line reader.old.circuit (numbers_of (line_tokens line.now))) result
        reader.new.circuit }
    ensures same { SameElse reader.old reader.new }
    ensures ready { OnOk result (IsCircuitReader reader.new) }
{
    let number = one_number(line, &mut reader.numbers)?;
    let literal = output_literal(reader, number)?;
    reader.circuit.add_output(literal)?;
    Ok(())
}

// What is wrong with a gate's numbers, whatever was defined before it.
fn number_fault(max_var: u64, numbers: GateNumbers) -> Option<AagFault>
    requires { max_var ≤ MAX_COUNT }
    ensures none { result ≡ None → gate_in_range max_var numbers ≡ true }
    ensures some { (name : AagFault) (net : Netlist) → result ≡ Some name → net.max_var ≡ max_var
        → gate_of net numbers.lhs numbers.left numbers.right ≡ Err name }
{
    if is_gate_in_range(max_var, numbers) {
        return None;
    }
    Some(range_fault(numbers))
}

// The fault of numbers that aren't a gate's in range.
#[inline(never)]
fn range_fault(numbers: GateNumbers) -> AagFault
    ensures { result ≡ (if is_too_big numbers.lhs
        || (is_too_big numbers.left || is_too_big numbers.right) then TooBig else Range) }
{
    let GateNumbers { lhs, left, right } = numbers;
    if lhs >= TOO_BIG || left >= TOO_BIG || right >= TOO_BIG {
        AagFault::TooBig
    } else {
        AagFault::Range
    }
}

// Whether three numbers are a gate's in range.
fn is_gate_in_range(max_var: u64, numbers: GateNumbers) -> bool
    requires { max_var < 2 ^ 62 }
    ensures { result ≡ gate_in_range max_var numbers }
{
    is_positive_literal(max_var, numbers.lhs)
        && is_literal_in_range(max_var, numbers.left)
        && is_literal_in_range(max_var, numbers.right)
}

/// Reads the line of a gate.
pub fn take_gate(reader: &mut CircuitReader, line: &[u8]) -> Result<(), LineStop>
    requires ready { IsCircuitReader reader.old }
    requires room { length reader.old.circuit.gates < reader.old.header.gates }
    ensures netlist { IsNetlistOf (gate_line reader.old.circuit (numbers_of (line_tokens line.now)))
        result reader.new.circuit }
    ensures same { SameElse reader.old reader.new }
    ensures ready { OnOk result (IsCircuitReader reader.new) }
{
    let numbers = three_numbers(line, &mut reader.numbers)?;
    if let Some(name) = number_fault(reader.circuit.max_var(), numbers) {
        return Err(LineStop::Fault(name));
    }
    if !reader.defined.insert(numbers.lhs / 2)? {
        return Err(LineStop::Fault(AagFault::DefinedTwice));
    }
    reader
        .circuit
        .add_gate(numbers.lhs, numbers.left, numbers.right)?;
    Ok(())
}

/// Which line comes next.
pub fn part_of(reader: &CircuitReader) -> NextLine
    ensures { result ≡ next_part (body_of reader.now) }
{
    if (reader.circuit.inputs().len() as u64) < reader.header.inputs {
        NextLine::InputLine
    } else if (reader.circuit.outputs().len() as u64) < reader.header.outputs {
        NextLine::OutputLine
    } else if (reader.circuit.gates() as u64) < reader.header.gates {
        NextLine::GateLine
    } else {
        NextLine::SymbolLine
    }
}
