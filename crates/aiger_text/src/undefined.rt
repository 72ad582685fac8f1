//! Variables that are named and not defined.

ghost use Rattle.std.specs.Prelude.{◌≡◌, ◌+◌, ◌<◌, ◌/◌, not, Some, None, length};
ghost use Rattle.std.specs.List.{position};
ghost use Rattle.circuit_plain.specs.Netlist.{gate_at};
ghost use Rattle.aiger_text.specs.Scan.{stands_on_defined, reads_defined, undefined_line};
ghost use Rattle.aiger_text.specs.ReaderState.{body_of, IsCircuitReader};

use crate::body::CircuitReader;

/// The line of the first output, or else of the first gate, that names a variable that is neither
/// input nor gate.
pub fn first_undefined_line(reader: &CircuitReader) -> Option<u64>
    requires { IsCircuitReader reader.now }
    ensures { result ≡ undefined_line (body_of reader.now) }
{
    reader.circuit.every_circuit_is_a_netlist();
    if reader.circuit.has_least_numbers() {
        // The usual case: each number in range is that of an input or a gate.
        return None;
    }
    first_undefined_by_look(reader)
}

// The same, by a look at each literal.
#[inline(never)]
fn first_undefined_by_look(reader: &CircuitReader) -> Option<u64>
    requires { IsCircuitReader reader.now }
    ensures { result ≡ undefined_line (body_of reader.now) }
{
    let behind_inputs = reader.header_line + 1 + reader.header.inputs;
    if let Some(output) = undefined_output(reader) {
        return Some(behind_inputs + output as u64);
    }
    let gate = undefined_gate(reader)?;
    Some(behind_inputs + reader.header.outputs + gate as u64)
}

// Whether a literal stands on the constant, an input or a gate.
fn is_named(reader: &CircuitReader, literal: u64) -> bool
    requires { IsCircuitReader reader.now }
    ensures { result ≡ stands_on_defined reader.now.circuit literal }
{
    literal / 2 == 0 || reader.defined.contains(literal / 2)
}

fn undefined_output(reader: &CircuitReader) -> Option<usize>
    requires { IsCircuitReader reader.now }
    ensures { result
        ≡ position (λ l. not (stands_on_defined reader.now.circuit l)) reader.now.circuit.outputs }
{
    reader
        .circuit
        .outputs()
        .iter()
        .position(|literal| !is_named(reader, *literal))
}

fn undefined_gate(reader: &CircuitReader) -> Option<usize>
    requires { IsCircuitReader reader.now }
    ensures { result
        ≡ position (λ g. not (reads_defined reader.now.circuit g)) reader.now.circuit.gates }
{
    for i in 0..reader.circuit.gates() {
        if names_undefined(reader, i) {
            return Some(i);
        }
    }
    None
}

// Whether the gate at place `i` reads a variable that is neither input nor gate.
fn names_undefined(reader: &CircuitReader, i: usize) -> bool
    requires ready { IsCircuitReader reader.now }
    requires in_range { i < length reader.now.circuit.gates }
    ensures { result ≡ not (reads_defined reader.now.circuit (gate_at reader.now.circuit i)) }
{
    let (_, left, right) = reader.circuit.gate(i);
    !is_named(reader, left) || !is_named(reader, right)
}
