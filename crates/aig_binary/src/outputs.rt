//! The lines of the outputs.

ghost use Rattle.std.specs.Prelude.{◌≡◌, ◌+◌, ◌<◌, ◌≤◌, [], length, OnOk};
ghost use Rattle.aiger_text.specs.ReaderState.{IsCircuitReader};
ghost use Rattle.aig_binary.specs.Scan.{read_outputs};
ghost use Rattle.aig_binary.specs.Steps.{IsFresh, AreOutputsOf};

use crate::stops::{at_line, refused};
use aiger_text::{AagFault, AagStop, CircuitReader, take_output};
use dq_text::Lines;

/// Reads a line for each output that the header states.
pub fn take_outputs(reader: &mut CircuitReader, lines: &mut Lines) -> Result<(), AagStop>
    requires ready { IsCircuitReader reader.old }
    requires fresh { IsFresh reader.old }
    requires line { lines.old.number ≡ reader.old.header_line + 1 }
    ensures outputs { AreOutputsOf
        (read_outputs reader.old.header.outputs reader.old.circuit lines.old.number
        lines.old.rest) result reader.new.circuit lines.new.rest }
    ensures ready { OnOk result (IsCircuitReader reader.new) }
    ensures header_line { reader.new.header_line ≡ reader.old.header_line }
    ensures header { reader.new.header ≡ reader.old.header }
    ensures no_inputs { OnOk result (reader.new.circuit.inputs ≡ []) }
    ensures no_gates { OnOk result (reader.new.circuit.gates ≡ []) }
    ensures number { OnOk result
        (lines.new.number ≡ reader.old.header_line + 1 + reader.old.header.outputs) }
    ensures shorter { length lines.new.rest ≤ length lines.old.rest }
{
    let outputs = reader.header.outputs;
    for i in 0..outputs {
        let Some(line) = lines.next() else {
            return Err(refused(lines.number(), AagFault::Truncated));
        };
        match take_output(reader, line.text) {
            Ok(()) => {}
            Err(stop) => return Err(at_line(line.number, stop)),
        }
    }
    Ok(())
}
