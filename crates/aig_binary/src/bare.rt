//! A binary circuit file whose inputs aren't listed.

ghost use Rattle.std.specs.Prelude.{◌≡◌, ◌+◌, ◌≤◌, [], IfOk, OnOk};
ghost use Rattle.aig_binary.specs.BareReading.{AreNumbered, listed};
ghost use Rattle.aig_binary.specs.BareFile.{IsBare};
ghost use Rattle.aig_binary.specs.Scan.{first_variables};

use aiger_text::{AagFile, ReadCircuit};
use circuit_plain::Circuit;
use dq_lits::Memory;

/// A circuit file in the binary form, in which the inputs are the variables from 1 on and aren't
/// written.
#[derive(Drop)]
pub struct BareCircuit {
    /// How many inputs there are.
    pub inputs: u64,
    /// The file without its inputs.
    pub file: AagFile,
    /// The number of its comment's first line, if it has a comment.
    pub comment_line: Option<u64>,
}

/// Lists the inputs. It takes time and memory by their number, which the text's length doesn't bound.
pub fn list_inputs(bare: BareCircuit) -> Result<ReadCircuit, Memory>
    requires { IsBare bare }
    ensures { IfOk result (λ read. read ≡ listed bare) }
{
    let BareCircuit {
        inputs,
        mut file,
        comment_line,
    } = bare;
    add_inputs(&mut file.circuit, inputs)?;
    Ok(ReadCircuit { file, comment_line })
}

// Adds the variables from 1 on as inputs, in front of which no input stands.
fn add_inputs(circuit: &mut Circuit, count: u64) -> Result<(), Memory>
    requires no_inputs { circuit.old.inputs ≡ [] }
    requires numbered { AreNumbered (count + 1) circuit.old.gates }
    requires in_range { count ≤ circuit.old.max_var }
    ensures { OnOk result
        (circuit.new ≡ record circuit.old { inputs = first_variables count }) }
{
    for i in 0..count {
        circuit.add_input(i + 1)?;
    }
    Ok(())
}
