//! The exported circuit.

ghost use Rattle.std.specs.Prelude.{◌≡◌, ◌≤◌, ◌<◌, ◌^◌, [], length, IfOk, OnOk};
ghost use Rattle.std.specs.List.{range_with_len, Contains};
ghost use Rattle.hint_log.specs.Entries.{name_of};
ghost use Rattle.cert_export.specs.CircuitPart.{circuit_renaming, exported_netlist, gate_of, leaf_code};
ghost use Rattle.cert_export.specs.Netlists.{IsExportable, IsLeafNamed};
ghost use Rattle.cert_export.specs.Parts.{part_of, IsSmall};

use crate::circuit_numbers::{code, number_or_zero};
use crate::parts::ExportedPart;
use circuit_plain::Circuit;
use dq_formula::Formula;
use dq_lits::Memory;
use hint_log::{Leaf, Log, Name};
use std::alloc::Global;

/// The circuit of the gates and the leaves.
pub(crate) fn netlist(
    alloc: Global,
    log: &Log,
    f: &Formula,
    part: &ExportedPart,
) -> Result<Circuit, Memory>
    requires { IsExportable f.now log.now.entries part.now }
    ensures { IfOk result (λ c. c ≡ exported_netlist f.now log.now.entries (part_of part.now)) }
{
    let inputs = f.universals().len() as u64;
    let gates = part.gates.len() as u64;
    let mut circuit = Circuit::new(alloc, inputs + gates);
    add_inputs(&mut circuit, inputs)?;
    add_gates(log, f, part, &mut circuit)?;
    add_outputs(log, f, part, &mut circuit)?;
    Ok(circuit)
}

// Adds inputs with the first numbers.
fn add_inputs(circuit: &mut Circuit, count: u64) -> Result<(), Memory>
    requires inputs { circuit.old.inputs ≡ [] }
    requires gates { circuit.old.gates ≡ [] }
    requires range { count ≤ circuit.old.max_var }
    ensures { OnOk result (circuit.new ≡ record circuit.old { inputs = range_with_len 1 count }) }
{
    for i in 0..count {
        circuit.add_input(i + 1)?;
    }
    Ok(())
}

// Adds the gates in their order.
fn add_gates(
    log: &Log,
    f: &Formula,
    part: &ExportedPart,
    circuit: &mut Circuit,
) -> Result<(), Memory>
    requires can { IsExportable f.now log.now.entries part.now }
    requires so_far { circuit.old
        ≡ record (exported_netlist f.now log.now.entries (part_of part.now))
        { outputs = []; gates = [] } }
    ensures { OnOk result
        (circuit.new
        ≡ record (exported_netlist f.now log.now.entries (part_of part.now)) { outputs = [] }) }
{
    for place in 0..part.gates.len() {
        let (variable, left, right) = file_gate(log, f, part, part.gates.items()[place]);
        circuit.add_gate(2 * variable, left, right)?;
    }
    Ok(())
}

// A gate's number and the codes of its sides.
fn file_gate(log: &Log, f: &Formula, part: &ExportedPart, v: u64) -> (u64, u64, u64)
    requires can { IsExportable f.now log.now.entries part.now }
    requires inside { Contains part.now.gates v }
    ensures value { let gate = gate_of (circuit_renaming f.now log.now.entries (part_of part.now)) v
        (name_of log.now.entries v) in
        result ≡ (gate.variable, gate.left, gate.right) }
    ensures range { result.0 ≤ 10 ^ 17 }
{
    let number = number_or_zero(log, f, part, v);
    match log.name(v) {
        Name::And { left, right } => {
            (
                number,
                code(log, f, part, &left),
                code(log, f, part, &right),
            )
        }
        _ => unreachable!(),
    }
}

// Adds the outputs, one for each existential.
fn add_outputs(
    log: &Log,
    f: &Formula,
    part: &ExportedPart,
    circuit: &mut Circuit,
) -> Result<(), Memory>
    requires can { IsExportable f.now log.now.entries part.now }
    requires so_far { circuit.old
        ≡ record (exported_netlist f.now log.now.entries (part_of part.now)) { outputs = [] } }
    ensures { OnOk result
        (circuit.new ≡ exported_netlist f.now log.now.entries (part_of part.now)) }
{
    for y in f.existentials() {
        circuit.add_output(leaf_number(log, f, part, part.leaves.get(*y)))?;
    }
    Ok(())
}

// The code of a leaf.
fn leaf_number(log: &Log, f: &Formula, part: &ExportedPart, leaf: Leaf) -> u64
    requires named { IsLeafNamed log.now.entries leaf }
    requires small { IsSmall f.now part.now.gates }
    ensures { result ≡ leaf_code (circuit_renaming f.now log.now.entries (part_of part.now)) leaf }
{
    match leaf {
        Leaf::Constant(false) => 0,
        Leaf::Constant(true) => 1,
        Leaf::Literal(l) => code(log, f, part, &l),
    }
}
