//! A circuit whose gates have their greater side first.

ghost use Rattle.std.specs.Prelude.{◌≡◌, ◌*◌, ◌<◌, [], length, IfOk, OnOk};
ghost use Rattle.circuit_plain.specs.Netlist.{gate_at};
ghost use Rattle.ordered_gates.specs.Circuits.{ordered_gate, ordered_netlist};

use circuit_plain::Circuit;
use dq_lits::Memory;
use std::alloc::Global;

/// The circuit with each gate's greater side first. It takes time and memory by the circuit.
pub fn ordered_circuit(alloc: Global, circuit: &Circuit) -> Result<Circuit, Memory>
    ensures { IfOk result (λ c. c ≡ ordered_netlist circuit.now) }
{
    circuit.every_circuit_is_a_netlist();
    let mut ordered = Circuit::new(alloc, circuit.max_var());
    add_inputs(circuit, &mut ordered)?;
    add_gates(circuit, &mut ordered)?;
    add_outputs(circuit, &mut ordered)?;
    Ok(ordered)
}

// Adds the inputs of a circuit to one that has none.
fn add_inputs(circuit: &Circuit, ordered: &mut Circuit) -> Result<(), Memory>
    requires { ordered.old
        ≡ record circuit.now { inputs = []; outputs = []; gates = [] } }
    ensures { OnOk result
        (ordered.new ≡ record circuit.now { outputs = []; gates = [] }) }
{
    circuit.every_circuit_is_a_netlist();
    let inputs = circuit.inputs();
    for i in 0..inputs.len() {
        ordered.add_input(inputs[i])?;
    }
    Ok(())
}

// Adds the gates, each with its greater side first.
fn add_gates(circuit: &Circuit, ordered: &mut Circuit) -> Result<(), Memory>
    requires { ordered.old ≡ record circuit.now { outputs = []; gates = [] } }
    ensures { OnOk result (ordered.new ≡ record (ordered_netlist circuit.now) { outputs = [] }) }
{
    circuit.every_circuit_is_a_netlist();
    for i in 0..circuit.gates() {
        let (literal, left, right) = ordered_sides(circuit, i);
        ordered.add_gate(literal, left, right)?;
    }
    Ok(())
}

// A gate's literal and its sides, the greater one first.
fn ordered_sides(circuit: &Circuit, i: usize) -> (u64, u64, u64)
    requires { i < length circuit.now.gates }
    ensures { let gate = ordered_gate (gate_at circuit.now i) in
        result ≡ (2 * gate.variable, gate.left, gate.right) }
{
    let (literal, left, right) = circuit.gate(i);
    if left < right {
        (literal, right, left)
    } else {
        (literal, left, right)
    }
}

// Adds the outputs.
fn add_outputs(circuit: &Circuit, ordered: &mut Circuit) -> Result<(), Memory>
    requires { ordered.old ≡ record (ordered_netlist circuit.now) { outputs = [] } }
    ensures { OnOk result (ordered.new ≡ ordered_netlist circuit.now) }
{
    circuit.every_circuit_is_a_netlist();
    let outputs = circuit.outputs();
    for i in 0..outputs.len() {
        ordered.add_output(outputs[i])?;
    }
    Ok(())
}
