//! A circuit in which the output for each unit's existential is the constant that makes the unit
//! true. Gates and numbers stay.
//!
//! So a clause that goes isn't false by a constant, and nothing is asked of it. Gates that no
//! output reads any more stay, since the proof may hint at their clauses by their places.

ghost use Rattle.std.specs.Prelude.{◌≡◌, ◌<◌, [], length, reverse, slice_index, IfOk, OnOk};
ghost use Rattle.circuit_plain.specs.Netlist.{Netlist, gate_at};
ghost use Rattle.dq_prep.specs.Units.{taken_literals};
ghost use Rattle.skolem_checker.specs.Tables.{IsMapping};
ghost use Rattle.lifted_proofs.specs.SettledCircuits.{settled_output, settled_netlist};
ghost use Rattle.lifted_proofs.specs.UnitTables.{IsUnitTable};

use crate::sources::is_taken;
use crate::units::UnitTable;
use circuit_plain::Circuit;
use dq_lits::{Lit, Memory};
use skolem_checker::Bench;

/// The circuit with its outputs settled.
pub(crate) fn settled(table: &UnitTable, bench: &Bench) -> Result<Circuit, Memory>
    requires right { IsUnitTable table.now }
    requires mapped { IsMapping table.now.formula.now bench.now.circuit.netlist
        bench.now.circuit.mapping }
    ensures { IfOk result (λ c. c ≡ settled_netlist
        (taken_literals (reverse table.now.units.now)) bench.now.circuit.mapping.outputs
        bench.now.circuit.netlist) }
{
    let circuit = bench.circuit();
    circuit.every_circuit_is_a_netlist();
    let mut settled = Circuit::new(table.alloc, circuit.max_var());
    add_inputs(circuit, &mut settled)?;
    add_gates(circuit, &mut settled)?;
    add_outputs(table, bench, &mut settled)?;
    Ok(settled)
}

// Adds the inputs of a circuit to one that has none.
fn add_inputs(circuit: &Circuit, settled: &mut Circuit) -> Result<(), Memory>
    requires { settled.old ≡ record circuit.now { inputs = []; outputs = []; gates = [] } }
    ensures { OnOk result
        (settled.new ≡ record circuit.now { outputs = []; gates = [] }) }
{
    circuit.every_circuit_is_a_netlist();
    let inputs = circuit.inputs();
    for i in 0..inputs.len() {
        settled.add_input(inputs[i])?;
    }
    Ok(())
}

// Adds the gates.
fn add_gates(circuit: &Circuit, settled: &mut Circuit) -> Result<(), Memory>
    requires { settled.old ≡ record circuit.now { outputs = []; gates = [] } }
    ensures { OnOk result (settled.new ≡ record circuit.now { outputs = [] }) }
{
    circuit.every_circuit_is_a_netlist();
    for i in 0..circuit.gates() {
        let (literal, left, right) = circuit.gate(i);
        settled.add_gate(literal, left, right)?;
    }
    Ok(())
}

// Adds the outputs, settled.
fn add_outputs(table: &UnitTable, bench: &Bench, settled: &mut Circuit) -> Result<(), Memory>
    requires right { IsUnitTable table.now }
    requires mapped { IsMapping table.now.formula.now bench.now.circuit.netlist
        bench.now.circuit.mapping }
    requires inside { settled.old ≡ record bench.now.circuit.netlist { outputs = [] } }
    ensures { OnOk result (settled.new ≡ settled_netlist
        (taken_literals (reverse table.now.units.now)) bench.now.circuit.mapping.outputs
        bench.now.circuit.netlist) }
{
    let circuit = bench.circuit();
    circuit.every_circuit_is_a_netlist();
    for place in 0..circuit.outputs().len() {
        let out = output_at(table, bench, place);
        settled.add_output(out)?;
    }
    Ok(())
}

// The output at a place, settled.
fn output_at(table: &UnitTable, bench: &Bench, place: usize) -> u64
    requires right { IsUnitTable table.now }
    requires mapped { IsMapping table.now.formula.now bench.now.circuit.netlist
        bench.now.circuit.mapping }
    requires within { place < length bench.now.circuit.netlist.outputs }
    ensures { result ≡ settled_output (taken_literals (reverse table.now.units.now))
        (slice_index bench.now.circuit.mapping.outputs place)
        (slice_index bench.now.circuit.netlist.outputs place) }
{
    let positive = Lit::pos(bench.outputs()[place]);
    if is_taken(table, positive) {
        return 1;
    }
    if is_taken(table, positive.not()) {
        return 0;
    }
    bench.circuit().outputs()[place]
}
