//! A copy of a circuit whose variables have the least numbers. A file's header may state any
//! largest variable; rows by variable over the copy are as long as the circuit.

ghost use Rattle.std.specs.Prelude.{◌≡◌, ◌*◌, ◌+◌, ◌<◌, ◌^◌, length, take, Contains, IfOk, OnOk};
ghost use Rattle.circuit_plain.specs.Netlist.{IsNetlist, literal_variable};
ghost use Rattle.skolem_checker.specs.Renaming.{copy_or, known_variables, number_in, renamed_literal, renumbered, renumbered_first};
ghost use Rattle.skolem_checker.specs.SkolemCircuit.{IsComplete};

use circuit_plain::Circuit;
use dq_lits::Memory;
use number_tables::NumberSet;
use std::alloc::Global;

fn learn_inputs(circuit: &Circuit, known: &mut NumberSet) -> Result<(), Memory>
    requires { known.old ≡ take 1 (known_variables circuit.now) }
    ensures { OnOk result
        (known.new ≡ take (length circuit.now.inputs + 1) (known_variables circuit.now)) }
{
    circuit.every_circuit_is_a_netlist();
    for variable in circuit.inputs() {
        known.push(*variable)?;
    }
    Ok(())
}

fn learn_gates(circuit: &Circuit, known: &mut NumberSet) -> Result<(), Memory>
    requires { known.old ≡ take (length circuit.now.inputs + 1) (known_variables circuit.now) }
    ensures { OnOk result (known.new ≡ known_variables circuit.now) }
{
    circuit.every_circuit_is_a_netlist();
    for i in 0..circuit.gates() {
        let (lhs, _, _) = circuit.gate(i);
        known.push(lhs / 2)?;
    }
    Ok(())
}

// The constant, the inputs and the gates: a variable's place is its new number.
fn known_variables(alloc: Global, circuit: &Circuit) -> Result<NumberSet, Memory>
    ensures { IfOk result (λ known. known ≡ known_variables circuit.now) }
{
    let mut known = NumberSet::new(alloc);
    known.push(0)?;
    learn_inputs(circuit, &mut known)?;
    learn_gates(circuit, &mut known)?;
    Ok(known)
}

// The place of a variable that is known.
fn number(known: &NumberSet, variable: u64) -> u64
    requires { Contains known.now variable }
    ensures is { result ≡ number_in known.now variable }
    ensures small { result < 2 ^ 63 }
{
    // The call shows the numbers' invariant.
    let _ = known.len();
    match known.place(variable) {
        Some(place) => place as u64,
        None => unreachable!(),
    }
}

// The literal of a known variable's number, with its sign.
fn renumbered_literal(known: &NumberSet, literal: u64) -> u64
    requires { Contains known.now (literal_variable literal) }
    ensures { result ≡ renamed_literal (number_in known.now) literal }
{
    2 * number(known, literal / 2) + literal % 2
}

fn copy_inputs(circuit: &Circuit, known: &NumberSet, copy: &mut Circuit) -> Result<(), Memory>
    requires known { known.now ≡ known_variables circuit.now }
    requires start { copy.old ≡ renumbered_first circuit.now 0 0 0 }
    ensures { OnOk result
        (copy.new ≡ renumbered_first circuit.now (length circuit.now.inputs) 0 0) }
{
    circuit.every_circuit_is_a_netlist();
    for variable in circuit.inputs() {
        copy.add_input(number(known, *variable))?;
    }
    Ok(())
}

fn copy_gates(circuit: &Circuit, known: &NumberSet, copy: &mut Circuit) -> Result<(), Memory>
    requires complete { IsComplete circuit.now }
    requires known { known.now ≡ known_variables circuit.now }
    requires start { copy.old ≡ renumbered_first circuit.now (length circuit.now.inputs) 0 0 }
    ensures { OnOk result
        (copy.new
        ≡ renumbered_first circuit.now (length circuit.now.inputs) (length circuit.now.gates)
        0) }
{
    circuit.every_circuit_is_a_netlist();
    for i in 0..circuit.gates() {
        let (lhs, left, right) = circuit.gate(i);
        let new_lhs = renumbered_literal(known, lhs);
        let new_left = renumbered_literal(known, left);
        let new_right = renumbered_literal(known, right);
        copy.add_gate(new_lhs, new_left, new_right)?;
    }
    Ok(())
}

fn copy_outputs(circuit: &Circuit, known: &NumberSet, copy: &mut Circuit) -> Result<(), Memory>
    requires complete { IsComplete circuit.now }
    requires known { known.now ≡ known_variables circuit.now }
    requires start { copy.old
        ≡ renumbered_first circuit.now (length circuit.now.inputs) (length circuit.now.gates) 0 }
    ensures { OnOk result (copy.new ≡ renumbered circuit.now) }
{
    for output in circuit.outputs() {
        copy.add_output(renumbered_literal(known, *output))?;
    }
    Ok(())
}

/// The circuit with its inputs numbered from 1 on and its gates behind them, both in their order; none
/// where it is so numbered already.
pub(crate) fn renumbered(alloc: Global, circuit: &Circuit) -> Result<Option<Circuit>, Memory>
    requires { IsComplete circuit.now }
    ensures kept { IsNetlist circuit.now }
    ensures copy { IfOk result (λ copy. copy_or copy circuit.now ≡ renumbered circuit.now) }
{
    circuit.every_circuit_is_a_netlist();
    if circuit.has_least_numbers() {
        return Ok(None);
    }
    Ok(Some(renumbered_by_place(alloc, circuit)?))
}

/// The copy of a circuit, or where there is none the circuit itself.
pub(crate) fn copy_or<'c>(copy: &'c Option<Circuit>, circuit: &'c Circuit) -> &'c Circuit
    ensures { result.now ≡ copy_or copy.now circuit.now }
{
    match copy {
        Some(copy) => copy,
        None => circuit,
    }
}

// The same, however the variables are numbered.
#[inline(never)]
fn renumbered_by_place(alloc: Global, circuit: &Circuit) -> Result<Circuit, Memory>
    requires { IsComplete circuit.now }
    ensures { IfOk result (λ copy. copy ≡ renumbered circuit.now) }
{
    circuit.every_circuit_is_a_netlist();
    let known = known_variables(alloc, circuit)?;
    // The constant's place is 0, so that the last place is the largest number.
    let mut copy = Circuit::new(alloc, known.len() as u64 - 1);
    copy_inputs(circuit, &known, &mut copy)?;
    copy_gates(circuit, &known, &mut copy)?;
    copy_outputs(circuit, &known, &mut copy)?;
    Ok(copy)
}
