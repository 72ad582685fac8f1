//! Gates whose bytes come in pieces, wherever these are cut.

ghost use Rattle.std.specs.Prelude.{◌≡◌, ◌+◌, ◌<◌, ◌++◌, true, false, OnOk, IfOk};
ghost use Rattle.aiger_text.specs.ReaderState.{IsSmall};
ghost use Rattle.aig_binary.specs.MoreGates.{waits, AreGatesSoFar, AreMoreGates, AreTaken, IsBehind, IsWaiting};

use crate::deltas::Deltas;
use crate::gates::next_gate;
use aiger_text::{AagFault, Header, LineStop};
use circuit_plain::Circuit;
use dq_lits::Memory;
use std::alloc::Global;

// Whether this is said because the bytes end.
fn waits(name: AagFault) -> bool
    ensures { result ≡ waits name }
{
    match name {
        AagFault::Truncated => true,
        _ => false,
    }
}

// Adds the gates that the bytes hold whole: whether all came.
fn take_whole_gates(
    circuit: &mut Circuit,
    header: Header,
    deltas: &mut Deltas,
) -> Result<bool, LineStop>
    requires small { IsSmall header }
    requires all_defined { header.max_var ≡ header.inputs + header.gates }
    requires so_far { AreGatesSoFar header circuit.old }
    ensures gates { AreMoreGates header circuit.old deltas.old result circuit.new deltas.new }
    ensures so_far { AreGatesSoFar header circuit.new }
    ensures behind { OnOk result
        (IsBehind header circuit.old deltas.old circuit.new deltas.new) }
{
    while (circuit.gates() as u64) < header.gates {
        let rest = deltas.rest();
        let variable = header.inputs + 1 + circuit.gates() as u64;
        match next_gate(deltas, variable) {
            Ok(gate) => circuit.add_gate(2 * gate.variable, gate.left, gate.right)?,
            Err(name) => {
                if !waits(name) {
                    return Err(LineStop::Fault(name));
                }
                *deltas = Deltas::new(rest);
                return Ok(false);
            }
        }
    }
    Ok(true)
}

/// Adds the gates that come whole with these bytes, behind those that wait for theirs: where all
/// came, how many bytes stand behind them.
pub fn take_gate_bytes(
    alloc: Global,
    circuit: &mut Circuit,
    header: Header,
    pending: &mut Vec<u8>,
    bytes: &[u8],
) -> Result<Option<usize>, LineStop>
    requires small { IsSmall header }
    requires all_defined { header.max_var ≡ header.inputs + header.gates }
    requires so_far { AreGatesSoFar header circuit.old }
    requires waiting { IsWaiting header circuit.old pending.old.items }
    ensures taken { AreTaken header circuit.old pending.old.items bytes.now result circuit.new
        pending.new.items }
    ensures so_far { AreGatesSoFar header circuit.new }
{
    extend(pending, bytes)?;
    let mut deltas = Deltas::new(pending);
    match take_whole_gates(circuit, header, &mut deltas) {
        Ok(true) => Ok(Some(deltas.rest().len())),
        Ok(false) => {
            let rest = copied(alloc, deltas.rest())?;
            *pending = rest;
            Ok(None)
        }
        Err(stop) => Err(stop),
    }
}

fn extend(pending: &mut Vec<u8>, bytes: &[u8]) -> Result<(), Memory>
    ensures { OnOk result (pending.new.items ≡ pending.old.items ++ bytes.now) }
{
    pending.extend_from_slice(bytes)?;
    Ok(())
}

fn copied(alloc: Global, bytes: &[u8]) -> Result<Vec<u8>, Memory>
    ensures { IfOk result (λ copy. copy.items ≡ bytes.now) }
{
    Ok(Vec::from_slice(alloc, bytes)?)
}
