//! The gates of the binary part.

ghost use Rattle.std.specs.Prelude.{◌≡◌, ◌+◌, ◌*◌, ◌<◌, ◌≤◌, [], length, Ok, Err, IfOk, OnOk, MatchResult};
ghost use Rattle.aiger_text.specs.ReaderState.{IsSmall};
ghost use Rattle.aig_binary.specs.BareReading.{AreNumbered};
ghost use Rattle.aig_binary.specs.Gates.{lowered, first_side, read_gate, read_gates};
ghost use Rattle.aig_binary.specs.Steps.{IsGateless, AreGatesOf};

use crate::deltas::Deltas;
use aiger_text::{AagFault, Header, LineStop};
use circuit_plain::{Circuit, Gate};

// A literal less a difference.
fn lowered(literal: u64, delta: u64) -> Result<u64, AagFault>
    ensures lowered { result ≡ lowered literal delta }
    ensures less { IfOk result (λ side. side ≤ literal) }
{
    if literal < delta {
        return Err(AagFault::BadDelta);
    }
    Ok(literal - delta)
}

// The first right side of a gate with this literal.
fn first_side(literal: u64, delta: u64) -> Result<u64, AagFault>
    ensures side { result ≡ first_side literal delta }
    ensures less { IfOk result (λ side. side < literal) }
{
    if delta == 0 {
        return Err(AagFault::BadDelta);
    }
    lowered(literal, delta)
}

/// The gate of a variable.
pub(crate) fn next_gate(deltas: &mut Deltas, variable: u64) -> Result<Gate, AagFault>
    requires { variable ≤ 1000000000 }
    ensures read { MatchResult result
        (λ g. read_gate variable deltas.old ≡ Ok (g, deltas.new))
        (λ name. read_gate variable deltas.old ≡ Err name) }
    ensures variable { IfOk result (λ g. g.variable ≡ variable) }
    ensures left { IfOk result (λ g. g.left < 2 * variable) }
    ensures right { IfOk result (λ g. g.right ≤ g.left) }
    ensures shorter { length deltas.new ≤ length deltas.old }
{
    let first = deltas.next()?;
    let left = first_side(2 * variable, first)?;
    let second = deltas.next()?;
    let right = lowered(left, second)?;
    Ok(Gate {
        variable,
        left,
        right,
    })
}

/// Adds the gates that the header states, of the variables behind the inputs.
pub fn take_gates(
    circuit: &mut Circuit,
    header: Header,
    deltas: &mut Deltas,
) -> Result<(), LineStop>
    requires small { IsSmall header }
    requires all_defined { header.max_var ≡ header.inputs + header.gates }
    requires gateless { IsGateless header circuit.old }
    ensures gates { AreGatesOf
        (read_gates header.gates (header.inputs + 1) circuit.old deltas.old) result circuit.new
        deltas.new }
    ensures numbered { OnOk result (AreNumbered (header.inputs + 1) circuit.new.gates) }
    ensures no_inputs { circuit.new.inputs ≡ [] }
    ensures max_var { circuit.new.max_var ≡ circuit.old.max_var }
    ensures shorter { length deltas.new ≤ length deltas.old }
{
    for i in 0..header.gates {
        let gate = next_gate(deltas, header.inputs + 1 + i)?;
        circuit.add_gate(2 * gate.variable, gate.left, gate.right)?;
    }
    Ok(())
}
