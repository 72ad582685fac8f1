//! The ids of a gate's clauses.

ghost use Rattle.std.specs.Prelude.{◌≡◌, OnOk, ◌++◌, map};
ghost use Rattle.ordered_gates.specs.Circuits.{turned_id};

use circuit_plain::Circuit;
use dq_lits::Memory;

/// The id that a clause of the negated matrix has where the gates are ordered. Ids behind the gates'
/// stay as they are.
pub(crate) fn turned_id(circuit: &Circuit, id: u64) -> u64
    ensures { result ≡ turned_id circuit.now.gates id }
{
    if id == 0 {
        return 0;
    }
    let place = (id - 1) / 3;
    if place >= circuit.gates() as u64 {
        return id;
    }
    let (_, left, right) = circuit.gate(place as usize);
    if left >= right {
        return id;
    }
    match (id - 1) % 3 {
        0 => id + 1,
        1 => id - 1,
        _ => id,
    }
}

/// Adds these ids as they are where the gates are ordered.
pub(crate) fn push_turned(
    circuit: &Circuit,
    ids: &[u64],
    turned: &mut Vec<u64>,
) -> Result<(), Memory>
    ensures { OnOk result
        (turned.new.items ≡ turned.old.items ++ map (turned_id circuit.now.gates) ids.now) }
{
    for id in ids {
        turned.push(turned_id(circuit, *id))?;
    }
    Ok(())
}
