//! What is exported of an answer that decides that a formula is true.

ghost use Rattle.std.specs.Prelude.{◌≤◌, length, IfOk};
ghost use Rattle.hint_log.specs.Entries.{count};
ghost use Rattle.cert_export.specs.CircuitPart.{AreGatesInOrder};
ghost use Rattle.cert_export.specs.ExportedCircuit.{IsExportedPart, is_gate_name};
ghost use Rattle.cert_export.specs.Parts.{part_of, AreDecided};

use crate::gates::needed_gates;
use crate::leaves::{Leaves, fault_group, fault_leaves};
use dq_formula::Formula;
use dq_lits::Memory;
use hint_log::Log;
use number_tables::NumberSet;
use std::alloc::Global;

/// The group of the faults that the answer reaches, the leaves of the existentials in them, and the
/// gates that these leaves and the proof rest on.
#[derive(Drop)]
pub(crate) struct ExportedPart {
    pub(crate) group: u64,
    pub(crate) gates: NumberSet,
    pub(crate) leaves: Leaves,
}

/// What is exported of an answer, by the ids that it reaches.
pub(crate) fn exported_part(
    alloc: Global,
    log: &Log,
    id: u64,
    ids: &[u64],
    f: &Formula,
) -> Result<ExportedPart, Memory>
    requires { AreDecided f.now log.now.entries id ids.now }
    ensures part { IfOk result (λ part. IsExportedPart f.now log.now.entries id (part_of part)) }
    ensures order { IfOk result (λ part. AreGatesInOrder log.now.entries part.gates) }
    ensures few { IfOk result (λ part. length part.gates ≤ count is_gate_name log.now.entries) }
{
    let group = fault_group(log, ids);
    let leaves = fault_leaves(alloc, log, ids, f)?;
    let gates = needed_gates(alloc, log, ids, &leaves)?;
    Ok(ExportedPart {
        group,
        gates,
        leaves,
    })
}
