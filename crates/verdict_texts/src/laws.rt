//! What the checker says of what is written. A law is the contract of a function without
//! parameters.

ghost use Rattle.verdict_texts.specs.Accepted.{ProvedCircuitsAreAccepted, RefutationsAreAccepted, ShortTextsAreWithinLimits, SmallLogsAreWithinLimits};

use ordered_gates::laws::{
    ordered_files_are_binary, ordered_lines_are_numbered, ordered_proofs_stand,
};
use proof_deletions::laws::{
    changed_lines_delete_alike, deletions_are_allowed, deletions_change_no_fault,
};

/// The checker accepts a circuit with its proof, in any form.
pub fn proved_circuits_are_accepted()
    ensures { ProvedCircuitsAreAccepted }
{
    aiger_text::laws::canonical_text_spells();
    aig_binary::laws::binary_text_spells();
    aig_binary::laws::binary_circuit_or_first_fault();
    cert_text::laws::canonical_proof_spells();
    ordered_proofs_stand();
    ordered_lines_are_numbered();
    ordered_files_are_binary();
    deletions_change_no_fault();
    deletions_are_allowed();
}

/// The checker accepts a refutation, in any form.
pub fn refutations_are_accepted()
    ensures { RefutationsAreAccepted }
{
    cert_text::laws::canonical_text_spells();
    deletions_change_no_fault();
    deletions_are_allowed();
    changed_lines_delete_alike();
}

/// Where the log has at most 400,000,000 entries, a circuit and its proof are within the formats'
/// limits, also with deletions.
pub fn small_logs_are_within_limits()
    ensures { SmallLogsAreWithinLimits }
{
    deletions_are_allowed();
}

/// Where a text has at most 1,000,000,000 bytes, a circuit with sorted gates and its proof, which it
/// holds, are within the formats' limits.
pub fn short_texts_are_within_limits()
    ensures { ShortTextsAreWithinLimits }
{}
