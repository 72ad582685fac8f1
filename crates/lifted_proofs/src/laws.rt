//! What settled circuits keep. A law is the contract of a function without parameters and with an
//! empty body.

ghost use Rattle.lifted_proofs.specs.Laws.{SettledFilesAreSpellable};

/// A text can hold a circuit whose outputs are settled where it can hold the circuit.
pub fn settled_files_are_spellable()
    ensures { SettledFilesAreSpellable }
{}
