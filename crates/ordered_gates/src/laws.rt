//! What ordered gates keep. A law is the contract of a function without parameters and with an empty
//! body.

ghost use Rattle.ordered_gates.specs.Laws.{OrderedProofsStand, OrderedLinesAreNumbered, OrderedFilesAreBinary};

/// A circuit with a proof that shows it is one with its gates ordered, and a text can hold the proof.
pub fn ordered_proofs_stand()
    ensures { OrderedProofsStand }
{}

/// Lines keep their numbers.
pub fn ordered_lines_are_numbered()
    ensures { OrderedLinesAreNumbered }
{}

/// The binary form can hold the ordered circuit where its gates are sorted.
pub fn ordered_files_are_binary()
    ensures { OrderedFilesAreBinary }
{}
