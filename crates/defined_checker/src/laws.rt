//! What accepted blocks say. A law is the contract of a function without parameters.

ghost use Rattle.defined_checker.specs.Forced.{AcceptedDefinitionsAreForced, AcceptedPairsAreFree, AcceptedTextsAreRight, TextsAreJudgedOnce};

use proof_checker::laws::circuit_clauses_hold;
use rup_core::laws::{deleting_derivation_is_sound, lines_alone};

/// An accepted definition has the existential's value wherever the matrix is true, and depends only on
/// what a definition of the existential may read.
pub fn accepted_definitions_are_forced()
    ensures { AcceptedDefinitionsAreForced }
{
    circuit_clauses_hold();
    deleting_derivation_is_sound();
    lines_alone();
}

/// Where a pair is accepted, no function of what a definition may read is the existential's value
/// wherever the matrix is true.
pub fn accepted_pairs_are_free()
    ensures { AcceptedPairsAreFree }
{}

/// What an accepted text says of each existential is right.
pub fn accepted_texts_are_right()
    ensures { AcceptedTextsAreRight }
{
    accepted_definitions_are_forced();
    accepted_pairs_are_free();
}

/// A text is judged in one way, if there is memory for it.
pub fn texts_are_judged_once()
    ensures { TextsAreJudgedOnce }
{}
