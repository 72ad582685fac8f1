//! What the definitions of `specs/` prove about one another. Each law is the contract of a function
//! without parameters, which does nothing.

ghost use Rattle.definition_search.specs.Texts.{TextsOfDefinitionsAreAccepted};

use cert_text::laws::written_definitions_are_read;

/// A text of definitions is accepted by whoever checks it, with the counts of its blocks.
pub fn texts_of_definitions_are_accepted()
    ensures { TextsOfDefinitionsAreAccepted }
{
    written_definitions_are_read();
}
