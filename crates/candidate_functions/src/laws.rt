//! What definitions say of an expansion's models. Each law is the contract of a function without
//! parameters.

ghost use Rattle.candidate_functions.specs.AtRow.{DefinedNeedNoArbiter, EveryRowHasValues};

/// A defined variable needs no arbiter: at the pairs of a row whose instances hold, it has its
/// definition's bit.
pub fn defined_variables_need_no_arbiter()
    ensures { DefinedNeedNoArbiter }
{}

/// Every row and every model of its pairs give all variables values.
pub fn rows_and_pairs_give_values()
    ensures { EveryRowHasValues }
{}
