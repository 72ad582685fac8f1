//! The blocks of a text of definitions.

use crate::steps::StepList;
use circuit_plain::Gate;
use dq_lits::Row;

/// A definition of an existential, with its proof. Literals are those of AIGER, over the formula's
/// variables and those of the gates, which follow them.
#[derive(Drop)]
pub struct Definition {
    pub existential: u64,
    /// The output's literal.
    pub output: u64,
    pub gates: Vec<Gate>,
    /// The proof that the existential and the output differ nowhere.
    pub steps: StepList,
}

/// An assignment of the declared variables, which stand in order of declaration.
#[derive(Drop)]
pub struct Valuation {
    /// A bit for each universal.
    pub row: Row,
    /// A bit for each existential.
    pub values: Row,
}

/// Two assignments that show that an existential has no definition.
#[derive(Drop)]
pub struct FreePair {
    pub existential: u64,
    pub first: Valuation,
    pub second: Valuation,
}

/// What a text of definitions says of an existential.
#[derive(Drop)]
pub enum DefinitionBlock {
    Defined(Definition),
    Free(FreePair),
}
