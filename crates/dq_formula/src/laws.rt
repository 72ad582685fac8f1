//! What the clauses of an XOR line say.

ghost use Rattle.dq_formula.specs.Xor.{XorIsItsClauses};

/// Under every assignment the clauses of an XOR line are all true exactly where an odd number of its
/// literals is. The call does nothing: its contract is the law.
pub fn xor_clauses_are_exact()
    ensures { XorIsItsClauses }
{}
