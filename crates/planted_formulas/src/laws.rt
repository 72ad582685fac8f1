//! What holds of the formulas. A law is the contract of a function without parameters: who calls it
//! may use what it ensures.

ghost use Rattle.std.specs.Prelude.{ℕ, ◌≤◌};
ghost use Rattle.dq_lits.specs.Formula.{IsWellFormed};
ghost use Rattle.dq_lits.specs.Henkin.{IsTrueFormula};
ghost use Rattle.planted_formulas.specs.Planted.{planted_formula};

/// A planted formula is true: by the functions that are planted in it.
pub fn planted_formulas_are_true()
    ensures { (seed size : ℕ) → 1 ≤ size → IsTrueFormula (planted_formula seed size) }
{
    dq_lits::laws::skolem_functions_show_true();
}
