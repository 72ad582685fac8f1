//! What simplification keeps, and how derivations are carried over from what is left.

ghost use Rattle.dq_prep.specs.Laws.{SimplificationKeepsChoices, SimplifiedFormulasAreWellFormed};
ghost use Rattle.dq_prep.specs.LoweredRows.{LoweredRowsServe};
ghost use Rattle.dq_prep.specs.Lifted.{FalsifyingDerives, LinesAreCarried};

use dq_lits::laws::choices_extend_every_row;

/// The same choices solve a formula and what is left of it.
pub fn simplification_keeps_choices()
    ensures { SimplificationKeepsChoices }
{
    choices_extend_every_row();
}

/// What is left of a well-formed formula is well formed.
pub fn simplified_formulas_are_well_formed()
    ensures { SimplifiedFormulasAreWellFormed }
{}

/// A derived line stays derived where the clauses that it hints at have other ids, but for those with
/// a literal beside its negation, at which no line can hint.
pub fn lines_are_carried()
    ensures { LinesAreCarried }
{}

/// A clause without its false literals is derived by the units that made them false.
pub fn falsifying_derives()
    ensures { FalsifyingDerives }
{}

/// What is left of a clause under a row is what the clause is under a row with the universal literals
/// false that reduction took.
pub fn lowered_rows_serve()
    ensures { LoweredRowsServe }
{}
