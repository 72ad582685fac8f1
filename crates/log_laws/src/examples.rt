//! The definitions of a log, held against logs of small formulas.
//!
//! A definition can't be run; these theorems show that it says what it is to say.

ghost use Rattle.dq_lits.specs.Formula.{IsWellFormed};
ghost use Rattle.dq_lits.specs.Henkin.{IsTrueFormula, IsFalseFormula};
ghost use Rattle.hint_log.specs.Conditions.{AreLogged};
ghost use Rattle.hint_log.specs.Deciding.{KeepsSelectors, DecidesFalse, DecidesTrue, IsUndecided};
ghost use Rattle.hint_log.specs.ProductiveLog.{IsProductiveLog};
ghost use Rattle.log_laws.specs.Examples.{MissesAlone, matching_origins, derived_lemmas, new_lemmas, new_rows, followed_models, single_givens, blind_negation, tried_once, refuted, true_clause_given, hint_missing, known_clause_learned, row_tried_again, instances_ignored, instance_given_twice, seen_conjunction, faults_given, shown, second_output, second_turn_at_once};
ghost use Rattle.log_laws.specs.Meaning.{HasAnswer};

use crate::laws::{decided_false_is_false, decided_true_is_true};
use dq_lits::laws::no_formula_is_both;

/// A log that decides that a formula is false, and not that it is true. After its first row nothing
/// is decided.
pub fn false_formula_is_refuted()
    ensures well_formed { IsWellFormed blind_negation }
    ensures logged { AreLogged refuted }
    ensures productive { IsProductiveLog blind_negation refuted }
    ensures keeps_selectors { KeepsSelectors refuted }
    ensures begun { IsProductiveLog blind_negation tried_once }
    ensures undecided { IsUndecided blind_negation tried_once }
    ensures decided { HasAnswer DecidesFalse refuted }
    ensures is_false { IsFalseFormula blind_negation }
    ensures not_true { HasAnswer (DecidesTrue blind_negation) refuted → ⊥ }
{
    decided_false_is_false();
    decided_true_is_true();
    no_formula_is_both();
}

/// A log that decides that a formula is true, and not that it is false. With the faults alone
/// nothing is decided.
pub fn true_formula_is_shown()
    ensures well_formed { IsWellFormed seen_conjunction }
    ensures logged { AreLogged shown }
    ensures productive { IsProductiveLog seen_conjunction shown }
    ensures keeps_selectors { KeepsSelectors shown }
    ensures undecided { IsUndecided seen_conjunction faults_given }
    ensures decided { HasAnswer (DecidesTrue seen_conjunction) shown }
    ensures is_true { IsTrueFormula seen_conjunction }
    ensures not_false { HasAnswer DecidesFalse shown → ⊥ }
{
    decided_false_is_false();
    decided_true_is_true();
    no_formula_is_both();
}

/// Each point of a productive log is missed by a log that meets all others.
pub fn each_point_can_be_missed_alone()
    ensures origins { MissesAlone blind_negation true_clause_given matching_origins }
    ensures derivations { MissesAlone blind_negation hint_missing derived_lemmas }
    ensures lemmas { MissesAlone blind_negation known_clause_learned new_lemmas }
    ensures rows { MissesAlone blind_negation row_tried_again new_rows }
    ensures models { MissesAlone blind_negation instances_ignored followed_models }
    ensures repeats { MissesAlone blind_negation instance_given_twice single_givens }
{}

/// An existential with two outputs in one group misses the first point, and a second turn of faults
/// before any round the last.
pub fn turns_have_one_output_and_a_round()
    ensures second_output { MissesAlone seen_conjunction second_output matching_origins }
    ensures second_turn { MissesAlone seen_conjunction second_turn_at_once single_givens }
{}
