//! What the definitions of this crate give. A law is the contract of a function without parameters:
//! who calls it may use what it ensures.

ghost use Rattle.std.specs.Prelude.{◌≡◌, ℕ, List};
ghost use Rattle.defined_checker.specs.declared.checks.DefinedCounts.{DefinedCounts};
ghost use Rattle.dq_lits.specs.Formula.{Dqbf, IsWellFormed};
ghost use Rattle.dq_lits.specs.Henkin.{IsTrueFormula, IsFalseFormula};
ghost use Rattle.cert_judge.specs.Judgement.{IsJudgement, HoldsSkolemCircuit, HoldsRightDefinitions};
ghost use Rattle.cert_judge.specs.declared.answers.Judgement.{Judgement};
ghost use Rattle.cert_judge.specs.declared.answers.Judgement.TheVariants.{ValidTrue, ValidFalse, ValidDefinitions};

use aig_binary::laws::{binary_circuit_or_first_fault, binary_circuits_are_lawful};
use aiger_text::laws::circuit_or_first_fault;
use cert_text::laws::definitions_or_first_fault;
use defined_checker::laws::{accepted_texts_are_right, texts_are_judged_once};
use proof_checker::laws::proved_circuit_is_skolem;
use refutation_checker::laws::refutation_shows_false;
use skolem_checker::laws::{skolem_circuit_shows_true, tested_circuit_is_skolem};

/// Only one thing is to be said of a certificate.
pub fn one_judgement()
    ensures { (f : Dqbf) (text : List ℕ) (a b : Judgement) → IsJudgement f text a
        → IsJudgement f text b → a ≡ b }
{
    circuit_or_first_fault();
    texts_are_judged_once();
}

/// An accepted certificate proves the verdict that is said of it, or what it says of each existential
/// is right.
pub fn acceptance_is_sound()
    ensures is_true { (f : Dqbf) (text : List ℕ) → IsWellFormed f → IsJudgement f text ValidTrue
        → IsTrueFormula f }
    ensures circuit { (f : Dqbf) (text : List ℕ) → IsWellFormed f → IsJudgement f text ValidTrue
        → HoldsSkolemCircuit f text }
    ensures is_false { (f : Dqbf) (text : List ℕ) → IsWellFormed f → IsJudgement f text ValidFalse
        → IsFalseFormula f }
    ensures definitions { (f : Dqbf) (text : List ℕ) (counts : DefinedCounts) → IsWellFormed f
        → IsJudgement f text (ValidDefinitions counts) → HoldsRightDefinitions f text counts }
{
    binary_circuit_or_first_fault();
    binary_circuits_are_lawful();
    refutation_shows_false();
    proved_circuit_is_skolem();
    tested_circuit_is_skolem();
    skolem_circuit_shows_true();
    definitions_or_first_fault();
    accepted_texts_are_right();
}
