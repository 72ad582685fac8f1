//! What joins the definitions of a run's contract. A law is the contract of a function without
//! parameters and with an empty body.

ghost use Rattle.std.specs.Prelude.{ℕ, List};
ghost use Rattle.dqsolve_core.specs.OneAnswer.{HaveOneAnswer};

use aiger_text::laws::circuit_or_first_fault;

/// The texts of two circuits have one first refusal, or make one design, and never both.
pub fn texts_have_one_answer()
    ensures { (spec imp : List ℕ) → HaveOneAnswer spec imp }
{
    circuit_or_first_fault();
}
