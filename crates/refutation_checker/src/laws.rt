//! What a refutation without a fault shows. Each law is the contract of a function that does
//! nothing: who calls it may use what it ensures.

ghost use Rattle.std.specs.Prelude.{◌≡◌, ◌≤◌, ◌<◌, ◌+◌, ◌*◌, ◌↔◌, ◌⊎◌, ℕ, Bool, true, List, [], length, None, Some, slice_index_or};
ghost use Rattle.dq_lits.specs.Expansion.{agree_on, pair_number, instance_at, instance_clause};
ghost use Rattle.dq_lits.specs.Formula.{Existential, Dqbf, existential_of, IsWellFormed};
ghost use Rattle.dq_lits.specs.Henkin.{IsFalseFormula};
ghost use Rattle.cert_text.specs.declared.refutations.Dqr.{Dqr};
ghost use Rattle.refutation_checker.specs.Rows.{row_of};
ghost use Rattle.refutation_checker.specs.Refutation.{normal_number, refutation_fault};

use dq_lits::laws::expansion_lifts;
use rup_core::laws::deleting_derivation_is_sound;

/// A refutation without a fault shows that the formula is false: no choice of functions solves it.
pub fn refutation_shows_false()
    ensures { (f : Dqbf) (d : Dqr) → IsWellFormed f → refutation_fault f d ≡ None
        → IsFalseFormula f }
{
    deleting_derivation_is_sound();
    expansion_lifts();
}

/// A line may name a pair by any row: the number of an existential by a row stands for their pair,
/// and two such numbers stand for one pair exactly where the rows agree on what the existential
/// sees.
pub fn pairs_go_by_any_row()
    ensures own { (f : Dqbf) (rows : List (List Bool)) (k : ℕ) (y : Existential) → 1 ≤ y.variable
        → y.variable ≤ f.variables
        → k < length rows → existential_of f y.variable ≡ Some y
        → normal_number f rows (k * f.variables + y.variable)
        ≡ pair_number f rows (row_of rows k) y }
    ensures same { (f : Dqbf) (rows : List (List Bool)) (j k : ℕ) (y : Existential) → 1 ≤ y.variable
        → y.variable ≤ f.variables
        → j < length rows → k < length rows → existential_of f y.variable ≡ Some y
        → (normal_number f rows (j * f.variables + y.variable)
        ≡ normal_number f rows (k * f.variables + y.variable))
        ↔ (agree_on f y (row_of rows j) (row_of rows k) ≡ true) }
{}

/// With C clauses, the clause at place j under the row at place k has the id k * C + j + 1, and no
/// other id is an instance's.
pub fn instances_go_by_row_and_clause()
    ensures own { (f : Dqbf) (rows : List (List Bool)) (k j : ℕ) → k < length rows
        → j < length f.matrix
        → instance_at f rows (k * length f.matrix + j + 1)
        ≡ instance_clause f rows (row_of rows k) (slice_index_or f.matrix j []) }
    ensures none { (f : Dqbf) (rows : List (List Bool)) (id : ℕ)
        → (id ≡ 0) ⊎ (length rows * length f.matrix < id)
        → instance_at f rows id ≡ None }
{}
