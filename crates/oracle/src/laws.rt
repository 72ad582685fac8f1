//! What the answers of a search show. Each law is the contract of a function without parameters and
//! with an empty body.

ghost use Rattle.std.specs.Prelude.{◌≡◌, ◌∷◌, ℕ, true, List, Some};
ghost use Rattle.std.specs.List.{All};
ghost use Rattle.dq_lits.specs.Literal.{Assignment, Literal, positive, negative, literal_true};
ghost use Rattle.dq_lits.specs.Derivation.{holds};
ghost use Rattle.hint_log.specs.Conditions.{AreLogged};
ghost use Rattle.hint_log.specs.Deciding.{KeepsSelectors, ReachesGiven};
ghost use Rattle.hint_log.specs.declared.origins.Origin.{Origin};
ghost use Rattle.hint_log.specs.Entries.{ProofLog};
ghost use Rattle.hint_log.specs.Growth.{Each};
ghost use Rattle.hint_log.specs.Entries.{Entry};
ghost use Rattle.oracle.specs.Calls.{IsRefutedUnder};
ghost use Rattle.oracle.specs.Fit.{KeepsHintedSelectors};
ghost use Rattle.oracle.specs.Searched.{IsSearched, IsGivenToGroup, MakesActiveTrue};

use dq_lits::laws::derived_line_is_implied;

/// Where a search answered Unsat, no assignment makes the clauses of the active groups and the
/// assumptions true.
pub fn unsat_excludes_every_assignment()
    ensures { (old new : ProofLog) (assumptions : List Literal) (id : ℕ) → IsSearched new.entries
        → IsRefutedUnder old new assumptions id
        → (m : Assignment) → MakesActiveTrue m new.entries assumptions
        → All (λ l. literal_true m l ≡ true) assumptions → ⊥ }
{
    derived_line_is_implied();
}

/// Clauses that hold the selectors of the clauses that they hint hold the selectors of all that
/// they reach by hints.
pub fn selectors_are_kept_along_hints()
    ensures { (entries : List Entry) → AreLogged entries → Each IsGivenToGroup entries
        → Each KeepsHintedSelectors entries → KeepsSelectors entries }
{}

/// No answer blames an inactive group: each given clause that it rests on is of a group whose
/// selector is assumed.
pub fn unsat_blames_active_groups_alone()
    ensures { (old new : ProofLog) (assumptions : List Literal) (id : ℕ) → IsSearched new.entries
        → (refuted : IsRefutedUnder old new assumptions id) (origin : Origin) (group : ℕ)
        (rest : List Literal)
        → ReachesGiven refuted.before.entries refuted.hints origin (negative group ∷ rest)
        → holds assumptions (positive group) ≡ true }
{}
