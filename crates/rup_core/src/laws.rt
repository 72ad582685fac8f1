//! What the definitions of `specs/` prove about derivations that delete, and about the numbers of
//! variables. Each law is the contract of a function without parameters.

ghost use Rattle.std.specs.Prelude.{◌≡◌, ◌∷◌, ◌<◌, ℕ, Bool, true, false, List, map, is_none};
ghost use Rattle.std.specs.List.{All};
ghost use Rattle.dq_lits.specs.Literal.{Assignment, Literal};
ghost use Rattle.dq_lits.specs.Derivation.{LiveClauses, MakesTrue, ProofStep, line_fault, steps_fault, with_clause};
ghost use Rattle.rup_core.specs.Items.{ProofItem, derived, gone, items_fault, without_clauses, ItemsDerive, AreUnused};
ghost use Rattle.rup_core.specs.Runs.{Run, start, with_item, with_items, run_fault};
ghost use Rattle.rup_core.specs.Judging.{derive_line};
ghost use Rattle.rup_core.specs.Proving.{ProofState, ended, run_over, with_lines};
ghost use Rattle.rup_core.specs.Renaming.{KeepsApart, AreKnown, AreKnownHints, AreRenamed, renamed};

use dq_lits::laws::derived_line_is_implied;

/// Judged item by item, a derivation has the fault that its whole list has.
pub fn run_is_fault()
    ensures { (live : LiveClauses) (items : List ProofItem)
        → run_fault (with_items (start live) items) ≡ items_fault false live items }
{}

/// Without deletions a derivation has the fault of its lines.
pub fn lines_alone()
    ensures { (finished : Bool) (live : LiveClauses) (steps : List ProofStep)
        → items_fault finished live (map derived steps) ≡ steps_fault finished live steps }
{}

/// What is live stays implied: an assignment that makes all clauses true makes those true that are
/// live behind some items.
pub fn live_clauses_are_implied()
    ensures { (m : Assignment) (run : Run) (items : List ProofItem) → MakesTrue m run.live
        → MakesTrue m (with_items run items).live }
{
    derived_line_is_implied();
}

/// Clauses from which the empty clause is derived, with deletions, are never all true.
pub fn deleting_derivation_is_sound()
    ensures { (live : LiveClauses) (items : List ProofItem) → ItemsDerive live items
        → (m : Assignment) → MakesTrue m live → ⊥ }
{
    derived_line_is_implied();
}

/// Deleting ids that no later line hints changes no answer.
pub fn unused_ids_may_go()
    ensures { (finished : Bool) (live : LiveClauses) (ids : List ℕ) (items : List ProofItem)
        → AreUnused ids items
        → items_fault finished live (gone ids ∷ items) ≡ items_fault finished live items }
{}

/// A line's fault doesn't depend on the numbers of its variables, as long as they stay apart.
pub fn names_change_no_fault()
    ensures { (number : ℕ → ℕ) (known : ℕ → Bool) (live other : LiveClauses)
        (literals : List Literal) (hints : List ℕ)
        → KeepsApart number known → AreRenamed number live other → AreKnown known literals
        → AreKnownHints known live hints
        → line_fault other (renamed number literals) hints ≡ line_fault live literals hints }
{}

/// Clauses stay renamed, as lines are derived and deleted.
pub fn items_keep_names()
    ensures derived { (number : ℕ → ℕ) (live other : LiveClauses) (id : ℕ) (clause : List Literal)
        → AreRenamed number live other
        → AreRenamed number (with_clause live id clause)
        (with_clause other id (renamed number clause)) }
    ensures gone { (number : ℕ → ℕ) (live other : LiveClauses) (ids : List ℕ)
        → AreRenamed number live other
        → AreRenamed number (without_clauses live ids) (without_clauses other ids) }
{}

/// A clause of known variables has the same numbers, as more variables get one.
pub fn names_stay()
    ensures { (number later : ℕ → ℕ) (known : ℕ → Bool) (clause : List Literal)
        → ((v : ℕ) → known v ≡ true → later v ≡ number v)
        → AreKnown known clause
        → renamed later clause ≡ renamed number clause }
{}

/// A line that was judged hint by hint is an item of the run, whichever the base is, as long as the
/// hinted clauses were those of the base and of the lines held.
pub fn judged_line_is_item()
    ensures { (live : LiveClauses) (p : ProofState) (is_derived : Bool) (step : ProofStep)
        → All (λ line. line.0 < step.id) p.lines
        → is_derived ≡ derive_line step.literals (map (with_lines live p.lines) step.hints)
        → run_over live (ended is_derived step.id step.literals p)
        ≡ with_item (run_over live p) (derived step) }
{}

/// A line is derived by its hints where it is derived by the clauses that have their ids.
pub fn line_fault_by_clauses()
    ensures { (live : LiveClauses) (literals : List Literal) (hints : List ℕ)
        → is_none (line_fault live literals hints) ≡ derive_line literals (map live hints) }
{}
