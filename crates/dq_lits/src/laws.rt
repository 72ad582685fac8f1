//! What the definitions of `specs/` prove about one another.
//!
//! Each law is the contract of a function without parameters and with an empty body: it holds of
//! all formulas, assignments and proofs that it names, and a caller that needs it calls the
//! function.

ghost use Rattle.std.specs.Prelude.{◌≡◌, ℕ, Bool, true, List};
ghost use Rattle.std.specs.List.{All};
ghost use Rattle.dq_lits.specs.Literal.{Assignment, Literal, clause_true};
ghost use Rattle.dq_lits.specs.Formula.{Existential, Dqbf, HasLawfulPrefix, IsWellFormed};
ghost use Rattle.dq_lits.specs.Henkin.{HenkinChoice, restriction, choice_value, Follows, IsTrueFormula, IsFalseFormula};
ghost use Rattle.dq_lits.specs.Skolem.{OutputFunction, AreSkolemFunctions};
ghost use Rattle.dq_lits.specs.Expansion.{instance_at, IsExpansionUnsatisfiable};
ghost use Rattle.dq_lits.specs.Derivation.{LiveClauses, MakesTrue, IsDerived, ProofStep, Derives};

/// Henkin choices are all the families of functions over the dependency sets.
pub fn functions_are_choices()
    ensures { (values : Existential → List Bool → Bool)
        → (choice : HenkinChoice)
        × ((y : Existential) (m : Assignment)
        → choice_value choice y m ≡ values y (restriction y m)) }
{}

/// Whatever the universals are, the existentials can follow a choice; so the meaning of a formula
/// speaks of every row of the universals.
pub fn choices_extend_every_row()
    ensures { (f : Dqbf) (choice : HenkinChoice) (m : Assignment) → HasLawfulPrefix f
        → (n : Assignment) × All (λ x. n x ≡ m x) f.universals × Follows f choice n }
{}

/// No formula is both true and false.
pub fn no_formula_is_both()
    ensures { (f : Dqbf) → IsTrueFormula f → IsFalseFormula f → ⊥ }
{}

/// Skolem functions show that a formula is true.
pub fn skolem_functions_show_true()
    ensures { (f : Dqbf) (output : Existential → OutputFunction) → AreSkolemFunctions f output
        → IsTrueFormula f }
{}

/// A true formula has Skolem functions.
pub fn true_formulas_have_skolem_functions()
    ensures { (f : Dqbf) → IsTrueFormula f
        → (output : Existential → OutputFunction) × AreSkolemFunctions f output }
{}

/// Lifting: an unsatisfiable expansion shows that a formula is false.
pub fn expansion_lifts()
    ensures { (f : Dqbf) (rows : List (List Bool)) → IsWellFormed f
        → IsExpansionUnsatisfiable f rows → IsFalseFormula f }
{}

/// A derived line is true in every assignment that makes the clauses true.
pub fn derived_line_is_implied()
    ensures { (live : LiveClauses) (literals : List Literal) (hints : List ℕ)
        → IsDerived live literals hints
        → (m : Assignment) → MakesTrue m live → clause_true m literals ≡ true }
{}

/// Clauses from which the empty clause is derived are never all true.
pub fn derivation_is_sound()
    ensures { (live : LiveClauses) (steps : List ProofStep) → Derives live steps → (m : Assignment)
        → MakesTrue m live → ⊥ }
{}

/// A derivation from the instances under some rows shows that their expansion is unsatisfiable.
pub fn derivation_refutes_expansion()
    ensures { (f : Dqbf) (rows : List (List Bool)) (steps : List ProofStep)
        → Derives (instance_at f rows) steps
        → IsExpansionUnsatisfiable f rows }
{}
