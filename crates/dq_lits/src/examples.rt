//! The definitions of `specs/`, held against formulas whose truth is known.
//!
//! A definition can't be run; these theorems show on small formulas that it says what it is to say.

ghost use Rattle.std.specs.Prelude.{◌≡◌, true, false, [], ◌∷◌, Some, None};
ghost use Rattle.dq_lits.specs.Literal.{positive, negative};
ghost use Rattle.dq_lits.specs.Formula.{IsWellFormed};
ghost use Rattle.dq_lits.specs.Henkin.{IsTrueFormula, IsFalseFormula};
ghost use Rattle.dq_lits.specs.Skolem.{AreSkolemFunctions};
ghost use Rattle.dq_lits.specs.Expansion.{instance_at};
ghost use Rattle.dq_lits.specs.Derivation.{Derives, proof_fault, underived, unfinished};
ghost use Rattle.dq_lits.specs.Examples.{two_copies, blind_copy, split_conjunction, literal_output, roundabout_output, outputs_with, step, row, four_rows};

/// Copies of universals that are seen: true, by the inputs themselves. An output that reads a
/// foreign universal is refused, also where its value is right, and so is one whose value is wrong.
pub fn copies_have_skolem_functions()
    ensures well_formed { IsWellFormed two_copies }
    ensures inputs { AreSkolemFunctions two_copies (outputs_with (literal_output (positive 1) 1)) }
    ensures is_true { IsTrueFormula two_copies }
    ensures foreign_value { AreSkolemFunctions two_copies
        (outputs_with (literal_output (positive 2) 2)) → ⊥ }
    ensures foreign_read { AreSkolemFunctions two_copies (outputs_with roundabout_output) → ⊥ }
    ensures wrong_value { AreSkolemFunctions two_copies
        (outputs_with (literal_output (negative 1) 1)) → ⊥ }
{}

/// A copy of a universal that isn't seen: false, by the two rows that differ there alone. The
/// derivation fails with a hint that has no clause, under rows that the existential tells apart,
/// and without a last empty line.
pub fn blind_copy_is_false()
    ensures well_formed { IsWellFormed blind_copy }
    ensures is_false { IsFalseFormula blind_copy }
    ensures derived { Derives (instance_at blind_copy (row false false ∷ row false true ∷ []))
        (step 5 [] (2 ∷ 3 ∷ []) ∷ []) }
    ensures no_clause { proof_fault (instance_at blind_copy (row false false ∷ row false true ∷ []))
        (step 5 [] (2 ∷ 4 ∷ []) ∷ [])
        ≡ Some (underived 5) }
    ensures apart { proof_fault (instance_at blind_copy (row false false ∷ row true true ∷ []))
        (step 5 [] (2 ∷ 3 ∷ []) ∷ [])
        ≡ Some (underived 5) }
    ensures no_end { proof_fault (instance_at blind_copy (row false false ∷ row false true ∷ [])) []
        ≡ Some unfinished }
{}

/// Two halves that each see one input can't agree on a conjunction: false, by a derivation of two
/// lines from the instances under all four rows.
pub fn split_conjunction_is_false()
    ensures well_formed { IsWellFormed split_conjunction }
    ensures third { instance_at split_conjunction four_rows 3
        ≡ Some (negative 3 ∷ positive 4 ∷ []) }
    ensures eleventh { instance_at split_conjunction four_rows 11
        ≡ Some (negative 7 ∷ positive 4 ∷ []) }
    ensures fifteenth { instance_at split_conjunction four_rows 15
        ≡ Some (negative 3 ∷ positive 12 ∷ []) }
    ensures nineteenth { instance_at split_conjunction four_rows 19
        ≡ Some (positive 7 ∷ positive 12 ∷ []) }
    ensures absent { instance_at split_conjunction four_rows 9 ≡ None }
    ensures derived { Derives (instance_at split_conjunction four_rows)
        (step 25 (negative 3 ∷ []) (15 ∷ 3 ∷ 12 ∷ 20 ∷ []) ∷ step 26 [] (25 ∷ 16 ∷ 4 ∷ 11 ∷ 19 ∷ [])
        ∷ []) }
    ensures is_false { IsFalseFormula split_conjunction }
{}
