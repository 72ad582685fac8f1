//! A formula that is written out.

ghost use Rattle.std.specs.Prelude.{◌≡◌, [], ◌∷◌};
ghost use Rattle.dq_lits.specs.Literal.{positive, negative};
ghost use Rattle.planted_formulas.specs.Planted.{planted_formula};
ghost use Rattle.planted_formulas.specs.Examples.{sees};

/// Three gates: 5 is the exclusive or of 3 and 4, 6 that of 4 and 1, and 7 is the conjunction of 3
/// and 4.
pub fn three_gates()
    ensures { planted_formula 1 3 ≡ record {
      variables = 7;
      universals = 1 ∷ 2 ∷ 3 ∷ 4 ∷ [];
      existentials = sees 5 3 4 ∷ sees 6 1 4 ∷ sees 7 3 4 ∷ [];
      matrix =
          (negative 5 ∷ positive 3 ∷ positive 4 ∷ []) ∷ (negative 5 ∷ negative 3 ∷ negative 4 ∷ [])
          ∷ (positive 5 ∷ negative 3 ∷ positive 4 ∷ [])
          ∷ (positive 5 ∷ positive 3 ∷ negative 4 ∷ [])
          ∷ (negative 6 ∷ positive 4 ∷ positive 1 ∷ [])
          ∷ (negative 6 ∷ negative 4 ∷ negative 1 ∷ [])
          ∷ (positive 6 ∷ negative 4 ∷ positive 1 ∷ [])
          ∷ (positive 6 ∷ positive 4 ∷ negative 1 ∷ [])
          ∷ (negative 7 ∷ positive 3 ∷ []) ∷ (negative 7 ∷ positive 4 ∷ [])
          ∷ (positive 7 ∷ negative 3 ∷ negative 4 ∷ []) ∷ [];
    } }
{}
