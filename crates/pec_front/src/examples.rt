//! The definitions of a design, held against designs with one box.
//!
//! A definition can't be run; these theorems show that it says what it is to say.
ghost use Rattle.std.specs.Prelude.{◌≡◌, [], ◌∷◌};
ghost use Rattle.pec_front.specs.Boxes.{BoxesFit, IsLawfulDesign, StandInOrder};
ghost use Rattle.pec_front.specs.Encoding.{design_formula, design_universals, driven_existential};
ghost use Rattle.pec_front.specs.Examples.{design, expected_matrix, implementation, negation, reading_both, reading_itself};

/// A box that reads both inputs: the design meets all that is asked of one, and its formula is the
/// one that is expected.
pub fn box_that_reads_both_inputs()
    ensures lawful { IsLawfulDesign (design reading_both) }
    ensures matrix { (design_formula (design reading_both)).matrix ≡ expected_matrix }
    ensures variables { (design_formula (design reading_both)).variables ≡ 9 }
    ensures universals { design_universals (design reading_both) ≡ 1 ∷ 2 ∷ 3 ∷ 4 ∷ [] }
    ensures driven { driven_existential (design reading_both) 2 ≡ record { variable = 5; sees = 3 ∷ 4 ∷ [] } }
{}

/// A box that reads what it drives stands in no order, and with the negation it fits whatever the
/// specification is, since no valuation fills it: that boxes fit says what it should where they
/// stand in order.
pub fn box_that_reads_itself()
    ensures unordered { StandInOrder implementation (reading_itself ∷ []) → ⊥ }
    ensures fits { BoxesFit (design reading_itself) negation }
{}
