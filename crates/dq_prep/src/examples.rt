//! The definitions of `specs/`, held against formulas of which it is known what is left.

ghost use Rattle.std.specs.Prelude.{◌≡◌, [], ◌∷◌};
ghost use Rattle.dq_lits.specs.Literal.{positive, negative};
ghost use Rattle.dq_prep.specs.Units.{AreUnits};
ghost use Rattle.dq_prep.specs.Simplified.{simplified_formula, IsExhausted};
ghost use Rattle.dq_prep.specs.Examples.{emptied, emptied_units, settled, settled_units, kept, kept_units};

/// Universal reduction makes a unit, which leaves a universal literal alone of the other clause, and
/// that goes as well: the unit and the empty clause are left. Before it the work isn't done.
pub fn unit_empties_a_clause()
    ensures units { AreUnits emptied emptied_units }
    ensures left { (simplified_formula emptied emptied_units).matrix
        ≡ (positive 3 ∷ []) ∷ [] ∷ [] }
    ensures exhausted { IsExhausted emptied emptied_units }
    ensures too_few { IsExhausted emptied [] → ⊥ }
{}

/// A unit satisfies the other clause: the unit alone is left.
pub fn unit_settles_the_rest()
    ensures units { AreUnits settled settled_units }
    ensures left { (simplified_formula settled settled_units).matrix ≡ (positive 2 ∷ []) ∷ [] }
    ensures exhausted { IsExhausted settled settled_units }
    ensures too_few { IsExhausted settled [] → ⊥ }
{}

/// Of two equal units the one that was taken is left; a universal literal that is seen stays, and so
/// does a clause with a literal and its negation, though no existential of it is left.
pub fn the_rest_stays()
    ensures units { AreUnits kept kept_units }
    ensures left { (simplified_formula kept kept_units).matrix
        ≡ (positive 3 ∷ []) ∷ (positive 2 ∷ positive 1 ∷ []) ∷ (positive 1 ∷ negative 1 ∷ [])
        ∷ [] }
    ensures exhausted { IsExhausted kept kept_units }
{}
