//! The negated matrix, held against a small formula with two circuits, and the grammar of definitions,
//! held against a small text.
//!
//! A definition can't be run; these theorems show that it says what it is to say.

ghost use Rattle.std.specs.Prelude.{◌≡◌, [], ◌∷◌, Some, None, map};
ghost use Rattle.dq_lits.specs.Literal.{positive, negative};
ghost use Rattle.dq_lits.specs.Derivation.{Derives};
ghost use Rattle.cert_text.specs.CircuitProof.{first_proof_id};
ghost use Rattle.cert_text.specs.DefinitionGrammar.{SpellsDefinitions};
ghost use Rattle.cert_text.specs.Examples.{conjunction, conjunction_beside, conjunction_definitions, conjunction_definitions_text, gate_circuit, false_circuit, literal_with_output, conjunction_proof};
ghost use Rattle.cert_text.specs.NegatedMatrix.{negated_matrix};

/// A gate that is the conjunction: the clauses of the gate, those of each clause of the formula,
/// and the last one, from which four lines derive the empty clause.
pub fn gate_is_the_conjunction()
    ensures gate { map (negated_matrix conjunction gate_circuit (literal_with_output 6))
        (1 ∷ 2 ∷ 3 ∷ [])
        ≡ Some (negative 3 ∷ positive 1 ∷ []) ∷ Some (negative 3 ∷ positive 2 ∷ [])
        ∷ Some (positive 3 ∷ negative 1 ∷ negative 2 ∷ []) ∷ [] }
    ensures first_clause { map (negated_matrix conjunction gate_circuit (literal_with_output 6))
        (4 ∷ 5 ∷ [])
        ≡ Some (negative 4 ∷ positive 3 ∷ []) ∷ Some (negative 4 ∷ negative 1 ∷ []) ∷ [] }
    ensures last { map (negated_matrix conjunction gate_circuit (literal_with_output 6))
        (11 ∷ 12 ∷ [])
        ≡ Some (positive 4 ∷ positive 5 ∷ positive 6 ∷ []) ∷ None ∷ [] }
    ensures next { first_proof_id conjunction gate_circuit ≡ 12 }
    ensures derived { Derives (negated_matrix conjunction gate_circuit (literal_with_output 6))
        conjunction_proof }
{}

/// An output that is always false: the literal is dropped where it is false, and no clause stands
/// where it is true.
pub fn constants_are_put_in()
    ensures dropped { map (negated_matrix conjunction false_circuit (literal_with_output 0))
        (1 ∷ 2 ∷ [])
        ≡ Some (negative 3 ∷ []) ∷ Some (negative 3 ∷ negative 1 ∷ []) ∷ [] }
    ensures no_clause { map (negated_matrix conjunction false_circuit (literal_with_output 0))
        (5 ∷ 6 ∷ [])
        ≡ None ∷ Some (negative 5 ∷ positive 1 ∷ []) ∷ [] }
    ensures next { first_proof_id conjunction false_circuit ≡ 9 }
{}

/// A gate with its proof in two lines, and two assignments that differ on the existential alone.
pub fn definitions_are_spelled()
    ensures { SpellsDefinitions conjunction_definitions_text conjunction_beside
        conjunction_definitions }
{}
