//! What joins the grammars, the first faults and the canonical text. A law is the contract of a
//! function without parameters and with an empty body.

ghost use Rattle.std.specs.Prelude.{◌≡◌, ℕ, Bool, All, map, ◌⊎◌, length, ◌↔◌, true, List, Ok, Err};
ghost use Rattle.dq_lits.specs.Derivation.{ProofStep};
ghost use Rattle.dq_lits.specs.Formula.{Dqbf};
ghost use Rattle.dq_text.specs.Line.{TextLine};
ghost use Rattle.dq_formula.specs.Prefix.{IsLawful, existential_variables};
ghost use Rattle.circuit_plain.specs.Netlist.{Netlist};
ghost use Rattle.rup_core.specs.Items.{ProofItem, derived};
ghost use Rattle.cert_text.specs.AllowedDefinitions.{AreBlocksOf, IsBlockOf};
ghost use Rattle.cert_text.specs.Beginning.{Begins};
ghost use Rattle.cert_text.specs.Canonical.{canonical, canonical_proof, version_for};
ghost use Rattle.cert_text.specs.CanonicalDefinitions.{WrittenDefinitionsAreRead, WrittenDefinitionsSpell};
ghost use Rattle.cert_text.specs.CircuitProof.{circuit_proof_of};
ghost use Rattle.cert_text.specs.DefinitionBlocks.{DefinitionBlock};
ghost use Rattle.cert_text.specs.DefinitionGrammar.{SpellsDefinitions};
ghost use Rattle.cert_text.specs.DefinitionText.{PartRead, definitions_of, read_block};
ghost use Rattle.cert_text.specs.Grammar.{AreItems, AreSteps, IsDqrOf, IsItem, IsPairNumber, SpellsRefutation};
ghost use Rattle.cert_text.specs.ItemLine.{as_items, item_line, item_lines, step_lines};
ghost use Rattle.cert_text.specs.Kind.{certificate_kind};
ghost use Rattle.cert_text.specs.Lines.{read_some};
ghost use Rattle.cert_text.specs.NegatedMatrix.{negated_clauses, negated_clause_count};
ghost use Rattle.cert_text.specs.Numbering.{Numbering, numbered_from};
ghost use Rattle.cert_text.specs.Pairs.{is_pair_number};
ghost use Rattle.cert_text.specs.ProofGrammar.{IsDqpOf, SpellsProof};
ghost use Rattle.cert_text.specs.RowLine.{row_line};
ghost use Rattle.cert_text.specs.Scan.{refutation_of};
ghost use Rattle.cert_text.specs.SignsTaken.{IsSpelled};
ghost use Rattle.cert_text.specs.declared.circuit_proofs.Dqp.{Dqp};
ghost use Rattle.cert_text.specs.declared.faults.CertRefusal.{CertRefusal};
ghost use Rattle.cert_text.specs.declared.kinds.Kind.{Kind};
ghost use Rattle.cert_text.specs.declared.refutations.Dqr.{Dqr};
ghost use Rattle.cert_text.specs.declared.versions.Version.{Version};
ghost use Rattle.cert_text.specs.declared.versions.Version.TheVariants.{One};

/// How a text begins tells its kind, and where its header line stands.
pub fn beginning_tells_kind()
    ensures { (text : List ℕ) (kind : Kind) → Begins text kind ↔ (certificate_kind text ≡ Ok kind) }
{}

/// A text spells one refutation for a formula, or it has a first fault, and never both. The number
/// of its first line says only which line a fault names. Every formula is lawful
/// (`Formula::every_formula_is_lawful`).
pub fn refutation_or_first_fault()
    ensures exact { (text : List ℕ) (first : ℕ) (f : Dqbf) (d : Dqr) → IsLawful f
        → SpellsRefutation text f d ↔ (refutation_of f text first ≡ Ok d) }
    ensures unique { (text : List ℕ) (f : Dqbf) (d e : Dqr) → IsLawful f → SpellsRefutation text f d
        → SpellsRefutation text f e → d ≡ e }
    ensures either { (text : List ℕ) (first : ℕ) (f : Dqbf)
        → ((d : Dqr) × SpellsRefutation text f d)
        ⊎ ((fault : CertRefusal) × (refutation_of f text first ≡ Err fault)) }
    ensures allowed { (text : List ℕ) (first : ℕ) (f : Dqbf) (d : Dqr)
        → refutation_of f text first ≡ Ok d → IsDqrOf f d }
{}

/// The variables of a refutation are the numbers (k - 1) * V + y of an existential y and a row k.
pub fn pairs_have_numbers()
    ensures { (f : Dqbf) (rows number : ℕ) → IsLawful f → (is_pair_number f rows number ≡ true)
        ↔ IsPairNumber f rows number }
{}

/// The canonical text of a refutation spells it, so that reading it gives the refutation back.
pub fn canonical_text_spells()
    ensures spells { (f : Dqbf) (d : Dqr) → IsLawful f → IsDqrOf f d
        → SpellsRefutation (canonical f.universals d) f d }
    ensures reads_back { (f : Dqbf) (d : Dqr) (first : ℕ) → IsLawful f → IsDqrOf f d
        → refutation_of f (canonical f.universals d) first ≡ Ok d }
{}

/// A text spells one proof over a formula and a circuit, or it has a first fault, and never both.
/// The number of its first line says only which line a fault names.
pub fn proof_or_first_fault()
    ensures exact { (text : List ℕ) (first : ℕ) (f : Dqbf) (net : Netlist) (d : Dqp)
        → SpellsProof text f net d ↔ (circuit_proof_of f net text first ≡ Ok d) }
    ensures unique { (text : List ℕ) (f : Dqbf) (net : Netlist) (d e : Dqp)
        → SpellsProof text f net d → SpellsProof text f net e → d ≡ e }
    ensures either { (text : List ℕ) (first : ℕ) (f : Dqbf) (net : Netlist)
        → ((d : Dqp) × SpellsProof text f net d)
        ⊎ ((fault : CertRefusal) × (circuit_proof_of f net text first ≡ Err fault)) }
    ensures allowed { (text : List ℕ) (first : ℕ) (f : Dqbf) (net : Netlist) (d : Dqp)
        → circuit_proof_of f net text first ≡ Ok d → IsDqpOf f net d }
{}

/// The canonical text of a circuit's proof spells it, so that reading it gives the proof back.
pub fn canonical_proof_spells()
    ensures spells { (f : Dqbf) (net : Netlist) (d : Dqp) → IsDqpOf f net d
        → SpellsProof (canonical_proof d) f net d }
    ensures reads_back { (f : Dqbf) (net : Netlist) (d : Dqp) (first : ℕ) → IsDqpOf f net d
        → circuit_proof_of f net (canonical_proof d) first ≡ Ok d }
{}

/// The first line of a circuit's proof has the id behind those of the negated matrix.
pub fn negated_clauses_are_counted()
    ensures { (f : Dqbf) (net : Netlist) (circuit_literal : ℕ → ℕ)
        → length (negated_clauses f net circuit_literal) ≡ negated_clause_count f net }
{}

/// What a line is read as may stand there: an item of a proof behind those before it, and a row of
/// all universals.
pub fn lines_are_lawful()
    ensures item { (version : Version) (is_variable : ℕ → Bool) (n : Numbering)
        (tokens : List (List ℕ)) (item : ProofItem)
        → item_line version is_variable n tokens ≡ Ok item → IsItem is_variable n item }
    ensures row { (universals : List ℕ) (tokens : List (List ℕ)) (row : List Bool)
        → row_line universals tokens ≡ Ok row → length row ≡ length universals }
    ensures universals { (f : Dqbf) → IsLawful f → All IsSpelled f.universals }
{}

/// Version 1 has steps alone: its lines are read as they are where nothing can be deleted. Proofs
/// that delete nothing, also those that were read in version 2, are written in version 1.
pub fn version_one_has_steps_alone()
    ensures read { (is_variable : ℕ → Bool) (first count : ℕ) (lines : List TextLine) (number : ℕ)
        → read_some (item_lines One is_variable) (numbered_from first) count lines number
        ≡ as_items (read_some (step_lines is_variable) first count lines number) }
    ensures allowed { (is_variable : ℕ → Bool) (first : ℕ) (steps : List ProofStep)
        → AreSteps is_variable first steps
        → AreItems is_variable (numbered_from first) (map derived steps) }
    ensures written { (steps : List ProofStep) → version_for (map derived steps) ≡ One }
{}

/// A text spells definitions for a formula in one way, or it has a first fault, and never both. The
/// number of its first line says only which line a fault names. Every formula is lawful
/// (`Formula::every_formula_is_lawful`).
pub fn definitions_or_first_fault()
    ensures exact { (text : List ℕ) (first : ℕ) (f : Dqbf) (blocks : List DefinitionBlock)
        → IsLawful f
        → SpellsDefinitions text f blocks ↔ (definitions_of f text first ≡ Ok blocks) }
    ensures spelled { (text : List ℕ) (first : ℕ) (f : Dqbf) (blocks : List DefinitionBlock)
        → definitions_of f text first ≡ Ok blocks → SpellsDefinitions text f blocks }
    ensures unique { (text : List ℕ) (f : Dqbf) (a b : List DefinitionBlock) → IsLawful f
        → SpellsDefinitions text f a → SpellsDefinitions text f b → a ≡ b }
    ensures either { (text : List ℕ) (first : ℕ) (f : Dqbf)
        → ((blocks : List DefinitionBlock) × SpellsDefinitions text f blocks)
        ⊎ ((fault : CertRefusal) × (definitions_of f text first ≡ Err fault)) }
{}

/// What is read as a text of definitions may stand there: a block for each existential, in order.
pub fn definitions_are_lawful()
    ensures block { (f : Dqbf) (y : ℕ) (lines : List TextLine) (number : ℕ)
        (read : PartRead DefinitionBlock) → read_block f y lines number ≡ Ok read
        → IsBlockOf f y read.part }
    ensures text { (f : Dqbf) (text : List ℕ) (first : ℕ) (blocks : List DefinitionBlock)
        → definitions_of f text first ≡ Ok blocks
        → AreBlocksOf f (existential_variables f) blocks }
{}

/// The canonical text of blocks that may stand there spells them, so that reading it gives them back.
pub fn written_definitions_are_read()
    ensures spells { WrittenDefinitionsSpell }
    ensures reads_back { WrittenDefinitionsAreRead }
{}
