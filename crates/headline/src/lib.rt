//! What `VALID TRUE`, `VALID FALSE` and `VALID DEFINED` say, from bytes to functions, on one page
//! (`specs/Headline.antt`), what is said of black boxes on a second one (`specs/BlackBoxes.antt`),
//! what a session's answers say on a third (`specs/Sessions.antt`), and examples in the pages' own
//! words.
//!
//! Whoever has read the pages needs no other definition of a formula, its truth, a circuit, a box or a
//! script.
//! Each law here is the contract of a function without parameters and with an empty body.
#![tactic(auto)]

ghost use Rattle.std.specs.Prelude.{◌≡◌, ℕ, List, [], ◌∷◌, ◌++◌, codes};
ghost use Rattle.headline.specs.Examples.{copies_text, copies, blind_copies, wire_text, wire, one_of_two, both_and_one, opposites, negated_text, negated_wire, definition_text, loose};
ghost use Rattle.headline.specs.Headline.{tokens, Formula, HoldsDefinition, HoldsSkolem, IsDefined, IsTrueFormula, IsFalseFormula, SpellsAscii, SpellsBinary, SpellsFormula, StandsFor, existentials_of, seeing, universals, existentials, dependent, clause, xor, positive, opposite};
ghost use Rattle.headline.specs.SessionExamples.{asking, asking_text, first_block, second_block, true_copies};
ghost use Rattle.headline.specs.Sessions.{AnswersSession, Command, SpellsScript, formulas_asked};

/// Comments are left out, and a line may have several tokens.
pub fn tokens_are_read()
    ensures comment { tokens (codes "c x") ≡ [] }
    ensures two { tokens (codes " p  c") ≡ codes "p" ∷ codes "c" ∷ [] }
{}

/// An `e` variable sees what stands before it, a `d` variable what it lists, an undeclared one
/// nothing.
pub fn sets_are_read()
    ensures { existentials_of (record {
      variables = 6;
      parts = universals (1 ∷ 2 ∷ []) ∷ existentials (3 ∷ []) ∷ universals (4 ∷ [])
          ∷ dependent 5 (4 ∷ 1 ∷ 1 ∷ []) ∷ [];
      constraints = clause (positive 6 ∷ opposite 3 ∷ []) ∷ [];
    }) ≡ seeing (1 ∷ 2 ∷ []) 3 ∷ seeing (1 ∷ 4 ∷ []) 5 ∷ seeing [] 6 ∷ [] }
{}

/// No formula is both true and false.
pub fn no_formula_is_both()
    ensures { (f : Formula) → IsTrueFormula f → IsFalseFormula f → ⊥ }
{}

/// A text spells one formula, so that no text is both true and false.
pub fn texts_spell_one_formula()
    ensures one { (text : List ℕ) (f g : Formula) → SpellsFormula text f → SpellsFormula text g
        → f ≡ g }
    ensures never_both { (text : List ℕ) (f g : Formula) → SpellsFormula text f
        → SpellsFormula text g → IsTrueFormula f → IsFalseFormula g → ⊥ }
{}

/// The text of five lines spells the formula of copies.
pub fn copies_are_spelled()
    ensures { SpellsFormula copies_text copies }
{}

/// A copy of what is seen is a function of it, and a copy of what isn't seen is none.
pub fn copies_are_true()
    ensures seen { IsTrueFormula copies }
    ensures unseen { IsFalseFormula blind_copies }
{}

/// A wire is the copy's Skolem function.
pub fn a_wire_copies()
    ensures spelled { SpellsAscii wire_text wire [] }
    ensures skolem { HoldsSkolem copies wire_text }
{}

/// An XOR line asks for an odd number of true literals, and not for one or more.
pub fn xors_are_odd()
    ensures one { IsTrueFormula one_of_two }
    ensures both { IsFalseFormula both_and_one }
{}

/// An input without a name stands for the universal at its place in the prefix, and not for the one
/// with the place's number.
pub fn inputs_stand_in_order()
    ensures place { StandsFor [] 105 (2 ∷ 1 ∷ []) 0 2 }
    ensures number { StandsFor [] 105 (2 ∷ 1 ∷ []) 1 2 → ⊥ }
{}

/// In the binary form too an odd literal is a negation.
pub fn a_negated_wire_negates()
    ensures spelled { SpellsBinary negated_text negated_wire [] }
    ensures skolem { HoldsSkolem opposites negated_text }
{}

/// A copy is defined, by a text of four lines; a variable of which nothing is asked isn't.
pub fn copies_are_defined()
    ensures copy { IsDefined copies (seeing (1 ∷ []) 2) }
    ensures block { HoldsDefinition copies definition_text (seeing (1 ∷ []) 2) }
    ensures loose { IsDefined loose (seeing (1 ∷ []) 2) → ⊥ }
{}

/// A text spells one script.
pub fn texts_spell_one_script()
    ensures { (formula script : List ℕ) (f : Formula) (commands others : List Command)
        → SpellsFormula formula f → SpellsScript script f commands → SpellsScript script f others
        → commands ≡ others }
{}

/// Within a frame its clauses are asked about too, and behind its end no more.
pub fn frames_are_closed()
    ensures spelled { SpellsScript asking_text copies asking }
    ensures formulas { formulas_asked copies [] asking ≡ true_copies ∷ copies ∷ [] }
{}

/// The first of them is false and the second true, and that is what their blocks say. The first block
/// alone is no answer, and nor is nothing.
pub fn blocks_answer_a_script()
    ensures answers { AnswersSession copies_text asking_text (first_block ++ second_block) }
    ensures first { AnswersSession copies_text asking_text first_block → ⊥ }
    ensures nothing { AnswersSession copies_text asking_text [] → ⊥ }
{
    copies_are_spelled();
    frames_are_closed();
}
