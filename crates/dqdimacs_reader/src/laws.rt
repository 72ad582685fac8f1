//! What joins the grammar, the first fault and the canonical text. A law is the contract of a
//! function without parameters and with an empty body.

ghost use Rattle.std.specs.Prelude.{◌≡◌, ◌↔◌, ◌⊎◌, ℕ, List, Ok, Err};
ghost use Rattle.dq_lits.specs.Formula.{Dqbf};
ghost use Rattle.dqdimacs_reader.specs.Grammar.{SpellsFormula};
ghost use Rattle.dqdimacs_reader.specs.Machine.{TextFault, reading};
ghost use Rattle.dqdimacs_reader.specs.Canonical.{canonical};
ghost use Rattle.dqdimacs_reader.specs.Reading.{IsSpellable};

/// A text spells one formula, or it has a first fault, and never both.
pub fn formula_or_first_fault()
    ensures exact { (text : List ℕ) (f : Dqbf) → SpellsFormula text f ↔ (reading text ≡ Ok f) }
    ensures unique { (text : List ℕ) (f g : Dqbf) → SpellsFormula text f → SpellsFormula text g
        → f ≡ g }
    ensures either { (text : List ℕ)
        → ((f : Dqbf) × SpellsFormula text f) ⊎ ((fault : TextFault) × (reading text ≡ Err fault)) }
{}

/// The canonical text of a formula spells it, and reading that text gives it back. What `read`
/// answers is spellable, and so is every formula whose clauses stand on declared variables without
/// repeated literals.
pub fn canonical_text_spells()
    ensures spells { (f : Dqbf) → IsSpellable f → SpellsFormula (canonical f) f }
    ensures reads_back { (f : Dqbf) → IsSpellable f → reading (canonical f) ≡ Ok f }
{}
