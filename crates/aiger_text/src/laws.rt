//! What joins the grammar, the first fault and the canonical text. A law is the contract of a
//! function without parameters and with an empty body.

ghost use Rattle.std.specs.Prelude.{◌≡◌, ◌↔◌, ◌⊎◌, ◌<◌, ◌^◌, ℕ, List, Ok};
ghost use Rattle.std.specs.Fmt.{decimal};
ghost use Rattle.dq_text.specs.Line.{lines_from};
ghost use Rattle.aiger_text.specs.Canonical.{canonical_circuit};
ghost use Rattle.aiger_text.specs.CircuitLines.{lines_give, no_lines};
ghost use Rattle.aiger_text.specs.FirstFault.{IsFirstFault};
ghost use Rattle.aiger_text.specs.Grammar.{SpellsCircuit};
ghost use Rattle.aiger_text.specs.Scan.{LineFault, AllGrounded, scan};
ghost use Rattle.aiger_text.specs.Spellable.{IsName, IsSpellable};
ghost use Rattle.aiger_text.specs.declared.files.AagFile.{AagFile};

/// A text spells one circuit file, or it has one first fault, and never both. The number of its
/// first line says only which lines faults name.
pub fn circuit_or_first_fault()
    ensures exact { (text : List ℕ) (first : ℕ) (file : AagFile) → SpellsCircuit text file
        ↔ ((scan text first ≡ Ok file) × AllGrounded file.circuit) }
    ensures unique { (text : List ℕ) (f g : AagFile) → SpellsCircuit text f → SpellsCircuit text g
        → f ≡ g }
    ensures either { (text : List ℕ) (first : ℕ)
        → ((file : AagFile) × SpellsCircuit text file)
        ⊎ ((fault : LineFault) × IsFirstFault text first fault) }
    ensures never_both { (text : List ℕ) (first : ℕ) (file : AagFile) (fault : LineFault)
        → SpellsCircuit text file → ¬ IsFirstFault text first fault }
    ensures one_fault { (text : List ℕ) (first : ℕ) (f g : LineFault) → IsFirstFault text first f
        → IsFirstFault text first g → f ≡ g }
{}

/// The canonical text of a circuit file spells it, so that reading that text gives the file back,
/// whatever the number of its first line. The files that are spellable are those that some text
/// spells.
pub fn canonical_text_spells()
    ensures spells { (file : AagFile) → IsSpellable file
        → SpellsCircuit (canonical_circuit file) file }
    ensures reads_back { (file : AagFile) (first : ℕ) → IsSpellable file
        → scan (canonical_circuit file) first ≡ Ok file }
    ensures spellable { (text : List ℕ) (file : AagFile) → SpellsCircuit text file
        → IsSpellable file }
{}

/// A number below 10^18 is a name that a symbol line can hold.
pub fn numbers_are_names()
    ensures { (n : ℕ) → n < 10 ^ 18 → IsName (decimal n) }
{}

/// The lines of a text give what `read` reads of it.
pub fn circuits_are_read_by_line()
    ensures { (text : List ℕ) (first : ℕ)
        → lines_give (no_lines first) (lines_from first text) ≡ scan text first }
{}
