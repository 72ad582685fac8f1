//! The page's designs and those of the crates that read and compare them. A law is the contract of a
//! function without parameters and with an empty body.

ghost use Rattle.std.specs.Prelude.{ℕ, List, Ok};
ghost use Rattle.aiger_text.specs.Grammar.{SpellsCircuit};
ghost use Rattle.aiger_text.specs.declared.files.AagFile.{AagFile};
ghost use Rattle.aiger_text.specs.declared.files.ReadCircuit.{ReadCircuit};
ghost use Rattle.headline.specs.BlackBoxes.{Design};
ghost use Rattle.pec_front.specs.Boxes.{IsLawfulDesign, PartialDesign};
ghost use Rattle.pec_front.specs.Reading.{IsDesignReading};
ghost use Rattle.box_laws.specs.Designs.{IsOnPage};

/// Two texts that make a lawful design to the reader make one on the page, and the same contents of
/// its boxes fit.
pub fn designs_are_on_the_page()
    ensures { (specification implementation : List ℕ) (file : AagFile) (read : ReadCircuit)
        (d : PartialDesign) → SpellsCircuit specification file
        → SpellsCircuit implementation read.file → IsDesignReading file.circuit read 1 (Ok d)
        → IsLawfulDesign d → (page : Design) × IsOnPage specification implementation d page }
{}
