//! What the binary form's definitions give. A law is the contract of a function without parameters and
//! with an empty body.

ghost use Rattle.std.specs.Prelude.{◌≡◌, ◌↔◌, ◌<◌, ◌≤◌, ℕ, List, length, All, Option, Ok};
ghost use Rattle.std.specs.List.{AllByRecursion};
ghost use Rattle.circuit_plain.specs.Netlist.{IsNetlist};
ghost use Rattle.aiger_text.specs.Grammar.{HasMeaning};
ghost use Rattle.aiger_text.specs.Scan.{AllGrounded};
ghost use Rattle.aiger_text.specs.declared.files.ReadCircuit.{ReadCircuit};
ghost use Rattle.aiger_text.specs.declared.files.AagFile.{AagFile};
ghost use Rattle.aig_binary.specs.Deltas.{most_groups, AreGroups};
ghost use Rattle.aig_binary.specs.Grammar.{SpellsBinary};
ghost use Rattle.aig_binary.specs.Scan.{scan_binary};
ghost use Rattle.aig_binary.specs.Written.{delta_text, binary_text, IsBinaryFile};

/// A text spells one circuit file in the binary form, which is scanned, or it has a first fault.
pub fn binary_circuit_or_first_fault()
    ensures { (text : List ℕ) (first : ℕ) (read : ReadCircuit) → SpellsBinary text first read
        ↔ (scan_binary text first ≡ Ok read) }
{}

/// What a text spells in the binary form is what the ASCII form asks of a circuit: each variable is
/// an input or a gate once, numbers are in range, and nothing is undefined or lies on a cycle.
pub fn binary_circuits_are_lawful()
    ensures lawful { (text : List ℕ) (first : ℕ) (read : ReadCircuit) → SpellsBinary text first read
        → IsNetlist read.file.circuit }
    ensures acyclic { (text : List ℕ) (first : ℕ) (read : ReadCircuit)
        → SpellsBinary text first read → AllGrounded read.file.circuit }
    ensures outputs_mean { (text : List ℕ) (first : ℕ) (read : ReadCircuit)
        → SpellsBinary text first read
        → All (HasMeaning read.file.circuit) read.file.circuit.outputs }
{}

/// The text that is written spells the file, and so reading it gives the file back, whatever the number
/// of its first line. No other bytes of a difference are fewer.
pub fn binary_text_spells()
    ensures spells { (file : AagFile) (first : ℕ) → IsBinaryFile file → (line : Option ℕ)
        × SpellsBinary (binary_text file) first
        (record { file = file; comment_line = line }) }
    ensures reads_back { (file : AagFile) (first : ℕ) → IsBinaryFile file → (line : Option ℕ)
        × (scan_binary (binary_text file) first
        ≡ Ok (record { file = file; comment_line = line })) }
    ensures fewest { (code : List ℕ) (n : ℕ) → AllByRecursion (λ byte. byte < 256) code
        → AreGroups code n → length (delta_text most_groups n) ≤ length code }
{}
