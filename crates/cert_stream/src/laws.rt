//! Reading line by line is reading the text. A law is the contract of a function without parameters
//! and with an empty body.

ghost use Rattle.std.specs.Prelude.{◌≡◌, ◌∷◌, ℕ, List};
ghost use Rattle.dq_lits.specs.Formula.{Dqbf};
ghost use Rattle.dq_text.specs.Line.{TextLine, lines_from};
ghost use Rattle.circuit_plain.specs.Netlist.{Netlist};
ghost use Rattle.cert_text.specs.CircuitProof.{circuit_proof_of};
ghost use Rattle.cert_text.specs.Lines.{and_read, at_line};
ghost use Rattle.cert_text.specs.Scan.{refutation_of};
ghost use Rattle.cert_stream.specs.ProofLines.{ProofLines};
ghost use Rattle.cert_stream.specs.ProofLines as Proof;
ghost use Rattle.cert_stream.specs.RefutationLines.{RefutationLines, in_front, lines_give, no_lines, with_line};

/// The lines of a text give what `read_dqr` reads of it, and a line gives what it is read as, in
/// front of what the lines behind it give.
pub fn refutations_are_read_by_line()
    ensures whole { (f : Dqbf) (text : List ℕ) (first : ℕ)
        → lines_give (no_lines f first) (lines_from first text) ≡ refutation_of f text first }
    ensures line { (r : RefutationLines) (line : TextLine) (lines : List TextLine)
        → line.number ≡ r.number → lines_give r (line ∷ lines)
        ≡ and_read (at_line line.number (with_line r line.text))
        (λ next. in_front next.item (lines_give next lines)) }
{}

/// The same of circuits' proofs and `read_dqp`.
pub fn proofs_are_read_by_line()
    ensures whole { (f : Dqbf) (net : Netlist) (text : List ℕ) (first : ℕ)
        → Proof.lines_give (Proof.no_lines f net first) (lines_from first text)
        ≡ circuit_proof_of f net text first }
    ensures line { (r : ProofLines) (line : TextLine) (lines : List TextLine)
        → line.number ≡ r.number → Proof.lines_give r (line ∷ lines)
        ≡ and_read (at_line line.number (Proof.with_line r line.text))
        (λ next. Proof.in_front next.item (Proof.lines_give next lines)) }
{}
