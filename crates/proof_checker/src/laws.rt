//! What a circuit's proof without a fault shows. Each law is the contract of a function that does
//! nothing: who calls it may use what it ensures.
//!
//! These laws speak of no rows: the assignment that shows a clause false extends to the circuit's
//! variables by their values and to the clauses' variables by their falsity, and makes the negated
//! matrix true. A variable that the circuit doesn't define is false there.

ghost use Rattle.std.specs.Prelude.{◌≡◌, ℕ, ◌*◌, Bool, true, false, not, ◌&&◌, List, Ok, None, Some};
ghost use Rattle.std.specs.List.{AllByRecursion, list_any};
ghost use Rattle.dq_lits.specs.Formula.{IsWellFormed};
ghost use Rattle.dq_lits.specs.Henkin.{MatrixHolds, IsTrueFormula};
ghost use Rattle.dq_lits.specs.Literal.{Assignment, Literal, clause_true};
ghost use Rattle.circuit_plain.specs.Netlist.{IsNetlist, literal_bit};
ghost use Rattle.circuit_plain.specs.declared.circuits.Gate.{Gate};
ghost use Rattle.cert_text.specs.NegatedMatrix.{gate_clauses, opposite_of, without_constants};
ghost use Rattle.aiger_text.specs.Symbol.{SymbolTable};
ghost use Rattle.rup_core.specs.Items.{ProofItem};
ghost use Rattle.skolem_checker.specs.Checks.{Candidate, candidate_of, IsReadsAnswer};
ghost use Rattle.skolem_checker.specs.SkolemCircuit.{FollowsCircuit, IsComplete, IsSkolemCircuit, ReadsUniversal};
ghost use Rattle.proof_checker.specs.CircuitProof.{circuit_proof_fault};

use rup_core::laws::deleting_derivation_is_sound;
use skolem_checker::laws::{skolem_circuit_shows_true, tested_circuit_is_skolem};

/// Where the negated matrix is refuted, every clause is true under every row of the universals with
/// the outputs' values.
pub fn refuted_negation_solves()
    ensures { (c : Candidate) (symbols : SymbolTable) (items : List ProofItem)
        → IsWellFormed c.formula
        → IsNetlist c.circuit.netlist → IsComplete c.circuit.netlist
        → candidate_of c.formula c.circuit.netlist symbols ≡ Ok c
        → circuit_proof_fault c items ≡ None
        → (m : Assignment) → FollowsCircuit c.formula c.circuit m → MatrixHolds c.formula m }
{
    deleting_derivation_is_sound();
}

/// A circuit that is mapped, reads declared universals alone and has a proof is a Skolem circuit.
pub fn proved_circuit_is_skolem()
    ensures { (c : Candidate) (symbols : SymbolTable) (items : List ProofItem)
        → IsWellFormed c.formula
        → IsNetlist c.circuit.netlist → IsComplete c.circuit.netlist
        → candidate_of c.formula c.circuit.netlist symbols ≡ Ok c
        → IsReadsAnswer (ReadsUniversal c.circuit) c.formula (Ok tt)
        → circuit_proof_fault c items ≡ None
        → IsSkolemCircuit c.formula c.circuit.netlist symbols }
{
    refuted_negation_solves();
    tested_circuit_is_skolem();
}

/// Such a circuit shows that the formula is true.
pub fn proved_circuit_shows_true()
    ensures { (c : Candidate) (symbols : SymbolTable) (items : List ProofItem)
        → IsWellFormed c.formula
        → IsNetlist c.circuit.netlist → IsComplete c.circuit.netlist
        → candidate_of c.formula c.circuit.netlist symbols ≡ Ok c
        → IsReadsAnswer (ReadsUniversal c.circuit) c.formula (Ok tt)
        → circuit_proof_fault c items ≡ None
        → IsTrueFormula c.formula }
{
    proved_circuit_is_skolem();
    skolem_circuit_shows_true();
}

/// Clauses over a circuit's literals: opposite literals have opposite bits, a gate's clauses hold where
/// its variable has its value, and what is left of a clause that holds, without its constants, is true.
pub fn circuit_clauses_hold()
    ensures variable { (e : ℕ → Bool) (v : ℕ) → literal_bit e (2 * v) ≡ e v }
    ensures opposite { (e : ℕ → Bool) (l : ℕ)
        → literal_bit e (opposite_of l) ≡ not (literal_bit e l) }
    ensures gate { (e : ℕ → Bool) (g : Gate)
        → e g.variable ≡ (literal_bit e g.left && literal_bit e g.right)
        → AllByRecursion (λ clause. list_any (literal_bit e) clause ≡ true) (gate_clauses g) }
    ensures kept { (e : ℕ → Bool) (literals : List ℕ) (clause : List Literal) → e 0 ≡ false
        → without_constants literals ≡ Some clause → list_any (literal_bit e) literals ≡ true
        → clause_true e clause ≡ true }
{}
