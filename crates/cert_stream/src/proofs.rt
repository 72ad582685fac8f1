//! Circuits' proofs that are judged line by line.

ghost use Rattle.std.specs.Prelude.{◌≡◌, ◌∷◌, ◌+◌, ℕ, true, false, List, [], Option, Some, Result, OnOk, IfNone, IfSome};
ghost use Rattle.std.specs.Option.{option_map};
ghost use Rattle.dq_lits.specs.Derivation.{ProofFault as Fault};
ghost use Rattle.dq_lits.specs.Formula.{Dqbf};
ghost use Rattle.dq_text.specs.Line.{TextLine};
ghost use Rattle.circuit_plain.specs.Netlist.{Netlist};
ghost use Rattle.cert_text.specs.CircuitProof.{first_proof_id, read_proof};
ghost use Rattle.cert_text.specs.Lines.{IsReading};
ghost use Rattle.cert_text.specs.Numbering.{numbered_from};
ghost use Rattle.cert_text.specs.declared.faults.CertStop.{CertStop as Stop};
ghost use Rattle.cert_stream.specs.KeptLines.{proof_seen};
ghost use Rattle.rup_core.specs.ProofVerdict.{proof_fault_in};
ghost use Rattle.rup_core.specs.Runs.{run_fault};
ghost use Rattle.proof_checker.specs.Judging.{run_of, IsJudging};
ghost use Rattle.cert_stream.specs.ProofInside.{runs_behind, HasNext};
ghost use Rattle.cert_stream.specs.ProofState.{answer_in, judged_whole, numbering_of, run_behind, MayAnswer};

use crate::laws::proofs_are_read_by_line;
use crate::proofs_by_line::DqpLines;
use cert_text::CertStop;
use circuit_plain::Circuit;
use dq_formula::Formula;
use dq_lits::Memory;
use proof_checker::CircuitProving;
use rup_core::ProofFault;
use std::alloc::Global;
use std::marker::Model;

/// Judges a circuit's proof line by line, from its header line on, or only reads it where something
/// else is to be said of the circuit unless a line is refused.
///
/// It holds the circuit, which ids are live, and the lines that are live. What stops it is told at the
/// end.
#[derive(Drop)]
pub struct ProofStream<'f> {
    formula: &'f Formula,
    circuit: Circuit,
    lines: DqpLines,
    proving: Option<CircuitProving>,
    failed: bool,
}

impl<'f> Model for ProofStream<'f> {
    ghost use Rattle.cert_stream.specs.ProofInside.{proof_state_in, IsProofStream};
    ghost use Rattle.cert_stream.specs.ProofState.{ProofState};

    ghost Value = { ProofState };

    ghost view = { proof_state_in };

    ghost invariant = { IsProofStream };
}

impl<'f> ProofStream<'f> {
    /// Before the header line, which has the number `first`; where a proof is judged, no item was. It
    /// takes no memory.
    pub fn new(
        alloc: Global,
        f: &'f Formula,
        circuit: Circuit,
        proving: Option<CircuitProving>,
        first: u64,
    ) -> ProofStream<'f>
        requires { IfSome proving (λ p. IsJudging f.now circuit p
            (numbered_from (first_proof_id f.now circuit))) }
        ensures answer { (lines : List TextLine) (answer : Result (Option (Option Fault)) Stop)
            → MayAnswer result lines answer
            → IsReading (judged_whole (option_map (run_of f.now circuit) proving)
            (read_proof f.now circuit lines first)) answer }
        ensures number { result.lines.number ≡ first }
    {
        let lines = DqpLines::new(alloc, f, &circuit, first);
        ProofStream {
            formula: f,
            circuit,
            lines,
            proving,
            failed: false,
        }
    }

    /// Takes the next line, which has no LF at its end.
    pub fn line(&mut self, text: &[u8])
        ensures answer { (behind : List ℕ) (lines : List TextLine)
            (answer : Result (Option (Option Fault)) Stop) → MayAnswer self.new lines answer
            → MayAnswer self.old (record {
              text = text.now;
              number = self.old.lines.number;
              behind = behind;
            } ∷ lines) answer }
        ensures number { self.new.failed ≡ false
            → IfNone self.new.lines.stopped (self.new.lines.number ≡ self.old.lines.number + 1) }
    {
        proofs_are_read_by_line();
        if self.failed {
            return;
        }
        match self.lines.line(text) {
            Ok(()) => {}
            Err(_) => return,
        }
        match judge_proof_item(self.formula, &self.circuit, &self.lines, &mut self.proving) {
            Ok(()) => {}
            Err(Memory) => self.failed = true,
        }
    }

    /// Whether no line that comes changes what is said.
    pub fn is_settled(&self) -> bool
        ensures { result ≡ true → (some other : List TextLine)
            (answer : Result (Option (Option Fault)) Stop)
            → MayAnswer self.now some answer → MayAnswer self.now other answer }
    {
        if self.failed {
            return true;
        }
        if self.lines.is_stopped() {
            return true;
        }
        self.lines.have_all_come()
    }

    /// What is wrong with the proof, where one is judged and the text ends here, or what stopped its
    /// reading.
    pub fn end(self) -> Result<Option<Option<ProofFault>>, CertStop>
        ensures { MayAnswer self.entry [] (answer_in result) }
    {
        if self.failed {
            return Err(CertStop::Memory);
        }
        let said = said_of(&self.proving);
        match self.lines.end() {
            Ok(()) => Ok(said),
            Err(stop) => Err(stop),
        }
    }
}

// What is wrong with what was judged, if a proof is.
fn said_of(proving: &Option<CircuitProving>) -> Option<Option<ProofFault>>
    ensures { (f : Dqbf) (net : Netlist) → option_map proof_fault_in result
        ≡ option_map (λ p. run_fault (run_of f net p)) proving.now }
{
    match proving {
        Some(proving) => Some(proving.fault()),
        None => None,
    }
}

// Judges the item that the last line was, if it is one and a proof is judged.
fn judge_proof_item(
    f: &Formula,
    c: &Circuit,
    lines: &DqpLines,
    proving: &mut Option<CircuitProving>,
) -> Result<(), Memory>
    requires { HasNext f.now c.now lines.now proving.old }
    ensures run { OnOk result (option_map (run_of f.now c.now) proving.new
        ≡ runs_behind lines.now.item (option_map (run_of f.now c.now) proving.old)) }
    ensures judging { OnOk result (IfSome proving.new (λ p. IsJudging f.now c.now p
        (numbering_of (proof_seen lines.now)))) }
{
    match proving {
        Some(proving) => judge_next(f, c, lines, proving),
        None => Ok(()),
    }
}

// The same of a proof that is judged.
fn judge_next(
    f: &Formula,
    c: &Circuit,
    lines: &DqpLines,
    proving: &mut CircuitProving,
) -> Result<(), Memory>
    requires { HasNext f.now c.now lines.now (Some proving.old) }
    ensures run { OnOk result (run_of f.now c.now proving.new
        ≡ run_behind lines.now.item (run_of f.now c.now proving.old)) }
    ensures judging { OnOk result (IsJudging f.now c.now proving.new
        (numbering_of (proof_seen lines.now))) }
{
    match lines.item() {
        Some(item) => proving.item(f, c, item),
        None => Ok(()),
    }
}
