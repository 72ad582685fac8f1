//! Circuits' comments that are no proof, as their first bytes tell. Nothing is kept of these, however
//! long their first line is.

ghost use Rattle.std.specs.Prelude.{◌≡◌, ◌++◌, ℕ, true, false, List, IfOk, OnOk};
ghost use Rattle.cert_judge.specs.CircuitPhases.{GivesFreeText, IsWholeCircuit};
ghost use Rattle.cert_judge.specs.Judgement.{begins_proof};
ghost use Rattle.cert_judge.specs.Phases.{AreLinesFrom, Gives, HasNoEnd, IsLawful};
ghost use Rattle.cert_judge.specs.declared.answers.Judgement.{Judgement as Answer};

use crate::binary::binary_free_text;
use crate::circuits::Form;
use crate::comments::stopped_phase;
use crate::phases::{Phase, put};
use aiger_text::laws::circuit_or_first_fault;
use aiger_text::{AagFile, AagLines};
use dq_formula::Formula;
use dq_lits::Memory;
use dq_text::{LineTokens, is_word};
use std::alloc::Global;
use std::mem;

/// Passes over a circuit's comment whose first bytes, which are unfinished, tell that it is no proof.
pub(crate) fn pass_over<'f>(
    alloc: Global,
    f: &'f Formula,
    phase: &mut Phase<'f>,
    unfinished: &mut Vec<u8>,
) -> Result<(), Memory>
    requires lawful { IsLawful phase.old }
    requires one_line { HasNoEnd unfinished.old.items }
    ensures gives { OnOk result ((bytes : List ℕ) (answer : Answer)
        → Gives f.now phase.new (unfinished.new.items ++ bytes) answer
        → Gives f.now phase.old (unfinished.old.items ++ bytes) answer) }
    ensures lawful { OnOk result (IsLawful phase.new) }
    ensures one_line { OnOk result (HasNoEnd unfinished.new.items) }
{
    match phase {
        Phase::Circuit { first, lines } => {
            if !lines.in_comment() {
                return Ok(());
            }
            if !is_no_proof(unfinished) {
                return Ok(());
            }
            let read = mem::replace(lines, AagLines::new(alloc, *first));
            let next = free_text(*first, read)?;
            put(phase, next);
            unfinished.clear();
            Ok(())
        }
        Phase::Beginning { .. } => Ok(()),
        Phase::Refutation(_) => Ok(()),
        Phase::Proof { .. } => Ok(()),
        Phase::FreeText { .. } => Ok(()),
        Phase::Binary { first, lines } => {
            if !lines.in_comment() {
                return Ok(());
            }
            if !is_no_proof(unfinished) {
                return Ok(());
            }
            let next = binary_free_text(alloc, f, *first, lines)?;
            put(phase, next);
            unfinished.clear();
            Ok(())
        }
        Phase::Definitions { .. } => Ok(()),
        Phase::Decided(_) => Ok(()),
        Phase::NoMemory => Ok(()),
    }
}

// What follows where a comment is no proof, and the circuit's lines were read.
fn free_text<'f>(first: u64, lines: AagLines) -> Result<Phase<'f>, Memory>
    requires lawful { AreLinesFrom first lines }
    requires comment { IsWholeCircuit lines }
    ensures lawful { IfOk result IsLawful }
    ensures gives { IfOk result (GivesFreeText lines) }
{
    circuit_or_first_fault();
    let (circuit, symbols) = match lines.end() {
        Ok(parts) => parts,
        Err(stop) => return stopped_phase(stop),
    };
    let file = AagFile {
        circuit,
        symbols,
        comment: None,
    };
    Ok(Phase::FreeText {
        form: Form::Ascii,
        first,
        file,
    })
}

// A line that is longer isn't looked at any more, so that one of blanks isn't with each piece.
const MOST_BYTES: usize = 1 << 20;

// Whether a comment whose first line begins with these bytes is no proof, whatever follows.
fn is_no_proof(bytes: &[u8]) -> bool
    requires { HasNoEnd bytes.now }
    ensures { result ≡ true → (more : List ℕ) → begins_proof (bytes.now ++ more) ≡ false }
{
    if bytes.len() > MOST_BYTES {
        return false;
    }
    let mut tokens = LineTokens::new(bytes);
    let Some(word) = tokens.next() else {
        return false;
    };
    let Some(_behind) = tokens.next() else {
        // The word may go on.
        return word.len() > 4;
    };
    if is_word(word, b"dqp") {
        return false;
    }
    !is_word(word, b"dqp2")
}
