//! What was read of a certificate, and what its next line does.

ghost use Rattle.std.specs.Prelude.{◌≡◌, ◌++◌, ℕ, true, List, IfOk, OnOk};
ghost use Rattle.std.specs.Option.{option_map};
ghost use Rattle.dq_lits.specs.Formula.{Dqbf, IsWellFormed};
ghost use Rattle.cert_judge.specs.Phases.{line_end, next_phase, Gives, HasNoEnd, IsLawful, Takes};
ghost use Rattle.cert_judge.specs.declared.answers.Judgement.{Judgement as Answer};

use crate::answers::Judgement;
use crate::beginnings::take_first_line;
use crate::binary::take_binary_line;
use crate::circuits::Form;
use crate::comments::take_circuit_line;
use aig_binary::AigLines;
use aiger_text::{AagFile, AagLines};
use cert_stream::{ProofStream, RefutationStream};
use cert_text::CertRefusal;
use dq_formula::Formula;
use dq_lits::Memory;
use std::alloc::Global;
use std::mem;

/// What was read of a certificate, by what comes next.
#[derive(Drop)]
pub(crate) enum Phase<'f> {
    /// The header line didn't come yet: the lines so far, and what is said if it is missing.
    Beginning {
        lines: Vec<u8>,
        missing: CertRefusal,
    },
    Refutation(RefutationStream<'f>),
    /// A circuit in ASCII AIGER whose header line has this number, up to its line `c`.
    Circuit {
        first: u64,
        lines: AagLines,
    },
    /// The proof in a circuit's comment. What was found of the circuit is said unless a line of the
    /// proof is refused; where something was found, no proof is judged.
    Proof {
        proof: ProofStream<'f>,
        finding: Option<Judgement>,
    },
    /// A circuit's comment that is no proof.
    FreeText {
        form: Form,
        first: u64,
        file: AagFile,
    },
    /// The same as `Circuit` of one in the binary form.
    Binary {
        first: u64,
        lines: AigLines,
    },
    /// Definitions, of which all bytes are kept.
    Definitions {
        first: u64,
        text: Vec<u8>,
    },
    /// Nothing that comes changes what is said.
    Decided(Judgement),
    /// Memory wanted.
    NoMemory,
}

/// Takes a line without its LF, whether it had one or the text ends there.
pub(crate) fn take_line<'f>(
    alloc: Global,
    f: &'f Formula,
    phase: &mut Phase<'f>,
    line: &[u8],
    ended: bool,
) -> Result<(), Memory>
    requires well_formed { IsWellFormed f.now }
    requires one_line { HasNoEnd line.now }
    requires lawful { IsLawful phase.old }
    ensures takes { OnOk result (Takes f.now phase.old line.now ended phase.new) }
    ensures lawful { OnOk result (IsLawful phase.new) }
{
    match phase {
        Phase::Refutation(refutation) => {
            refutation.line(line);
            Ok(())
        }
        Phase::Proof { proof, .. } => {
            proof.line(line);
            Ok(())
        }
        Phase::Circuit { first, lines } => {
            let next = take_circuit_line(alloc, f, *first, lines, line)?;
            turn(phase, next);
            Ok(())
        }
        Phase::Binary { first, lines } => {
            let next = take_binary_line(alloc, f, *first, lines, line, ended)?;
            turn(phase, next);
            Ok(())
        }
        Phase::Definitions { text, .. } => gather(text, line, ended),
        Phase::Beginning { lines, missing } => {
            let next = take_first_line(alloc, f, lines, missing, line, ended)?;
            turn(phase, next);
            Ok(())
        }
        Phase::FreeText { .. } => Ok(()),
        Phase::Decided(_) => Ok(()),
        Phase::NoMemory => Ok(()),
    }
}

// A phase is large, and a call pays for each that it may have in hand: what most lines call knows
// the next one in a box.
fn turn<'f>(phase: &mut Phase<'f>, next: Option<Box<Phase<'f>>>)
    ensures { phase.new ≡ next_phase phase.old (option_map (λ b. b.value) next.entry) }
{
    if let Some(next) = next {
        unbox(phase, next);
    }
}

#[inline(never)]
fn unbox<'f>(phase: &mut Phase<'f>, next: Box<Phase<'f>>)
    ensures { phase.new ≡ next.entry.value }
{
    put(phase, Box::into_inner(next));
}

/// The next phase in a box.
pub(crate) fn boxed<'f>(alloc: Global, next: Phase<'f>) -> Result<Box<Phase<'f>>, Memory>
    ensures { IfOk result (λ b. b.value ≡ next.entry) }
{
    Ok(Box::new(alloc, next)?)
}

/// Puts a phase in the place of another, which is let go by a call: where a value goes out of scope
/// or is written over, the prover sees what becomes of each field that it may have.
pub(crate) fn put<'f>(phase: &mut Phase<'f>, next: Phase<'f>)
    ensures { phase.new ≡ next.entry }
{
    drop(mem::replace(phase, next));
}

/// Whether nothing that comes changes what is said.
pub(crate) fn is_settled(phase: &Phase) -> bool
    ensures { result ≡ true → (f : Dqbf) (some other : List ℕ) (answer : Answer)
        → Gives f phase.now some answer → Gives f phase.now other answer }
{
    match phase {
        Phase::Refutation(refutation) => refutation.is_settled(),
        Phase::Proof { proof, .. } => proof.is_settled(),
        Phase::FreeText { .. } => true,
        Phase::Decided(_) => true,
        Phase::NoMemory => true,
        Phase::Beginning { .. } => false,
        Phase::Circuit { .. } => false,
        Phase::Binary { .. } => false,
        Phase::Definitions { .. } => false,
    }
}

/// Puts a line behind a text.
#[inline(never)]
pub(crate) fn gather(text: &mut Vec<u8>, line: &[u8], ended: bool) -> Result<(), Memory>
    ensures { OnOk result (text.new.items ≡ (text.old.items ++ line.now) ++ line_end ended) }
{
    text.extend_from_slice(line)?;
    if ended {
        text.push(b'\n')?;
    }
    Ok(())
}
