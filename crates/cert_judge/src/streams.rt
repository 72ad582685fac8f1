//! Certificates that come in pieces.

ghost use Rattle.std.specs.Prelude.{◌≡◌, ◌++◌, [], ℕ, List, OnOk, MatchOption, IfOk};
ghost use Rattle.dq_lits.specs.Formula.{Dqbf, IsWellFormed};
ghost use Rattle.cert_judge.specs.Judgement.{IsJudgement};
ghost use Rattle.cert_judge.specs.Phases.{Gives, HasNoEnd, IsLawful};
ghost use Rattle.cert_judge.specs.Streams.{IsCut, IsTaken, StandsFor};
ghost use Rattle.cert_judge.specs.declared.answers.Judgement.{Judgement as Answer};

use crate::answers::Judgement;
use crate::endings::finish;
use crate::free_texts::pass_over;
use crate::phases::{Phase, is_settled, put, take_line};
use cert_text::{CertFault, CertRefusal};
use dq_formula::Formula;
use dq_io::Feed;
use dq_lits::Memory;
use memchr::memchr;
use std::alloc::Global;
use std::marker::Model;

/// Judges a certificate for a formula as it comes, however it is cut.
///
/// It holds the line whose end didn't come yet, unless nothing that comes changes what is said, a
/// refutation's rows or the circuit, which ids are live, and the lines that are live; of definitions it
/// keeps all bytes. What is wrong with the certificate, and want
/// of memory, is told at the end.
#[derive(Drop)]
pub struct Stream<'f> {
    alloc: Global,
    formula: &'f Formula,
    unfinished: Vec<u8>,
    phase: Phase<'f>,
}

impl<'f> Model for Stream<'f> {
    ghost use Rattle.cert_judge.specs.StreamInside.{state_in, IsStream};
    ghost use Rattle.cert_judge.specs.Streams.{StreamState};

    ghost Value = { StreamState };

    ghost view = { state_in };

    ghost invariant = { IsStream };
}

impl<'f> Stream<'f> {
    /// Before the first piece. It takes no memory.
    pub fn new(alloc: Global, f: &'f Formula) -> Stream<'f>
        requires well_formed { IsWellFormed f.now }
        ensures formula { result.formula ≡ f.now }
        ensures stands { StandsFor result [] }
    {
        let missing = CertRefusal {
            line: 1,
            name: CertFault::BadHeader,
        };
        let lines = Vec::new(alloc);
        Stream {
            alloc,
            formula: f,
            unfinished: Vec::new(alloc),
            phase: Phase::Beginning { lines, missing },
        }
    }

    /// The judgement of all that was fed.
    pub fn end(self) -> Result<Judgement, Memory>
        ensures { (text : List ℕ) → StandsFor self.entry text
            → IfOk result (IsJudgement self.entry.formula text) }
    {
        let Stream {
            alloc,
            formula,
            unfinished,
            mut phase,
        } = self;
        end_lines(alloc, formula, &mut phase, &unfinished);
        finish(alloc, formula, phase)
    }
}

impl<'f> Feed for Stream<'f> {
    type Subject = Formula;

    ghost subject = { λ s. s.formula };

    ghost stands = { StandsFor };

    fn feed(&mut self, piece: &[u8]) {
        match take_piece(
            self.alloc,
            self.formula,
            &mut self.phase,
            &mut self.unfinished,
            piece,
        ) {
            Ok(()) => {}
            Err(Memory) => {
                self.unfinished.clear();
                put(&mut self.phase, Phase::NoMemory);
            }
        }
    }
}

// Takes the lines that end in a piece, and keeps what stands behind them.
fn take_piece<'f>(
    alloc: Global,
    f: &'f Formula,
    phase: &mut Phase<'f>,
    unfinished: &mut Vec<u8>,
    piece: &[u8],
) -> Result<(), Memory>
    requires well_formed { IsWellFormed f.now }
    requires lawful { IsLawful phase.old }
    requires one_line { HasNoEnd unfinished.old.items }
    ensures gives { OnOk result ((bytes : List ℕ) (answer : Answer)
        → Gives f.now phase.new (unfinished.new.items ++ bytes) answer
        → Gives f.now phase.old (unfinished.old.items ++ (piece.now ++ bytes)) answer) }
    ensures lawful { OnOk result (IsLawful phase.new) }
    ensures one_line { OnOk result (HasNoEnd unfinished.new.items) }
{
    let mut rest = piece;
    while let Some((line, behind)) = cut_line(rest) {
        take_next(alloc, f, phase, unfinished, line)?;
        rest = behind;
    }
    keep_rest(phase, unfinished, rest)?;
    pass_over(alloc, f, phase, unfinished)
}

// Keeps the bytes of a line whose LF didn't come yet, unless nothing that comes changes what is said.
fn keep_rest(phase: &Phase, unfinished: &mut Vec<u8>, rest: &[u8]) -> Result<(), Memory>
    requires begun { HasNoEnd unfinished.old.items }
    requires one_line { HasNoEnd rest.now }
    ensures gives { OnOk result ((f : Dqbf) (bytes : List ℕ) (answer : Answer)
        → Gives f phase.now (unfinished.new.items ++ bytes) answer
        → Gives f phase.now (unfinished.old.items ++ (rest.now ++ bytes)) answer) }
    ensures one_line { OnOk result (HasNoEnd unfinished.new.items) }
{
    if is_settled(phase) {
        return Ok(());
    }
    unfinished.extend_from_slice(rest)?;
    Ok(())
}

// The bytes before the first LF, and those behind it.
fn cut_line(bytes: &[u8]) -> Option<(&[u8], &[u8])>
    ensures { MatchOption result (HasNoEnd bytes.now)
        (λ parts. IsCut bytes.now parts.0.now parts.1.now) }
{
    match memchr(b'\n', bytes) {
        None => None,
        Some(end) => Some((&bytes[..end], &bytes[end + 1..])),
    }
}

// Takes a line whose LF came, and whose first bytes may have come before.
fn take_next<'f>(
    alloc: Global,
    f: &'f Formula,
    phase: &mut Phase<'f>,
    unfinished: &mut Vec<u8>,
    line: &[u8],
) -> Result<(), Memory>
    requires well_formed { IsWellFormed f.now }
    requires lawful { IsLawful phase.old }
    requires begun { HasNoEnd unfinished.old.items }
    requires one_line { HasNoEnd line.now }
    ensures gives { OnOk result (IsTaken f.now phase.old (unfinished.old.items ++ line.now) phase.new) }
    ensures lawful { OnOk result (IsLawful phase.new) }
    ensures taken { OnOk result (unfinished.new.items ≡ []) }
{
    if unfinished.is_empty() {
        return take_line(alloc, f, phase, line, true);
    }
    unfinished.extend_from_slice(line)?;
    take_line(alloc, f, phase, unfinished, true)?;
    unfinished.clear();
    Ok(())
}

// Takes a last line without LF, where the text ends here. Want of memory is kept, and told behind.
fn end_lines<'f>(alloc: Global, f: &'f Formula, phase: &mut Phase<'f>, unfinished: &[u8])
    requires well_formed { IsWellFormed f.now }
    requires lawful { IsLawful phase.old }
    requires one_line { HasNoEnd unfinished.now }
    ensures gives { (answer : Answer) → Gives f.now phase.new [] answer
        → Gives f.now phase.old unfinished.now answer }
    ensures lawful { IsLawful phase.new }
{
    match take_last_line(alloc, f, phase, unfinished) {
        Ok(()) => {}
        Err(Memory) => put(phase, Phase::NoMemory),
    }
}

// Takes a last line without LF, where the text ends here.
fn take_last_line<'f>(
    alloc: Global,
    f: &'f Formula,
    phase: &mut Phase<'f>,
    unfinished: &[u8],
) -> Result<(), Memory>
    requires well_formed { IsWellFormed f.now }
    requires lawful { IsLawful phase.old }
    requires one_line { HasNoEnd unfinished.now }
    ensures gives { OnOk result ((answer : Answer) → Gives f.now phase.new [] answer
        → Gives f.now phase.old unfinished.now answer) }
    ensures lawful { OnOk result (IsLawful phase.new) }
{
    if unfinished.is_empty() {
        return Ok(());
    }
    take_line(alloc, f, phase, unfinished, false)
}
