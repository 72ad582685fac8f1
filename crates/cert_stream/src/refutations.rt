//! Refutations that are judged line by line.

ghost use Rattle.std.specs.Prelude.{◌≡◌, ◌∷◌, ◌+◌, ℕ, true, false, List, [], length, Option, Some, Result, OnOk, IfNone, IfOk, IfSome, IsSome};
ghost use Rattle.dq_lits.specs.Derivation.{ProofFault as Fault};
ghost use Rattle.dq_lits.specs.Expansion.{instance_at};
ghost use Rattle.dq_text.specs.Line.{TextLine};
ghost use Rattle.cert_text.specs.Grammar.{IsItem};
ghost use Rattle.cert_text.specs.Items.{item_seen};
ghost use Rattle.cert_text.specs.Lines.{IsReading};
ghost use Rattle.cert_text.specs.Numbering.{behind_item, numbered_from};
ghost use Rattle.cert_text.specs.Pairs.{is_pair_number};
ghost use Rattle.cert_text.specs.Scan.{first_id, read_lines};
ghost use Rattle.cert_text.specs.declared.faults.CertStop.{CertStop as Stop};
ghost use Rattle.refutation_checker.specs.Proving.{AreRows, IsJudging};
ghost use Rattle.refutation_checker.specs.Refutation.{normal_item};
ghost use Rattle.rup_core.specs.Runs.{start, with_item};
ghost use Rattle.cert_stream.specs.RefutationInside.{GoesOn, HasRun};
ghost use Rattle.cert_stream.specs.RefutationState.{answer_in, judged_whole, IsFaultOf, MayAnswer};

use crate::laws::refutations_are_read_by_line;
use crate::refutations_by_line::DqrLines;
use cert_text::{CertStop, Item};
use dq_formula::Formula;
use dq_lits::{Memory, Row};
use refutation_checker::RefutationProving;
use rup_core::ProofFault;
use std::alloc::Global;
use std::marker::Model;

/// Judges an expansion refutation for a formula line by line, from its header line on.
///
/// It holds the rows, which ids are live, and the lines that are live. What stops it is told at the
/// end.
#[derive(Drop)]
pub struct RefutationStream<'f> {
    alloc: Global,
    formula: &'f Formula,
    lines: DqrLines<'f>,
    proving: Option<RefutationProving>,
    failed: bool,
}

impl<'f> Model for RefutationStream<'f> {
    ghost use Rattle.refutation_checker.specs.Proving.{AreRows, IsJudging};
    ghost use Rattle.refutation_checker.specs.Refutation.{normal_item};
    ghost use Rattle.rup_core.specs.Runs.{start, with_item};
    ghost use Rattle.cert_stream.specs.RefutationInside.{state_in, IsStream};
    ghost use Rattle.cert_stream.specs.RefutationState.{RefutationState};

    ghost Value = { RefutationState };

    ghost view = { state_in };

    ghost invariant = { IsStream };
}

impl<'f> RefutationStream<'f> {
    /// Before the header line, which has the number `first`. It takes no memory.
    pub fn new(alloc: Global, f: &'f Formula, first: u64) -> RefutationStream<'f>
        ensures answer { (lines : List TextLine) (answer : Result (Option Fault) Stop)
            → MayAnswer result lines answer
            → IsReading (judged_whole f.now (read_lines f.now lines first)) answer }
        ensures number { result.lines.number ≡ first }
    {
        RefutationStream {
            alloc,
            formula: f,
            lines: DqrLines::new(alloc, f, first),
            proving: None,
            failed: false,
        }
    }

    /// Takes the next line, which has no LF at its end.
    pub fn line(&mut self, text: &[u8])
        ensures answer { (behind : List ℕ) (lines : List TextLine)
            (answer : Result (Option Fault) Stop)
            → MayAnswer self.new lines answer
            → MayAnswer self.old (record {
              text = text.now;
              number = self.old.lines.number;
              behind = behind;
            } ∷ lines) answer }
        ensures number { self.new.failed ≡ false
            → IfNone self.new.lines.stopped (self.new.lines.number ≡ self.old.lines.number + 1) }
    {
        refutations_are_read_by_line();
        if self.failed {
            return;
        }
        match self.lines.line(text) {
            Ok(()) => {}
            Err(_) => return,
        }
        match judge_item(self.alloc, self.formula, &self.lines, &mut self.proving) {
            Ok(()) => {}
            Err(Memory) => self.failed = true,
        }
    }

    /// Whether no line that comes changes what is said.
    pub fn is_settled(&self) -> bool
        ensures { result ≡ true → (some other : List TextLine) (answer : Result (Option Fault) Stop)
            → MayAnswer self.now some answer → MayAnswer self.now other answer }
    {
        if self.failed {
            return true;
        }
        self.lines.is_stopped()
    }

    /// What is wrong with the refutation, where the text ends here, or what stopped its reading.
    pub fn end(self) -> Result<Option<ProofFault>, CertStop>
        ensures { MayAnswer self.entry [] (answer_in result) }
    {
        if self.failed {
            return Err(CertStop::Memory);
        }
        let fault = fault_of(&self.proving);
        match self.lines.end() {
            Ok(_rows) => Ok(fault),
            Err(stop) => Err(stop),
        }
    }
}

// What is wrong with what was judged, if anything was.
fn fault_of(proving: &Option<RefutationProving>) -> Option<ProofFault>
    ensures { IsFaultOf proving.now result }
{
    match proving {
        Some(proving) => proving.fault(),
        None => Some(ProofFault::Unfinished),
    }
}

// Judges the item that the last line was, if it is one.
fn judge_item(
    alloc: Global,
    f: &Formula,
    lines: &DqrLines,
    proving: &mut Option<RefutationProving>,
) -> Result<(), Memory>
    requires formula { lines.now.formula ≡ f.now }
    requires run { HasRun lines.now proving.old }
    ensures { OnOk result (GoesOn lines.now proving.old proving.new) }
{
    match lines.item() {
        Some(item) => judge(alloc, f, lines, item, proving),
        None => Ok(()),
    }
}

// Judges an item.
fn judge(
    alloc: Global,
    f: &Formula,
    lines: &DqrLines,
    item: Item,
    proving: &mut Option<RefutationProving>,
) -> Result<(), Memory>
    requires formula { lines.now.formula ≡ f.now }
    requires item { lines.now.item ≡ Some (item_seen item) }
    requires run { HasRun lines.now proving.old }
    ensures { OnOk result (GoesOn lines.now proving.old proving.new) }
{
    lines.every_reader_is_lawful();
    let rows = lines.rows();
    match proving {
        Some(proving) => proving.item(f, rows, item),
        None => judge_first(alloc, f, rows, item, proving),
    }
}

// Judges the first item, and keeps what was judged. It isn't written where it is called, since a
// call pays for what it may have in hand.
fn judge_first(
    alloc: Global,
    f: &Formula,
    rows: &[Row],
    item: Item,
    proving: &mut Option<RefutationProving>,
) -> Result<(), Memory>
    requires rows { AreRows f.now rows.now }
    requires item { IsItem (is_pair_number f.now (length rows.now))
        (numbered_from (first_id f.now (length rows.now))) (item_seen item) }
    ensures some { OnOk result (IsSome proving.new) }
    ensures judging { OnOk result (IfSome proving.new (λ p. IsJudging f.now rows.now p
        (behind_item (numbered_from (first_id f.now (length rows.now))) (item_seen item.entry))
        (with_item (start (instance_at f.now rows.now))
        (normal_item f.now rows.now (item_seen item.entry))))) }
{
    *proving = Some(first_judged(alloc, f, rows, item)?);
    Ok(())
}

// Judges the first item.
fn first_judged(
    alloc: Global,
    f: &Formula,
    rows: &[Row],
    item: Item,
) -> Result<RefutationProving, Memory>
    requires rows { AreRows f.now rows.now }
    requires item { IsItem (is_pair_number f.now (length rows.now))
        (numbered_from (first_id f.now (length rows.now))) (item_seen item) }
    ensures { IfOk result (λ p. IsJudging f.now rows.now p
        (behind_item (numbered_from (first_id f.now (length rows.now))) (item_seen item.entry))
        (with_item (start (instance_at f.now rows.now))
        (normal_item f.now rows.now (item_seen item.entry)))) }
{
    let mut proving = RefutationProving::new(alloc, f, rows)?;
    proving.item(f, rows, item)?;
    Ok(proving)
}
