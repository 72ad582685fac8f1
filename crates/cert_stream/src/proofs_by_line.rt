//! Circuits' proofs that come line by line.

ghost use Rattle.std.specs.Prelude.{◌≡◌, ℕ, ◌+◌, ◌<◌, ◌^◌, true, [], is_some, Err, None, IfSome, IfNone, IfErr, OnOk, OnErr};
ghost use Rattle.cert_text.specs.LineStop.{IsMadeOf};
ghost use Rattle.cert_text.specs.Lines.{IsReading};
ghost use Rattle.cert_stream.specs.DqpLinesInside.{body_of, body_read, maybe_body, IsKept, IsReadAt, IsReadInto};
ghost use Rattle.cert_stream.specs.ItemsToCome.{item_of};
ghost use Rattle.cert_stream.specs.KeptLines.{proof_seen};
ghost use Rattle.cert_stream.specs.LineAnswer.{IsLineAnswer};
ghost use Rattle.cert_stream.specs.ProofLines.{no_lines, body_line, gives, line_read, lines_give, whole_of, with_line, with_stop, HaveAllCome, IsBody, MayCome};

use crate::items_to_come::ItemsToCome;
use cert_text::laws::lines_are_lawful;
use cert_text::{
    CertFault, CertStop, Item, LineStop, Variables, at_line, first_proof_id, last_variable,
    read_proof_header, refused,
};
use circuit_plain::Circuit;
use dq_formula::Formula;
use std::alloc::Global;
use std::marker::Model;

/// Reads a circuit's proof line by line, from the line `dqp N` or `dqp2 N` on. What stands behind the N
/// lines is free text.
///
/// It keeps which ids are live. An item of the proof stands in its buffers until the next line
/// comes. Behind a line that is refused, or where memory wanted, it keeps nothing, and answers the
/// same from then on. A line with the number 2^64 - 1 finds no memory.
#[derive(Drop)]
pub struct DqpLines {
    alloc: Global,
    last_variable: u64,
    first_id: u128,
    number: u64,
    items: Option<ItemsToCome>,
    stopped: Option<CertStop>,
}

impl Model for DqpLines {
    ghost use Rattle.cert_stream.specs.KeptLines.{KeptProofLines};
    ghost use Rattle.cert_stream.specs.DqpLinesInside.{lines_in, IsReader};

    ghost Value = { KeptProofLines };

    ghost view = { lines_in };

    ghost invariant = { IsReader };
}

impl DqpLines {
    /// Before the header line of a proof for a formula and a circuit, which has the number `first`. It
    /// takes no memory.
    pub fn new(alloc: Global, f: &Formula, c: &Circuit, first: u64) -> DqpLines
        ensures { proof_seen result ≡ no_lines f.now c.now first }
    {
        DqpLines {
            alloc,
            last_variable: last_variable(f, c),
            first_id: first_proof_id(f, c),
            number: first,
            items: None,
            stopped: None,
        }
    }

    /// Reads the next line, which has no LF at its end: what it is stands in `item`.
    pub fn line(&mut self, text: &[u8]) -> Result<(), CertStop>
        ensures line { IfNone self.old.stopped
            (IsLineAnswer (with_line (proof_seen self.old) text.now) self.old.number result
            (proof_seen self.new)) }
        ensures stopped { IfSome self.old.stopped (λ stop. result ≡ Err stop) }
        ensures stops { IfErr result
            (λ stop. proof_seen self.new ≡ with_stop (proof_seen self.old) stop) }
        ensures item { IfSome self.new.item
            (MayCome self.old.last_variable (proof_seen self.old).body) }
    {
        lines_are_lawful();
        if let Some(stop) = self.stopped {
            return Err(stop);
        }
        match count_line(
            self.alloc,
            self.last_variable,
            self.first_id,
            &mut self.number,
            &mut self.items,
            text,
        ) {
            Ok(()) => Ok(()),
            Err(stop) => {
                let_go(&mut self.items);
                self.stopped = Some(stop);
                Err(stop)
            }
        }
    }

    /// The item that the last line was, if it is one of the proof's.
    pub fn item(&self) -> Option<Item<'_>>
        ensures { item_of result ≡ self.now.item }
    {
        match &self.items {
            Some(items) => items.item(),
            None => None,
        }
    }

    /// Whether all announced lines came, where the text ends here.
    pub fn end(self) -> Result<(), CertStop>
        ensures end { IfNone self.stopped (IsReading (whole_of (lines_give (proof_seen self) [])) result) }
        ensures stopped { IfSome self.stopped (λ stop. result ≡ Err stop) }
    {
        if let Some(stop) = self.stopped {
            return Err(stop);
        }
        finish(self.number, self.items)
    }

    /// Whether a line was refused, or memory wanted: then no line is read any more.
    pub fn is_stopped(&self) -> bool
        ensures { result ≡ is_some self.now.stopped }
    {
        self.stopped.is_some()
    }

    /// Whether all announced lines came, so that what follows is free text.
    pub fn have_all_come(&self) -> bool
        ensures { result ≡ true → HaveAllCome (proof_seen self.now).body }
    {
        match &self.items {
            Some(items) => items.left == 0,
            None => false,
        }
    }

    /// What holds of every reader behind the header.
    pub fn every_reader_is_lawful(&self)
        ensures { IfSome (proof_seen self.now).body (IsBody self.now.first_id) }
    {
        // A look at a field shows the invariant.
        let _ = &self.number;
    }
}

// Reads the line with a number, and counts it.
fn count_line(
    alloc: Global,
    last: u64,
    first_id: u128,
    number: &mut u64,
    items: &mut Option<ItemsToCome>,
    text: &[u8],
) -> Result<(), CertStop>
    requires small { first_id < 2 ^ 127 }
    requires kept { IfSome items.old (IsKept first_id) }
    ensures line { IsReadAt (line_read last first_id (maybe_body items.old) text.now)
        number.old result items.new }
    ensures number { OnOk result (number.new ≡ number.old + 1) }
    ensures err { OnErr result (number.new ≡ number.old) }
    ensures kept { OnOk result (IfSome items.new (IsKept first_id)) }
{
    let Some(next) = number.checked_add(1) else {
        return Err(CertStop::Memory);
    };
    match take_line(alloc, last, first_id, items, text) {
        Ok(()) => {
            *number = next;
            Ok(())
        }
        Err(stop) => Err(at_line(*number, stop)),
    }
}

// Reads the next line, the header first.
fn take_line(
    alloc: Global,
    last: u64,
    first_id: u128,
    items: &mut Option<ItemsToCome>,
    text: &[u8],
) -> Result<(), LineStop>
    requires small { first_id < 2 ^ 127 }
    requires kept { IfSome items.old (IsKept first_id) }
    ensures line { IsReadInto (line_read last first_id (maybe_body items.old) text.now)
        result items.new }
    ensures kept { OnOk result (IfSome items.new (IsKept first_id)) }
{
    match items {
        Some(items) => take_behind(last, items, text),
        None => take_header(alloc, first_id, items, text),
    }
}

// Reads the header. Like `let_go`, it isn't written where it is called, since a call pays for what
// it may have in hand.
fn take_header(
    alloc: Global,
    first_id: u128,
    items: &mut Option<ItemsToCome>,
    text: &[u8],
) -> Result<(), LineStop>
    requires small { first_id < 2 ^ 127 }
    ensures line { (last : ℕ) → IsReadInto (line_read last first_id None text.now) result items.new }
    ensures kept { OnOk result (IfSome items.new (IsKept first_id)) }
{
    let count = read_proof_header(text)?;
    *items = Some(ItemsToCome::new(alloc, count.version, first_id, count.items));
    Ok(())
}

// Keeps nothing of what was read.
fn let_go(items: &mut Option<ItemsToCome>)
    ensures { items.new ≡ None }
{
    *items = None;
}

// Reads the next line behind the header.
fn take_behind(last: u64, items: &mut ItemsToCome, text: &[u8]) -> Result<(), LineStop>
    requires small { items.old.ids.first < 2 ^ 127 }
    ensures line { IsMadeOf (body_line last (body_of items.old) text.now) result
        (body_read items.new) }
    ensures first { OnOk result (items.new.ids.first ≡ items.old.ids.first) }
{
    items.read = None;
    if items.left > 0 {
        items.take(Variables::UpTo(last), text)
    } else {
        Ok(())
    }
}

// Whether all lines came, where the text ends.
fn finish(number: u64, items: Option<ItemsToCome>) -> Result<(), CertStop>
    ensures { (last first_id : ℕ)
        → IsReading (whole_of (gives last first_id (maybe_body items) [] number)) result }
{
    match items {
        None => Err(refused(number, CertFault::BadHeader)),
        Some(items) if items.left > 0 => Err(refused(number, CertFault::Truncated)),
        Some(_) => Ok(()),
    }
}
