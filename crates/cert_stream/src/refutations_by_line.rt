//! Refutations that come line by line.

ghost use Rattle.std.specs.Prelude.{◌≡◌, ◌+◌, [], is_some, Err, IfSome, IfNone, IfErr, OnOk, OnErr};
ghost use Rattle.dq_lits.specs.Formula.{Dqbf};
ghost use Rattle.cert_text.specs.Lines.{IsReading};
ghost use Rattle.cert_stream.specs.Bodies.{body_of, maybe_body, IsKept, IsReadAt};
ghost use Rattle.cert_stream.specs.ItemsToCome.{item_of};
ghost use Rattle.cert_stream.specs.KeptLines.{seen};
ghost use Rattle.cert_stream.specs.LineAnswer.{IsLineAnswer};
ghost use Rattle.cert_stream.specs.RefutationLines.{no_lines, body_gives, gives, line_read, lines_give, rows_of, rows_so_far, with_line, with_stop, IsBody, MayCome};

use crate::bodies::{Body, let_go, take_line};
use cert_text::laws::lines_are_lawful;
use cert_text::{CertFault, CertStop, Item, at_line, refused};
use dq_formula::Formula;
use dq_lits::{Row, RowList};
use std::alloc::Global;
use std::marker::Model;

/// Reads an expansion refutation for a formula line by line, from its header line on.
///
/// It keeps the rows and which ids are live. An item of the proof stands in its buffers until the
/// next line comes. Behind a line that is refused, or where memory wanted, it keeps nothing, and
/// answers the same from then on. A line with the number 2^64 - 1 finds no memory.
#[derive(Drop)]
pub struct DqrLines<'f> {
    alloc: Global,
    formula: &'f Formula,
    number: u64,
    body: Option<Body>,
    stopped: Option<CertStop>,
}

impl<'f> Model for DqrLines<'f> {
    ghost use Rattle.cert_stream.specs.KeptLines.{KeptLines};
    ghost use Rattle.cert_stream.specs.DqrLinesInside.{lines_in, IsReader};

    ghost Value = { KeptLines };

    ghost view = { lines_in };

    ghost invariant = { IsReader };
}

impl<'f> DqrLines<'f> {
    /// Before the header line, which has the number `first`. It takes no memory.
    pub fn new(alloc: Global, f: &'f Formula, first: u64) -> DqrLines<'f>
        ensures { seen result ≡ no_lines f.now first }
    {
        DqrLines {
            alloc,
            formula: f,
            number: first,
            body: None,
            stopped: None,
        }
    }

    /// Reads the next line, which has no LF at its end: what it is stands in `item` and in `rows`.
    pub fn line(&mut self, text: &[u8]) -> Result<(), CertStop>
        ensures line { IfNone self.old.stopped
            (IsLineAnswer (with_line (seen self.old) text.now) self.old.number result
            (seen self.new)) }
        ensures stopped { IfSome self.old.stopped (λ stop. result ≡ Err stop) }
        ensures stops { IfErr result (λ stop. seen self.new ≡ with_stop (seen self.old) stop) }
        ensures item { IfSome self.new.item (MayCome self.old.formula (seen self.old).body) }
    {
        lines_are_lawful();
        if let Some(stop) = self.stopped {
            return Err(stop);
        }
        match count_line(
            self.alloc,
            self.formula,
            &mut self.number,
            &mut self.body,
            text,
        ) {
            Ok(()) => Ok(()),
            Err(stop) => {
                let_go(&mut self.body);
                self.stopped = Some(stop);
                Err(stop)
            }
        }
    }

    /// The item that the last line was, if it is one of the proof's.
    pub fn item(&self) -> Option<Item<'_>>
        ensures { item_of result ≡ self.now.item }
    {
        match &self.body {
            Some(body) => body.items.item(),
            None => None,
        }
    }

    /// The rows that were read.
    pub fn rows(&self) -> &[Row]
        ensures { result.now ≡ rows_so_far (seen self.now).body }
    {
        match &self.body {
            Some(body) => body.rows.items(),
            None => &[],
        }
    }

    /// The rows, where the text ends here: it answers whether all announced lines came.
    pub fn end(self) -> Result<RowList, CertStop>
        ensures end { IfNone self.entry.stopped
            (IsReading (rows_of (lines_give (seen self.entry) [])) result) }
        ensures stopped { IfSome self.entry.stopped (λ stop. result ≡ Err stop) }
    {
        if let Some(stop) = self.stopped {
            return Err(stop);
        }
        finish(self.number, self.body)
    }

    /// Whether a line was refused, or memory wanted: then no line is read any more.
    pub fn is_stopped(&self) -> bool
        ensures { result ≡ is_some self.now.stopped }
    {
        self.stopped.is_some()
    }

    /// What holds of every reader behind the header.
    pub fn every_reader_is_lawful(&self)
        ensures { IfSome (seen self.now).body (IsBody self.now.formula) }
    {
        // A look at a field shows the invariant.
        let _ = &self.number;
    }
}

// Reads the line with a number, and counts it.
fn count_line(
    alloc: Global,
    f: &Formula,
    number: &mut u64,
    body: &mut Option<Body>,
    text: &[u8],
) -> Result<(), CertStop>
    requires kept { IfSome body.old (IsKept f.now) }
    ensures line { IsReadAt (line_read f.now (maybe_body body.old) text.now) number.old
        result body.new }
    ensures number { OnOk result (number.new ≡ number.old + 1) }
    ensures err { OnErr result (number.new ≡ number.old) }
    ensures kept { OnOk result (IfSome body.new (IsKept f.now)) }
{
    let Some(next) = number.checked_add(1) else {
        return Err(CertStop::Memory);
    };
    match take_line(alloc, f, body, text) {
        Ok(()) => {
            *number = next;
            Ok(())
        }
        Err(stop) => Err(at_line(*number, stop)),
    }
}

// The rows, where the text ends.
fn finish(number: u64, body: Option<Body>) -> Result<RowList, CertStop>
    ensures { (f : Dqbf) → IsReading (rows_of (gives f (maybe_body body) [] number)) result }
{
    match body {
        None => Err(refused(number, CertFault::BadHeader)),
        Some(body) => rows_at_end(number, body),
    }
}

// The same behind the header.
fn rows_at_end(number: u64, body: Body) -> Result<RowList, CertStop>
    ensures { (f : Dqbf) → IsReading (rows_of (body_gives f (body_of body) [] number)) result }
{
    if body.rows_left > 0 {
        return Err(refused(number, CertFault::Truncated));
    }
    if body.items.left > 0 {
        return Err(refused(number, CertFault::Truncated));
    }
    Ok(body.rows)
}
