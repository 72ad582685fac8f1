//! A refutation behind its header, line by line.
//!
//! An item stands in the buffers until the next line: a line takes no block of memory, and the rows
//! can be looked at beside it. Contracts see a mark for each line of the proof (`KeptLines`).

ghost use Rattle.std.specs.Prelude.{◌≡◌, ◌<◌, None, Ok, IfOk, IfSome, OnOk};
ghost use Rattle.dq_text.specs.Line.{line_tokens};
ghost use Rattle.cert_text.specs.Header.{header_of};
ghost use Rattle.cert_text.specs.HeaderCounts.{AreSmall};
ghost use Rattle.cert_text.specs.ItemLine.{item_line};
ghost use Rattle.cert_text.specs.LineStop.{IsMadeOf, and_then};
ghost use Rattle.cert_text.specs.Pairs.{is_pair_number};
ghost use Rattle.cert_text.specs.RowLine.{row_line};
ghost use Rattle.cert_stream.specs.Bodies.{body_of, body_read, maybe_body, IsBegun, IsKept, IsReadBody};
ghost use Rattle.cert_stream.specs.RefutationLines.{body_behind, body_line, line_read, with_item_read, with_row, without_item};

use crate::items_to_come::ItemsToCome;
use cert_text::laws::lines_are_lawful;
use cert_text::{
    CertFault, LineStop, Pairs, RowUniversals, RowsAndItems, Variables, first_id, read_header,
    read_row, universal_words,
};
use dq_formula::Formula;
use dq_lits::{Memory, RowList};
use dq_text::is_blank;
use flat_lists::FlatLists;
use std::alloc::Global;

/// What was read behind the header.
#[derive(Drop)]
pub(crate) struct Body {
    // The universals' texts, by which lines are compared with them.
    pub words: FlatLists<u8>,
    // A buffer for a row's numbers.
    pub integers: Vec<i64>,
    pub rows: RowList,
    /// How many rows the header announces, and how many of them are to come.
    pub row_count: u64,
    pub rows_left: u64,
    pub items: ItemsToCome,
}

/// Reads the next line of a refutation, the header's first.
pub(crate) fn take_line(
    alloc: Global,
    f: &Formula,
    body: &mut Option<Body>,
    line: &[u8],
) -> Result<(), LineStop>
    requires kept { IfSome body.old (IsKept f.now) }
    ensures line { IsReadBody (line_read f.now (maybe_body body.old) line.now) result
        body.new }
    ensures kept { OnOk result (IfSome body.new (IsKept f.now)) }
{
    match body {
        Some(body) => body.take(alloc, f, line),
        None => take_header(alloc, f, body, line),
    }
}

/// Keeps nothing of what was read. Like `take_header`, it isn't written where it is called, since a
/// call pays for each body that it may have in hand.
pub(crate) fn let_go(body: &mut Option<Body>)
    ensures { body.new ≡ None }
{
    *body = None;
}

// Reads the header, and keeps what it begins.
fn take_header(
    alloc: Global,
    f: &Formula,
    body: &mut Option<Body>,
    line: &[u8],
) -> Result<(), LineStop>
    ensures line { IsReadBody (and_then (λ counts. Ok (without_item (body_behind f.now counts)))
        (header_of (line_tokens line.now))) result body.new }
    ensures kept { OnOk result (IfSome body.new (IsKept f.now)) }
{
    *body = Some(begin(alloc, f, line)?);
    Ok(())
}

// Reads the header.
fn begin(alloc: Global, f: &Formula, line: &[u8]) -> Result<Body, LineStop>
    ensures line { IsBegun (and_then (λ counts. Ok (without_item (body_behind f.now counts)))
        (header_of (line_tokens line.now))) result }
    ensures kept { IfOk result (IsKept f.now) }
{
    let counts = read_header(line)?;
    Ok(Body::new(alloc, f, counts)?)
}

impl Body {
    // Nothing was read behind the header.
    fn new(alloc: Global, f: &Formula, counts: RowsAndItems) -> Result<Body, Memory>
        requires small { AreSmall counts }
        ensures body { IfOk result (λ body. body_of body ≡ body_behind f.now counts) }
        ensures item { IfOk result (λ body. body.items.read ≡ None) }
        ensures kept { IfOk result (IsKept f.now) }
    {
        let words = universal_words(alloc, f.universals())?;
        let id = first_id(f, counts.rows);
        Ok(Body {
            words,
            integers: Vec::new(alloc),
            rows: RowList::new(alloc),
            row_count: counts.rows,
            rows_left: counts.rows,
            items: ItemsToCome::new(alloc, counts.version, id, counts.items),
        })
    }

    // Reads the next line behind the header.
    fn take(&mut self, alloc: Global, f: &Formula, line: &[u8]) -> Result<(), LineStop>
        requires kept { IsKept f.now self.old }
        ensures line { IsMadeOf (body_line f.now (body_of self.old) line.now) result
            (body_read self.new) }
        ensures kept { OnOk result (IsKept f.now self.new) }
    {
        self.items.read = None;
        if self.rows_left > 0 {
            self.take_row(alloc, f, line)
        } else if self.items.left > 0 {
            self.take_item(f, line)
        } else if is_blank(line) {
            Ok(())
        } else {
            Err(LineStop::Fault(CertFault::BadLine))
        }
    }

    // Reads the line of a row.
    fn take_row(&mut self, alloc: Global, f: &Formula, line: &[u8]) -> Result<(), LineStop>
        requires kept { IsKept f.now self.old }
        requires some { 0 < self.old.rows_left }
        requires item { self.old.items.read ≡ None }
        ensures line { IsMadeOf (and_then (λ row. Ok (with_row (body_of self.old) row))
            (row_line f.now.universals (line_tokens line.now))) result (body_read self.new) }
        ensures kept { OnOk result (IsKept f.now self.new) }
    {
        lines_are_lawful();
        f.every_formula_is_lawful();
        let universals = RowUniversals {
            variables: f.universals(),
            words: &self.words,
        };
        let row = read_row(alloc, universals, line, &mut self.integers)?;
        self.rows.push(row)?;
        self.rows_left -= 1;
        Ok(())
    }

    // Reads a line of the proof.
    fn take_item(&mut self, f: &Formula, line: &[u8]) -> Result<(), LineStop>
        requires kept { IsKept f.now self.old }
        requires some { 0 < self.old.items.left }
        ensures line { IsMadeOf (and_then (λ item. Ok (with_item_read (body_of self.old) item))
            (item_line (body_of self.old).version (is_pair_number f.now self.old.row_count)
            (body_of self.old).numbering (line_tokens line.now))) result (body_read self.new) }
        ensures kept { OnOk result (IsKept f.now self.new) }
    {
        let pairs = Variables::Pairs(Pairs {
            formula: f,
            rows: self.row_count,
        });
        self.items.take(pairs, line)
    }
}
