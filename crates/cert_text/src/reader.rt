//! Reading a refutation.

ghost use Rattle.std.specs.Prelude.{◌≡◌, ◌+◌, ◌<◌, ◌^◌, ◌≤◌, length, IfOk};
ghost use Rattle.dq_text.specs.Line.{lines_from};
ghost use Rattle.cert_text.specs.Grammar.{IsDqrOf};
ghost use Rattle.cert_text.specs.HeaderCounts.{AreSmall};
ghost use Rattle.cert_text.specs.Lines.{IsReading};
ghost use Rattle.cert_text.specs.Scan.{blank_lines, first_id, read_body, refutation_of};

use crate::faults::{CertFault, CertRefusal, CertStop, refused};
use crate::headers::{MAX_COUNT, RowsAndItems, read_header};
use crate::item_lines::ProofLines;
use crate::item_lists::{Announced, read_items};
use crate::pairs::Pairs;
use crate::refutations::Dqr;
use crate::row_lists::read_rows;
use crate::variables::Variables;
use dq_formula::Formula;
use dq_text::{Lines, is_blank};
use std::alloc::Global;

/// Reads an expansion refutation for a formula, from its header line on, which has the number
/// `first`: exactly the refutation that the text spells, or its first fault by line and name.
pub fn read_dqr(alloc: Global, bytes: &[u8], first: u64, f: &Formula) -> Result<Dqr, CertStop>
    requires { first + length bytes.now < 2 ^ 64 }
    ensures reading { IsReading (refutation_of f.now bytes.now first) result }
    ensures allowed { IfOk result (IsDqrOf f.now) }
{
    let mut lines = Lines::new(bytes, first);
    let Some(line) = lines.next() else {
        return Err(refused(first, CertFault::BadHeader));
    };
    let counts = match read_header(line.text) {
        Ok(counts) => counts,
        Err(name) => return Err(refused(line.number, name)),
    };
    read_body(alloc, f, counts, &mut lines)
}

// Reads the lines behind the header.
fn read_body(
    alloc: Global,
    f: &Formula,
    counts: RowsAndItems,
    lines: &mut Lines,
) -> Result<Dqr, CertStop>
    requires { AreSmall counts }
    ensures { IsReading
        (read_body f.now counts (lines_from lines.old.number lines.old.rest) lines.old.number)
        result }
{
    f.every_formula_is_lawful();
    let rows = read_rows(alloc, f.universals(), counts.rows, lines)?;
    let variables = Variables::Pairs(Pairs {
        formula: f,
        rows: counts.rows,
    });
    let id = first_id(f, counts.rows);
    let announced = Announced {
        lines: ProofLines {
            version: counts.version,
            variables,
        },
        first_id: id,
        count: counts.items,
    };
    let items = read_items(alloc, &announced, lines)?;
    read_blank_lines(lines)?;
    Ok(Dqr { rows, items })
}

/// The id of the first line of a refutation's proof, behind the instances of the clauses under so many
/// rows.
pub fn first_id(f: &Formula, rows: u64) -> u128
    requires { rows ≤ MAX_COUNT }
    ensures id { result ≡ first_id f.now rows }
    ensures from_one { 1 ≤ result }
    ensures small { result < 2 ^ 127 }
{
    rows as u128 * f.clauses() as u128 + 1
}

/// Reads the lines that are left, which have to be blank, and refuses the first that isn't.
pub fn read_blank_lines(lines: &mut Lines) -> Result<(), CertRefusal>
    ensures { result ≡ blank_lines (lines_from lines.old.number lines.old.rest) }
{
    while let Some(line) = lines.next() {
        if !is_blank(line.text) {
            return Err(CertRefusal {
                line: line.number,
                name: CertFault::BadLine,
            });
        }
    }
    Ok(())
}
