//! Lists of rows.

ghost use Rattle.std.specs.Prelude.{◌≡◌, map, All};
ghost use Rattle.dq_text.specs.Written.{number_text};
ghost use Rattle.cert_text.specs.SignsTaken.{IsSpelled};
ghost use Rattle.cert_text.specs.Lines.{IsReadingUpTo, IsReadInto, put_behind, read_from};
ghost use Rattle.cert_text.specs.Scan.{row_lines};

use crate::faults::{CertFault, CertStop, at_line, refused};
use crate::row_lines::{RowUniversals, read_row};
use crate::sign_words::universal_words;
use dq_lits::RowList;
use dq_text::Lines;
use std::alloc::Global;

/// Reads the next lines, so many, as rows over these universals.
pub fn read_rows(
    alloc: Global,
    universals: &[u64],
    count: u64,
    lines: &mut Lines,
) -> Result<RowList, CertStop>
    requires { All IsSpelled universals.now }
    ensures { IsReadingUpTo (read_from (row_lines universals.now) tt count lines.old) result
        lines.new }
{
    let mut rows = RowList::new(alloc);
    let words = universal_words(alloc, universals)?;
    let universals = RowUniversals {
        variables: universals,
        words: &words,
    };
    take_rows(alloc, universals, count, lines, &mut rows)?;
    Ok(rows)
}

// Puts the rows behind those that were read.
fn take_rows(
    alloc: Global,
    universals: RowUniversals,
    count: u64,
    lines: &mut Lines,
    rows: &mut RowList,
) -> Result<(), CertStop>
    requires spelled { All IsSpelled universals.variables.now }
    requires words { universals.words.now ≡ map number_text universals.variables.now }
    ensures { IsReadInto
        (put_behind rows.old (read_from (row_lines universals.entry.variables.now) tt count lines.old)) result
        rows.new lines.new }
{
    let mut integers = Vec::new(alloc);
    for k in 0..count {
        let Some(line) = lines.next() else {
            return Err(refused(lines.number(), CertFault::Truncated));
        };
        match read_row(alloc, universals, line.text, &mut integers) {
            Ok(row) => rows.push(row)?,
            Err(stop) => return Err(at_line(line.number, stop)),
        }
    }
    Ok(())
}
