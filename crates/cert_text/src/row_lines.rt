//! The row lines of a refutation.

ghost use Rattle.std.specs.Prelude.{◌≡◌, ◌<◌, ◌++◌, ◌∷◌, [], pos, nat_abs, length, map, slice_set, All, Ok, IfOk, IfSome, IsTrue};
ghost use Rattle.std.specs.Int.{is_positive};
ghost use Rattle.std.specs.Str.{bytes_eq as same_numbers};
ghost use Rattle.dq_text.specs.Line.{line_tokens};
ghost use Rattle.dq_text.specs.Number.{number_of};
ghost use Rattle.dq_text.specs.declared.numbers.Number.TheVariants.{Int};
ghost use Rattle.cert_text.specs.LineStop.{IsLineOf, and_then};
ghost use Rattle.cert_text.specs.Numbers.{line_integers};
ghost use Rattle.cert_text.specs.SignsTaken.{IsSpelled};
ghost use Rattle.dq_text.specs.Written.{number_text};
ghost use Rattle.cert_text.specs.RowLine.{row_of, row_line};

use crate::faults::{CertFault, LineStop};
use crate::numbers::take_integers;
use crate::sign_words::take_sign;
use dq_lits::{Memory, Row};
use dq_text::{LineTokens, Number, is_word};
use flat_lists::FlatLists;
use std::alloc::Global;

/// The universals of rows, with the texts by which a line is compared with them.
#[derive(Clone, Copy)]
pub struct RowUniversals<'a> {
    pub variables: &'a [u64],
    /// Each of them with a space behind it.
    pub words: &'a FlatLists<u8>,
}

/// Reads the line of a row over these universals.
pub fn read_row(
    alloc: Global,
    universals: RowUniversals,
    line: &[u8],
    integers: &mut Vec<i64>,
) -> Result<Row, LineStop>
    requires spelled { All IsSpelled universals.variables.now }
    requires words { universals.words.now ≡ map number_text universals.variables.now }
    ensures { IsLineOf (row_line universals.entry.variables.now (line_tokens line.now)) result }
{
    match plain_row(alloc, universals, line)? {
        Some(row) => Ok(row),
        None => take_row(alloc, universals.variables, line, integers),
    }
}

// The row of a line that is as it should be, read in one pass. It answers none where the line isn't
// such a one, and maybe where it is.
fn plain_row(alloc: Global, universals: RowUniversals, line: &[u8]) -> Result<Option<Row>, Memory>
    requires spelled { All IsSpelled universals.variables.now }
    requires words { universals.words.now ≡ map number_text universals.variables.now }
    ensures { IfOk result
        (λ found.
        IfSome found
        (λ row. row_line universals.entry.variables.now (line_tokens line.now) ≡ Ok row)) }
{
    let Some(signs) = behind_letter(line) else {
        return Ok(None);
    };
    let mut row = Row::new(alloc, universals.variables.len())?;
    Ok(if take_signs(universals, signs, &mut row) {
        Some(row)
    } else {
        None
    })
}

// The bytes behind the letter of a row and a space.
fn behind_letter(line: &[u8]) -> Option<&[u8]>
    ensures { IfSome result (λ signs. line.now ≡ 117 ∷ 32 ∷ signs.now) }
{
    let (letter, rest) = line.split_first()?;
    if *letter != b'u' {
        return None;
    }
    let (space, signs) = rest.split_first()?;
    if *space != b' ' {
        return None;
    }
    Some(signs)
}

// Takes the universals in order, with signs, and then 0 and the end of the line; the signs are
// written into the row. By itself its loop stays in registers.
#[inline(never)]
fn take_signs(universals: RowUniversals, signs: &[u8], row: &mut Row) -> bool
    requires spelled { All IsSpelled universals.variables.now }
    requires words { universals.words.now ≡ map number_text universals.variables.now }
    requires whole { length row.old ≡ length universals.variables.now }
    ensures { IsTrue result
        → and_then (row_of universals.entry.variables.now) (line_integers (line_tokens signs.now))
        ≡ Ok row.new }
{
    let mut rest = signs;
    for i in 0..universals.words.len() {
        let Some((positive, behind)) = take_sign(universals.words.get(i), rest) else {
            return false;
        };
        put_sign(row, i, positive);
        rest = behind;
    }
    ends_row(&mut LineTokens::new(rest))
}

// Writes a sign, each with an instruction of its own: a sign is known where it is read.
#[inline(always)]
fn put_sign(row: &mut Row, i: usize, positive: bool)
    requires { i < length row.old }
    ensures { row.new ≡ slice_set row.old i positive }
{
    if positive {
        row.set(i, true);
    } else {
        row.set(i, false);
    }
}

// Takes 0 and the end of the line.
fn ends_row(tokens: &mut LineTokens) -> bool
    ensures { IsTrue result → map number_of tokens.old ≡ Int (pos 0) ∷ [] }
{
    match tokens.next_number() {
        Some(Number::Int(0)) => tokens.next().is_none(),
        _ => false,
    }
}

// Reads any line.
fn take_row(
    alloc: Global,
    universals: &[u64],
    line: &[u8],
    integers: &mut Vec<i64>,
) -> Result<Row, LineStop>
    ensures { IsLineOf (row_line universals.now (line_tokens line.now)) result }
{
    let mut tokens = LineTokens::new(line);
    match tokens.next() {
        Some(letter) if is_word(letter, b"u") => {}
        _ => return Err(LineStop::Fault(CertFault::BadLine)),
    }
    read_signs(alloc, universals, &mut tokens, integers)
}

/// Reads what stands behind the letter of a row over these variables: each of them with its sign,
/// and 0.
pub fn read_signs(
    alloc: Global,
    variables: &[u64],
    tokens: &mut LineTokens,
    integers: &mut Vec<i64>,
) -> Result<Row, LineStop>
    ensures { IsLineOf (and_then (row_of variables.now) (line_integers tokens.old)) result }
{
    take_integers(tokens, integers)?;
    row_from(alloc, variables, integers)
}

// The row of these numbers.
fn row_from(alloc: Global, universals: &[u64], numbers: &[i64]) -> Result<Row, LineStop>
    ensures { IsLineOf (row_of universals.now numbers.now) result }
{
    if !names_each(universals, numbers) {
        return Err(LineStop::Fault(CertFault::RowIncomplete));
    }
    Ok(signs(alloc, &numbers[..universals.len()])?)
}

// Whether the numbers are the universals in order, with signs, and then 0.
fn names_each(universals: &[u64], numbers: &[i64]) -> bool
    ensures { result ≡ same_numbers (map nat_abs numbers.now) (universals.now ++ 0 ∷ []) }
{
    let (mut universals, mut numbers) = (universals, numbers);
    while let Some((x, others)) = universals.split_first() {
        match numbers.split_first() {
            Some((n, behind)) if n.unsigned_abs() == *x => numbers = behind,
            _ => return false,
        }
        universals = others;
    }
    matches!(numbers, [0])
}

// A bit for each number: whether it is positive.
fn signs(alloc: Global, numbers: &[i64]) -> Result<Row, Memory>
    ensures { IfOk result (λ row. row ≡ map is_positive numbers.now) }
{
    let mut row = Row::new(alloc, numbers.len())?;
    for i in 0..numbers.len() {
        row.set(i, numbers[i] > 0);
    }
    Ok(row)
}
