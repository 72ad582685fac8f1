//! Rows and values as numbers.

ghost use Rattle.std.specs.Prelude.{◌≡◌, length, IfOk};

use crate::shown::push_signed;
use anyhow::{Result, anyhow};
use dq_formula::Formula;
use dq_lits::Row;
use std::alloc::Global;

/// The row in which these literals are true.
pub fn row_of(alloc: Global, f: &Formula, text: &str) -> Result<Row>
    ensures { IfOk result (λ row. length row ≡ length f.now.universals) }
{
    let mut row = Row::new(alloc, f.universals().len())?;
    for word in text.split_whitespace() {
        let number: i64 = word.parse()?;
        match f.universal_place(number.unsigned_abs()) {
            Some(place) if place < row.len() => row.set(place, number > 0),
            _ => return Err(anyhow!("no universal: {word}")),
        }
    }
    Ok(row)
}

/// Writes variables with the signs of their bits.
pub fn push_bits(alloc: Global, variables: &[u64], row: &Row, printed: &mut String) -> Result<()> {
    for (place, variable) in variables.iter().enumerate() {
        if place < row.len() {
            push_signed(alloc, *variable, !row.get(place), printed)?;
        }
    }
    Ok(())
}

/// The row of this number: its bits, the lowest one first.
pub fn row_at(alloc: Global, count: usize, number: u64) -> Result<Row>
    ensures { IfOk result (λ row. length row ≡ count) }
{
    let mut row = Row::new(alloc, count)?;
    let mut rest = number;
    for place in 0..count {
        row.set(place, rest % 2 == 1);
        rest /= 2;
    }
    Ok(row)
}

/// How many rows so many universals have.
pub fn row_count(universals: usize) -> u64 {
    let mut rows = 1u64;
    for _ in 0..universals {
        rows = rows.saturating_mul(2);
    }
    rows
}
