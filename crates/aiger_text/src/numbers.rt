//! The natural numbers of a line.

ghost use Rattle.std.specs.Prelude.{◌≡◌, Ok, Some, None, IfOk, IfSome, if◌then◌else◌};
ghost use Rattle.dq_text.specs.Line.{line_tokens};
ghost use Rattle.aiger_text.specs.Lines.{numbers_of, one_of, three_of};
ghost use Rattle.aiger_text.specs.LineStop.{IsLineOf};

use crate::faults::{AagFault, LineStop};
use dq_lits::Memory;
use dq_text::{LineTokens, is_blank, natural, short_natural};

/// Puts the numbers that the tokens are in place of those in the buffer, and says whether all
/// tokens are natural numbers.
pub fn take_numbers(tokens: &mut LineTokens, numbers: &mut Vec<u64>) -> Result<bool, Memory>
    ensures { IfOk result
        (λ all. numbers_of tokens.old ≡ (if all then Some numbers.new.items else None)) }
{
    numbers.clear();
    while let Some(token) = tokens.next() {
        let Some(n) = natural(token) else {
            return Ok(false);
        };
        numbers.push(n)?;
    }
    Ok(true)
}

/// The one natural number of a line.
pub fn one_number(line: &[u8], numbers: &mut Vec<u64>) -> Result<u64, LineStop>
    ensures { IsLineOf (one_of (numbers_of (line_tokens line.now))) result }
{
    match plain_number(line) {
        Some(n) => Ok(n),
        None => any_number(line, numbers),
    }
}

// The same where it is below 10^18, read in one pass; nothing is known where it answers none.
fn plain_number(line: &[u8]) -> Option<u64>
    ensures { IfSome result (λ n. one_of (numbers_of (line_tokens line.now)) ≡ Ok n) }
{
    let (n, behind) = short_natural(line)?;
    if is_blank(behind) { Some(n) } else { None }
}

// The same of any line.
fn any_number(line: &[u8], numbers: &mut Vec<u64>) -> Result<u64, LineStop>
    ensures { IsLineOf (one_of (numbers_of (line_tokens line.now))) result }
{
    let all = take_numbers(&mut LineTokens::new(line), numbers)?;
    match numbers.as_slice() {
        [n] if all => Ok(*n),
        _ => Err(LineStop::Fault(AagFault::BadLine)),
    }
}

/// The three natural numbers of a gate's line, of which nothing is known yet: the literal of the
/// gate's variable, and the two that the gate reads.
#[derive(Clone, Copy)]
pub struct GateNumbers {
    pub lhs: u64,
    pub left: u64,
    pub right: u64,
}

/// The three natural numbers of a line.
pub fn three_numbers(line: &[u8], numbers: &mut Vec<u64>) -> Result<GateNumbers, LineStop>
    ensures { IsLineOf (three_of (numbers_of (line_tokens line.now))) result }
{
    match plain_numbers(line) {
        Some(plain) => Ok(plain),
        None => any_numbers(line, numbers),
    }
}

// The same where all three are below 10^18, read in one pass; nothing is known where it answers
// none.
fn plain_numbers(line: &[u8]) -> Option<GateNumbers>
    ensures { IfSome result (λ plain. three_of (numbers_of (line_tokens line.now)) ≡ Ok plain) }
{
    let (lhs, line) = short_natural(line)?;
    let (left, line) = short_natural(line)?;
    let (right, behind) = short_natural(line)?;
    if is_blank(behind) {
        Some(GateNumbers { lhs, left, right })
    } else {
        None
    }
}

// The same of any line.
fn any_numbers(line: &[u8], numbers: &mut Vec<u64>) -> Result<GateNumbers, LineStop>
    ensures { IsLineOf (three_of (numbers_of (line_tokens line.now))) result }
{
    let all = take_numbers(&mut LineTokens::new(line), numbers)?;
    match numbers.as_slice() {
        [lhs, left, right] if all => Ok(GateNumbers {
            lhs: *lhs,
            left: *left,
            right: *right,
        }),
        _ => Err(LineStop::Fault(AagFault::BadLine)),
    }
}
