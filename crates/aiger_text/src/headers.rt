//! The header line.

ghost use Rattle.std.specs.Prelude.{◌≡◌, ◌==◌, ◌≤◌, not, false, nat_lt, length, Some, None, IfOk, if◌then◌else◌};
ghost use Rattle.std.specs.List.{list_any};
ghost use Rattle.dq_text.specs.Line.{line_tokens};
ghost use Rattle.aiger_text.specs.Lines.{max_count, counts_of, limited_counts_of, header_numbers, header_behind};
ghost use Rattle.aiger_text.specs.LineStop.{IsLineOf};
ghost use Rattle.aiger_text.specs.ReaderState.{IsSmall};

use crate::faults::{AagFault, LineStop};
use crate::numbers::take_numbers;
use dq_text::{LineTokens, is_word};

/// The header's counts: the largest variable, inputs, outputs and gates. The reader knows no
/// latches.
#[derive(Clone, Copy, PartialEq, Eq)]
pub struct Header {
    pub max_var: u64,
    pub inputs: u64,
    pub outputs: u64,
    pub gates: u64,
}

/// The largest count of a header.
pub const MAX_COUNT: u64 = 1_000_000_000;

/// Reads the header line, whose first word is that of the file's form. The buffer has its numbers
/// afterwards.
pub fn read_header(line: &[u8], first: &[u8], numbers: &mut Vec<u64>) -> Result<Header, LineStop>
    ensures header { IsLineOf (header_behind first.now (line_tokens line.now)) result }
    ensures small { IfOk result IsSmall }
{
    let mut tokens = LineTokens::new(line);
    let Some(word) = tokens.next() else {
        return Err(LineStop::Fault(AagFault::BadHeader));
    };
    if !is_word(word, first) {
        return Err(LineStop::Fault(AagFault::BadHeader));
    }
    let all = take_numbers(&mut tokens, numbers)?;
    Ok(header_from(all, numbers)?)
}

// The header of these numbers, if all its tokens are natural numbers.
fn header_from(all: bool, numbers: &[u64]) -> Result<Header, AagFault>
    ensures header { result ≡ header_numbers (if all then Some numbers.now else None) }
    ensures small { IfOk result IsSmall }
{
    if !all || numbers.len() < 5 || numbers.len() > 9 {
        return Err(AagFault::BadHeader);
    }
    limited_counts(numbers)
}

fn limited_counts(numbers: &[u64]) -> Result<Header, AagFault>
    requires { 5 ≤ length numbers.now }
    ensures header { result ≡ limited_counts_of numbers.now }
    ensures small { IfOk result IsSmall }
{
    if has_large(numbers) {
        return Err(AagFault::TooBig);
    }
    counts(numbers)
}

// Whether a number is larger than a count may be.
fn has_large(numbers: &[u64]) -> bool
    ensures { result ≡ list_any (λ n. nat_lt max_count n) numbers.now }
{
    numbers.iter().any(|n| *n > MAX_COUNT)
}

fn counts(numbers: &[u64]) -> Result<Header, AagFault>
    requires enough { 5 ≤ length numbers.now }
    requires few { list_any (λ n. nat_lt max_count n) numbers.now ≡ false }
    ensures header { result ≡ counts_of numbers.now }
    ensures small { IfOk result IsSmall }
{
    if numbers[2] != 0 || has_more(&numbers[5..]) {
        return Err(AagFault::NotCombinational);
    }
    if numbers[0] < numbers[1].saturating_add(numbers[4]) {
        return Err(AagFault::BadHeader);
    }
    Ok(Header {
        max_var: numbers[0],
        inputs: numbers[1],
        outputs: numbers[3],
        gates: numbers[4],
    })
}

// Whether a section that the reader leaves out has entries.
fn has_more(numbers: &[u64]) -> bool
    ensures { result ≡ list_any (λ n. not (n == 0)) numbers.now }
{
    numbers.iter().any(|n| *n != 0)
}
