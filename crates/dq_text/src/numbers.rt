//! Decimal numbers, read and written.

ghost use Rattle.std.specs.Prelude.{◌≡◌, ◌++◌, ◌^◌, min, Some, None, OnOk, OnErr, if◌then◌else◌};
ghost use Rattle.std.specs.Fmt.{decimal, signed_decimal};
ghost use Rattle.std.specs.List.{flat_map};
ghost use Rattle.dq_text.specs.Number.{are_digits, decimal_value, number_of, begins_with_minus, natural_of};
ghost use Rattle.dq_text.specs.Written.{number_text, number_line};

use crate::short_numbers::few_digits;
use dq_lits::Memory;
use itoa::Buffer;

/// What a token is as a number: an optional `-` and decimal digits.
#[derive(Clone, Copy, PartialEq, Eq)]
pub enum Number {
    /// A number of magnitude below 10^18.
    Int(i64),
    /// Something else, `-0` among it.
    NotANumber,
    /// A number of magnitude 10^18 or more, of either sign.
    TooBig,
}

/// Stands for every natural number of 10^18 or more.
pub const TOO_BIG: u64 = 1_000_000_000_000_000_000;

/// Reads a token as a number. Leading zeros are lawful, `+` isn't.
#[inline(always)]
pub fn read_number(text: &[u8]) -> Number
    ensures { result ≡ number_of text.now }
{
    match text.split_first() {
        None => Number::NotANumber,
        Some((b'-', digits)) => match capped_value(digits) {
            None | Some(0) => Number::NotANumber,
            Some(TOO_BIG) => Number::TooBig,
            Some(value) => Number::Int(-(value as i64)),
        },
        Some(_) => match capped_value(text) {
            None => Number::NotANumber,
            Some(TOO_BIG) => Number::TooBig,
            Some(value) => Number::Int(value as i64),
        },
    }
}

/// Whether a token begins with a minus; so the sign of a number that is too big is known.
pub fn has_minus(token: &[u8]) -> bool
    ensures { result ≡ begins_with_minus token.now }
{
    matches!(token.first(), Some(b'-'))
}

/// A token as a natural number, where 10^18 stands for every larger one.
pub fn natural(token: &[u8]) -> Option<u64>
    ensures { result ≡ natural_of token.now }
{
    match read_number(token) {
        Number::NotANumber => None,
        Number::TooBig if has_minus(token) => None,
        Number::TooBig => Some(TOO_BIG),
        Number::Int(n) if n < 0 => None,
        Number::Int(n) => Some(n.unsigned_abs()),
    }
}

/// The value of decimal digits, at most 10^18; none where there are other bytes or no digits.
#[tactic(auto, using(crate::proofs::ShortNumbers::capped))]
fn capped_value(digits: &[u8]) -> Option<u64>
    ensures { result
        ≡ (if are_digits digits.now then Some (min (decimal_value digits.now) (10 ^ 18))
        else None) }
{
    match few_digits(digits) {
        Some(value) => Some(value),
        None => capped_value_of_many(digits),
    }
}

// The same digit by digit, however many there are.
#[inline(never)]
fn capped_value_of_many(digits: &[u8]) -> Option<u64>
    ensures { result
        ≡ (if are_digits digits.now then Some (min (decimal_value digits.now) (10 ^ 18))
        else None) }
{
    if digits.is_empty() {
        return None;
    }
    let mut value = 0;
    for digit in digits {
        if !digit.is_ascii_digit() {
            return None;
        }
        value = (value * 10 + u64::from(*digit - b'0')).min(TOO_BIG);
    }
    Some(value)
}

/// Appends the decimal text of a number, without leading zeros. A refusal leaves the buffer as it
/// was.
pub fn push_number(buf: &mut Vec<u8>, n: i64) -> Result<(), Memory>
    ensures ok { OnOk result (buf.new.items ≡ buf.old.items ++ signed_decimal n) }
    ensures err { OnErr result (buf.new.items ≡ buf.old.items) }
{
    let mut buffer = Buffer::new();
    buf.extend_from_slice(buffer.format(n).as_bytes())?;
    Ok(())
}

/// Appends the decimal text of a natural number, without leading zeros. A refusal leaves the buffer
/// as it was.
pub fn push_natural(buf: &mut Vec<u8>, n: u64) -> Result<(), Memory>
    ensures ok { OnOk result (buf.new.items ≡ buf.old.items ++ decimal n) }
    ensures err { OnErr result (buf.new.items ≡ buf.old.items) }
{
    let mut digits = Buffer::new();
    buf.extend_from_slice(digits.format(n).as_bytes())?;
    Ok(())
}

/// Appends the decimal text of a natural number and a space.
pub fn push_spaced(buf: &mut Vec<u8>, n: u64) -> Result<(), Memory>
    ensures { OnOk result (buf.new.items ≡ buf.old.items ++ number_text n) }
{
    push_natural(buf, n)?;
    buf.push(b' ')?;
    Ok(())
}

/// Appends natural numbers, each with a space behind it.
pub fn push_all_spaced(buf: &mut Vec<u8>, numbers: &[u64]) -> Result<(), Memory>
    ensures { OnOk result (buf.new.items ≡ buf.old.items ++ flat_map number_text numbers.now) }
{
    let mut rest = numbers;
    while let Some((first, behind)) = rest.split_first() {
        push_spaced(buf, *first)?;
        rest = behind;
    }
    Ok(())
}

/// Appends the decimal text of a natural number and the end of the line.
pub fn push_last(buf: &mut Vec<u8>, n: u64) -> Result<(), Memory>
    ensures { OnOk result (buf.new.items ≡ buf.old.items ++ number_line n) }
{
    push_natural(buf, n)?;
    buf.push(b'\n')?;
    Ok(())
}
