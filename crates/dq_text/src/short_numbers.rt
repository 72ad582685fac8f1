//! Numbers of few digits, read in one pass over their bytes.

ghost use Rattle.std.specs.Prelude.{◌≡◌, ◌+◌, ◌≤◌, ◌<◌, ◌^◌, ◌∷◌, true, false, not, nat_lt, pos, neg_ℤ, length, map, take, IfSome};
ghost use Rattle.std.specs.Char.{is_ascii_digit};
ghost use Rattle.dq_text.specs.Bytes.{kind_of};
ghost use Rattle.dq_text.specs.Line.{line_tokens};
ghost use Rattle.dq_text.specs.Number.{number_of};
ghost use Rattle.dq_text.specs.Pieces.{begins_with_separator};
ghost use Rattle.dq_text.specs.ShortNumber.{AreFewDigits, BeginsWithNatural, EndsNatural, EndsNumber, IsLeadingValue};
ghost use Rattle.dq_text.specs.Token.{goes_on, is_separator};
ghost use Rattle.dq_text.specs.declared.numbers.Number.TheVariants.{Int};

use crate::cursors::separates;

// Numbers of so many digits are below 10^18.
const MOST_DIGITS: usize = 18;

/// The number that is the first token, where that begins with the first byte, and the bytes behind
/// it and a separator. There may be one where it finds none: one of 19 digits or more.
#[inline(always)]
pub fn short_number(bytes: &[u8]) -> Option<(i64, &[u8])>
    ensures { IfSome result
        (λ found. map number_of (line_tokens bytes.now)
        ≡ Int found.0 ∷ map number_of (line_tokens found.1.now)) }
{
    match bytes.split_first() {
        Some((b'-', digits)) => behind_minus(digits),
        _ => without_minus(bytes),
    }
}

/// The natural number that is the first token, in the same way.
#[inline(always)]
pub fn short_natural(bytes: &[u8]) -> Option<(u64, &[u8])>
    ensures { IfSome result
        (λ found. map number_of (line_tokens bytes.now)
        ≡ Int (pos found.0) ∷ map number_of (line_tokens found.1.now)) }
{
    let (value, behind) = first_natural(bytes)?;
    Some((value, behind))
}

/// The number that these bytes begin with and that ends in them, and the bytes from the separator on
/// that ends it. There may be one where it finds none: one of 19 digits or more.
#[inline(always)]
pub fn ended_number(bytes: &[u8]) -> Option<(i64, &[u8])>
    ensures { IfSome result (λ found. EndsNumber bytes.now found.0 found.1.now) }
{
    match bytes.split_first() {
        Some((b'-', digits)) => ended_behind_minus(digits),
        _ => ended_without_minus(bytes),
    }
}

/// The value of digits, of which there are at most 18; none where it isn't as simple.
#[inline(always)]
pub fn few_digits(digits: &[u8]) -> Option<u64>
    ensures { IfSome result (λ value. AreFewDigits digits.now value) }
{
    if digits.len() > MOST_DIGITS {
        return None;
    }
    let (value, count) = leading_value(digits);
    if count == 0 {
        return None;
    }
    if count == digits.len() {
        Some(value)
    } else {
        None
    }
}

#[inline(always)]
fn behind_minus(digits: &[u8]) -> Option<(i64, &[u8])>
    ensures { IfSome result
        (λ found. map number_of (line_tokens (45 ∷ digits.now))
        ≡ Int found.0 ∷ map number_of (line_tokens found.1.now)) }
{
    let (value, behind) = first_natural(digits)?;
    if value == 0 {
        return None;
    }
    Some((negated(value), behind))
}

#[inline(always)]
fn without_minus(bytes: &[u8]) -> Option<(i64, &[u8])>
    ensures { IfSome result
        (λ found. map number_of (line_tokens bytes.now)
        ≡ Int found.0 ∷ map number_of (line_tokens found.1.now)) }
{
    let (value, behind) = first_natural(bytes)?;
    Some((as_signed(value), behind))
}

#[inline(always)]
fn ended_behind_minus(digits: &[u8]) -> Option<(i64, &[u8])>
    ensures { IfSome result (λ found. EndsNumber (45 ∷ digits.now) found.0 found.1.now) }
{
    let (value, behind) = ended_natural(digits)?;
    if value == 0 {
        return None;
    }
    Some((negated(value), behind))
}

#[inline(always)]
fn ended_without_minus(bytes: &[u8]) -> Option<(i64, &[u8])>
    ensures { IfSome result (λ found. EndsNumber bytes.now found.0 found.1.now) }
{
    let (value, behind) = ended_natural(bytes)?;
    Some((as_signed(value), behind))
}

fn negated(value: u64) -> i64
    requires { value < 10 ^ 18 }
    ensures { result ≡ neg_ℤ (pos value) }
{
    -(value as i64)
}

fn as_signed(value: u64) -> i64
    requires { value < 10 ^ 18 }
    ensures { result ≡ pos value }
{
    value as i64
}

// The value of the digits that are the first token, at most 18, and the bytes behind them.
#[inline(always)]
fn first_natural(bytes: &[u8]) -> Option<(u64, &[u8])>
    ensures { IfSome result (λ found. BeginsWithNatural bytes.now found.0 found.1.now) }
{
    let (value, count) = leading_value(first_bytes(bytes));
    if count == 0 {
        return None;
    }
    let behind = behind_token(&bytes[count..])?;
    Some((value, behind))
}

// The value of the digits that these bytes begin with, at most 18, and the bytes from the separator
// on that ends them.
#[inline(always)]
fn ended_natural(bytes: &[u8]) -> Option<(u64, &[u8])>
    ensures { IfSome result (λ found. EndsNatural bytes.now found.0 found.1.now) }
{
    let (value, count) = leading_value(first_bytes(bytes));
    if count == 0 {
        return None;
    }
    let behind = &bytes[count..];
    if !begins_with_separator(behind) {
        return None;
    }
    Some((value, behind))
}

#[inline(always)]
fn begins_with_separator(bytes: &[u8]) -> bool
    ensures { result ≡ begins_with_separator bytes.now }
{
    match bytes.split_first() {
        None => false,
        Some((byte, _)) => ends_word(*byte),
    }
}

// Whether a byte is a separator, in fewest steps for a space and an LF.
#[inline(always)]
fn ends_word(byte: u8) -> bool
    ensures { result ≡ is_separator (kind_of byte) }
{
    match byte {
        b'\n' => true,
        _ => parts_words(byte),
    }
}

// The same in fewest steps for a space.
#[inline(always)]
fn parts_words(byte: u8) -> bool
    ensures { result ≡ is_separator (kind_of byte) }
{
    match byte {
        b' ' => true,
        _ => is_rare_separator(byte),
    }
}

// The same for any byte. Few numbers end before a tab or a CR, and what calls it is to stay small.
#[inline(never)]
fn is_rare_separator(byte: u8) -> bool
    ensures { result ≡ is_separator (kind_of byte) }
{
    separates(byte)
}

#[inline(always)]
fn first_bytes(bytes: &[u8]) -> &[u8]
    ensures { result.now ≡ take 18 bytes.now }
{
    if bytes.len() > MOST_DIGITS {
        &bytes[..MOST_DIGITS]
    } else {
        bytes
    }
}

// The value of the digits before the first other byte, and how many there are.
#[inline(always)]
fn leading_value(bytes: &[u8]) -> (u64, usize)
    requires { length bytes.now ≤ 18 }
    ensures { IsLeadingValue bytes.now result.0 result.1 }
{
    let mut value = 0;
    for (i, digit) in bytes.iter().enumerate() {
        let amount = amount_of(*digit);
        if amount > 9 {
            return (value, i);
        }
        value = value * 10 + amount;
    }
    (value, bytes.len())
}

// What a byte stands for as a digit, and more than 9 where it is none. It is one step a byte.
#[inline(always)]
fn amount_of(byte: u8) -> u64
    ensures digit { is_ascii_digit byte ≡ not (nat_lt 9 result) }
    ensures value { is_ascii_digit byte ≡ true → byte ≡ result + 48 }
{
    u64::from(byte).wrapping_sub(48)
}

// The bytes behind the separator that ends a token here, if one does.
#[inline(always)]
fn behind_token(bytes: &[u8]) -> Option<&[u8]>
    ensures ends { IfSome result (λ _. goes_on bytes.now ≡ false) }
    ensures same { IfSome result (λ rest. line_tokens rest.now ≡ line_tokens bytes.now) }
{
    match bytes.split_first() {
        None => Some(bytes),
        Some((byte, rest)) => { if parts_words(*byte) { Some(rest) } else { None } }
    }
}
