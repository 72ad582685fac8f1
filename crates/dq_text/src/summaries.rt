//! What is kept of a token whose bytes come one by one: enough to tell a short word, and a number.
//!
//! A token of any length takes no memory: no more of it is ever asked for.

ghost use Rattle.std.specs.Prelude.{◌≡◌};
ghost use Rattle.dq_text.specs.Number.{begins_with_minus, number_of};
ghost use Rattle.dq_text.specs.Summary.{head_with, minus_with, digits_with, first_digit, digits_at, grown, no_bytes, is_begun, summary_number};

use crate::numbers::{Number, TOO_BIG};

/// The first bytes of a token, where these are all.
#[derive(Clone, Copy, PartialEq, Eq)]
pub enum Head {
    Empty,
    One(u8),
    Two(u8, u8),
    Three(u8, u8, u8),
    /// There are more than three.
    Longer,
}

/// The digits of a token behind its minus, if it has one.
#[derive(Clone, Copy, PartialEq, Eq)]
pub enum Digits {
    /// There is none yet.
    NoDigit,
    /// Digits alone, with this value, where 10^18 stands for every larger one.
    Value(u64),
    /// There is another byte.
    Mixed,
}

/// A token so far.
#[derive(Clone, Copy, PartialEq, Eq)]
pub struct TokenSummary {
    pub head: Head,
    /// Its first byte is `-`.
    pub minus: bool,
    pub digits: Digits,
}

/// A token without a byte.
pub fn no_bytes() -> TokenSummary
    ensures { result ≡ no_bytes }
{
    TokenSummary {
        head: Head::Empty,
        minus: false,
        digits: Digits::NoDigit,
    }
}

/// The token with one more byte.
pub fn grown(token: TokenSummary, byte: u8) -> TokenSummary
    ensures { result ≡ grown token byte }
{
    TokenSummary {
        head: head_with(token.head, byte),
        minus: minus_with(token.head, token.minus, byte),
        digits: digits_at(token.head, token.digits, byte),
    }
}

/// Whether the token has a byte.
pub fn is_begun(head: Head) -> bool
    ensures { result ≡ is_begun head }
{
    match head {
        Head::Empty => false,
        Head::One(_) | Head::Two(_, _) | Head::Three(_, _, _) | Head::Longer => true,
    }
}

/// The token as a number.
pub fn summary_number(token: TokenSummary) -> Number
    ensures { result ≡ summary_number token }
{
    match token.digits {
        Digits::NoDigit | Digits::Mixed => Number::NotANumber,
        Digits::Value(0) if token.minus => Number::NotANumber,
        Digits::Value(value) if value >= TOO_BIG => Number::TooBig,
        Digits::Value(value) if token.minus => Number::Int(-(value as i64)),
        Digits::Value(value) => Number::Int(value as i64),
    }
}

fn head_with(head: Head, byte: u8) -> Head
    ensures { result ≡ head_with head byte }
{
    match head {
        Head::Empty => Head::One(byte),
        Head::One(first) => Head::Two(first, byte),
        Head::Two(first, second) => Head::Three(first, second, byte),
        Head::Three(_, _, _) | Head::Longer => Head::Longer,
    }
}

fn minus_with(head: Head, minus: bool, byte: u8) -> bool
    ensures { result ≡ minus_with head minus byte }
{
    match head {
        Head::Empty => byte == b'-',
        Head::One(_) | Head::Two(_, _) | Head::Three(_, _, _) | Head::Longer => minus,
    }
}

fn digits_at(head: Head, digits: Digits, byte: u8) -> Digits
    ensures { result ≡ digits_at head digits byte }
{
    match head {
        Head::Empty => first_digit(byte),
        Head::One(_) | Head::Two(_, _) | Head::Three(_, _, _) | Head::Longer => {
            digits_with(digits, byte)
        }
    }
}

fn first_digit(byte: u8) -> Digits
    ensures { result ≡ first_digit byte }
{
    if byte == b'-' {
        Digits::NoDigit
    } else {
        digits_with(Digits::NoDigit, byte)
    }
}

fn digits_with(digits: Digits, byte: u8) -> Digits
    ensures { result ≡ digits_with digits byte }
{
    match digits {
        Digits::NoDigit => value_with(0, byte),
        Digits::Value(value) => value_with(value, byte),
        Digits::Mixed => Digits::Mixed,
    }
}

fn value_with(value: u64, byte: u8) -> Digits
    ensures { result ≡ digits_with (Digits.Value value) byte }
{
    if !byte.is_ascii_digit() {
        return Digits::Mixed;
    }
    let next = u128::from(value) * 10 + u128::from(byte - b'0');
    Digits::Value(next.min(u128::from(TOO_BIG)) as u64)
}
