//! What a token is to the grammar.

ghost use Rattle.std.specs.Prelude.{◌≡◌, false, MatchOption};
ghost use Rattle.dqdimacs_reader.specs.Lexeme.{number_lexeme, lexeme_of_int, word_or, lexeme_of, summary_lexeme};

use dq_text::{Head, Number, TokenSummary, has_minus, is_word, read_number, summary_number};

/// What a token is to the grammar.
#[derive(Clone, Copy, PartialEq, Eq)]
pub enum Lexeme {
    /// The word `p`.
    P,
    /// The word `cnf`.
    Cnf,
    /// The letter `a`.
    A,
    /// The letter `d`.
    D,
    /// The letter `e`.
    E,
    /// The letter `x`.
    X,
    /// A number without a minus, below 10^18.
    Natural(u64),
    /// The magnitude of a number with a minus, from 1 and below 10^18.
    Negative(u64),
    /// A number without a minus, of 10^18 or more.
    Large,
    /// A number with a minus, of magnitude 10^18 or more.
    NegativeLarge,
    Other,
}

/// Classifies a token.
pub fn classify(text: &[u8]) -> Lexeme
    ensures { result ≡ lexeme_of text.now }
{
    if !may_be_word(text) {
        return number(has_minus(text), read_number(text));
    }
    match word(text) {
        Some(lexeme) => lexeme,
        None => number(has_minus(text), read_number(text)),
    }
}

// Whether the first byte may be a word's: digits and signs stand before all letters.
fn may_be_word(text: &[u8]) -> bool
    ensures { result ≡ false → (rest : Lexeme) → word_or text.now rest ≡ rest }
{
    match text.split_first() {
        None => false,
        Some((first, _)) => *first >= b'a',
    }
}

/// Classifies a token of which a summary was kept.
pub fn classify_summary(token: TokenSummary) -> Lexeme
    ensures { result ≡ summary_lexeme token }
{
    let lexeme = number(token.minus, summary_number(token));
    match token.head {
        Head::Empty | Head::Longer => lexeme,
        Head::One(a) => word_or(&[a], lexeme),
        Head::Two(a, b) => word_or(&[a, b], lexeme),
        Head::Three(a, b, c) => word_or(&[a, b, c], lexeme),
    }
}

// A word of the grammar, or else this.
fn word_or(text: &[u8], lexeme: Lexeme) -> Lexeme
    ensures { result ≡ word_or text.now lexeme }
{
    match word(text) {
        Some(word) => word,
        None => lexeme,
    }
}

// The word of the grammar that a token is, if it is one.
fn word(text: &[u8]) -> Option<Lexeme>
    ensures { MatchOption result ((rest : Lexeme) → word_or text.now rest ≡ rest)
        (λ lexeme. (rest : Lexeme) → word_or text.now rest ≡ lexeme) }
{
    if is_word(text, b"p") {
        Some(Lexeme::P)
    } else if is_word(text, b"cnf") {
        Some(Lexeme::Cnf)
    } else if is_word(text, b"a") {
        Some(Lexeme::A)
    } else if is_word(text, b"d") {
        Some(Lexeme::D)
    } else if is_word(text, b"e") {
        Some(Lexeme::E)
    } else if is_word(text, b"x") {
        Some(Lexeme::X)
    } else {
        None
    }
}

fn number(minus: bool, number: Number) -> Lexeme
    ensures { result ≡ number_lexeme minus number }
{
    match number {
        Number::NotANumber => Lexeme::Other,
        Number::TooBig if minus => Lexeme::NegativeLarge,
        Number::TooBig => Lexeme::Large,
        Number::Int(n) => number_lexeme(n),
    }
}

/// What a number below 10^18 is to the grammar.
pub fn number_lexeme(n: i64) -> Lexeme
    ensures { result ≡ lexeme_of_int n }
{
    if n < 0 {
        Lexeme::Negative(n.unsigned_abs())
    } else {
        Lexeme::Natural(n.unsigned_abs())
    }
}
