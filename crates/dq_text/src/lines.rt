//! The lines of a text.

ghost use Rattle.std.specs.Prelude.{◌≡◌, ◌+◌, ◌^◌, ◌<◌, ◌∷◌, [], length, map, MatchOption, IfNone, IfSome};
ghost use Rattle.dq_text.specs.Line.{lines_from, IsFirstLine, line_tokens};
ghost use Rattle.dq_text.specs.Number.{number_of};

use crate::cursors::{separator_free_length, skip_separators};
use crate::numbers::{Number, read_number};
use crate::short_numbers::short_number;
use memchr::memchr;
use std::marker::Model;

/// A line of a text without its LF, with its number.
#[derive(Clone, Copy)]
pub struct Line<'a> {
    pub text: &'a [u8],
    pub number: u64,
}

/// The lines of a text in order. LF alone ends a line, and behind the last LF no empty line
/// follows.
#[derive(Drop)]
pub struct Lines<'a> {
    rest: &'a [u8],
    number: u64,
}

impl<'a> Model for Lines<'a> {
    ghost use Rattle.dq_text.specs.Line.{LineCursor};

    ghost Value = { LineCursor };

    ghost use Rattle.dq_text.specs.LinesInside.{cursor_of, can_number};

    ghost view = { cursor_of };

    ghost invariant = { can_number };
}

impl<'a> Lines<'a> {
    ghost use Rattle.dq_text.specs.TextLine.{text_line};

    /// The lines of these bytes, of which the first has the number `first`. It takes no memory.
    pub fn new(bytes: &'a [u8], first: u64) -> Lines<'a>
        requires { first + length bytes.now < 2 ^ 64 }
        ensures { result ≡ record { rest = bytes.now; number = first } }
    {
        Lines {
            rest: bytes,
            number: first,
        }
    }

    /// The next line; none at the end.
    pub fn next(&mut self) -> Option<Line<'a>>
        ensures line { MatchOption result (self.old.rest ≡ [])
            (λ l. lines_from self.old.number self.old.rest
            ≡ text_line l self.new.rest ∷ lines_from self.new.number self.new.rest) }
        ensures first { IfSome result (λ l. IsFirstLine self.old.rest l.text.now self.new.rest) }
        ensures number { IfSome result (λ l. l.number ≡ self.old.number) }
        ensures next_number { IfSome result (λ _. self.new.number ≡ self.old.number + 1) }
        ensures end { IfNone result (self.new ≡ self.old) }
    {
        if self.rest.is_empty() {
            return None;
        }
        let (text, rest) = cut_line(self.rest);
        let number = self.number;
        self.rest = rest;
        self.number += 1;
        Some(Line { text, number })
    }

    /// The bytes behind the lines that were given.
    pub fn rest(&self) -> &'a [u8]
        ensures { result.now ≡ self.now.rest }
    {
        self.rest
    }

    /// The number that the next line has, or would have.
    pub fn number(&self) -> u64
        ensures { result ≡ self.now.number }
    {
        self.number
    }
}

/// The first line without its LF, and what stands behind it.
pub fn cut_line(bytes: &[u8]) -> (&[u8], &[u8])
    ensures first { IsFirstLine bytes.now result.0.now result.1.now }
{
    match memchr(b'\n', bytes) {
        None => (bytes, &bytes[bytes.len()..]),
        Some(end) => (&bytes[..end], &bytes[end + 1..]),
    }
}

/// The tokens of one line, where no line is a comment.
#[derive(Drop)]
pub struct LineTokens<'a> {
    rest: &'a [u8],
}

impl<'a> Model for LineTokens<'a> {
    ghost use Rattle.std.specs.Prelude.{ℕ, List};

    ghost Value = { List (List ℕ) };

    ghost use Rattle.dq_text.specs.LinesInside.{tokens_in};

    ghost view = { tokens_in };
}

impl<'a> LineTokens<'a> {
    /// The tokens of a line. It takes no memory.
    pub fn new(line: &'a [u8]) -> LineTokens<'a>
        ensures { result ≡ line_tokens line.now }
    {
        LineTokens { rest: line }
    }

    /// The next token; none at the end, then and from then on.
    pub fn next(&mut self) -> Option<&'a [u8]>
        ensures token { MatchOption result (self.old ≡ []) (λ t. self.old ≡ t.now ∷ self.new) }
        ensures end { IfNone result (self.new ≡ []) }
    {
        let rest = skip_separators(self.rest);
        if rest.is_empty() {
            self.rest = rest;
            return None;
        }
        let (token, rest) = rest.split_at(separator_free_length(rest));
        self.rest = rest;
        Some(token)
    }

    /// The next token as a number; none at the end, then and from then on.
    #[inline(always)]
    pub fn next_number(&mut self) -> Option<Number>
        ensures number { MatchOption result (self.old ≡ [])
            (λ n. map number_of self.old ≡ n ∷ map number_of self.new) }
        ensures end { IfNone result (self.new ≡ []) }
    {
        let rest = skip_separators(self.rest);
        if let Some((number, behind)) = short_number(rest) {
            self.rest = behind;
            return Some(Number::Int(number));
        }
        self.next_any()
    }

    // The same of any token.
    #[inline(never)]
    fn next_any(&mut self) -> Option<Number>
        ensures number { MatchOption result (self.old ≡ [])
            (λ n. map number_of self.old ≡ n ∷ map number_of self.new) }
        ensures end { IfNone result (self.new ≡ []) }
    {
        match self.next() {
            Some(token) => Some(read_number(token)),
            None => None,
        }
    }
}
