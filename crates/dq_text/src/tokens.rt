//! The tokens of a text that stands in memory.

ghost use Rattle.std.specs.Prelude.{◌≡◌, ◌∷◌, [], MatchOption, IfNone};
ghost use Rattle.dq_text.specs.Token.{tokens_of, last_line_of};

use crate::cursors::{Cursor, LinePlace, skip_to_token, take_token};
use std::marker::Model;

/// A token with its line, from 1, and its place in the text, from 0.
#[derive(Clone, Copy)]
pub struct Token<'a> {
    pub text: &'a [u8],
    pub line: u64,
    pub at: usize,
}

/// The tokens of a text in order, without its comment lines.
#[derive(Drop)]
pub struct Tokens<'a> {
    cursor: Cursor<'a>,
}

impl<'a> Model for Tokens<'a> {
    ghost use Rattle.dq_text.specs.Token.{TokenStream};

    ghost Value = { TokenStream };

    ghost use Rattle.dq_text.specs.TokensInside.{stream_of, can_count};

    ghost view = { stream_of };

    ghost invariant = { can_count };
}

impl<'a> Tokens<'a> {
    ghost use Rattle.dq_text.specs.Cursor.{text_token};

    /// The tokens of a whole text. It takes no memory.
    pub fn new(bytes: &'a [u8]) -> Tokens<'a>
        ensures { result
            ≡ record { left = tokens_of bytes.now; last_line = last_line_of bytes.now } }
    {
        Tokens {
            cursor: Cursor {
                rest: bytes,
                at: 0,
                line: 1,
                place: LinePlace::LineStart,
            },
        }
    }

    /// The next token; none at the end of the text, then and from then on.
    pub fn next(&mut self) -> Option<Token<'a>>
        ensures token { MatchOption result (self.old.left ≡ [])
            (λ t. self.old.left ≡ text_token t ∷ self.new.left) }
        ensures end { IfNone result (self.new.left ≡ []) }
        ensures last_line { self.new.last_line ≡ self.old.last_line }
    {
        skip_to_token(&mut self.cursor);
        if self.cursor.rest.is_empty() {
            return None;
        }
        Some(take_token(&mut self.cursor))
    }

    /// The line behind the last LF of the text, from 1, however many tokens are left.
    pub fn last_line(&self) -> u64
        ensures { result ≡ self.now.last_line }
    {
        let more = self
            .cursor
            .rest
            .iter()
            .filter(|byte| **byte == b'\n')
            .count();
        self.cursor.line + more as u64
    }
}
