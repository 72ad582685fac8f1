//! Where a text is read, by line and place.

ghost use Rattle.std.specs.Prelude.{◌≡◌, ◌+◌, ◌^◌, ◌<◌, ◌∷◌, ◌≢◌, [], length, true};
ghost use Rattle.std.specs.List.{position, position_or_len};
ghost use Rattle.dq_text.specs.Bytes.{kind_of};
ghost use Rattle.dq_text.specs.Token.{is_separator, is_in_token, place_after, line_after, goes_on};
ghost use Rattle.dq_text.specs.Line.{line_tokens};
ghost use Rattle.dq_text.specs.Cursor.{text_token, tokens_left, last_line, CanCount, IsAtToken};

use crate::bytes::{ByteKind, byte_kind};
use crate::tokens::Token;

/// Where the next byte of a text stands.
#[derive(Clone, Copy, PartialEq, Eq)]
pub enum LinePlace {
    /// Behind nothing but blanks on its line.
    LineStart,
    /// Behind a token on its line.
    InLine,
    InComment,
}

/// The bytes of a text that are left, and where they stand.
#[derive(Clone, Copy)]
pub struct Cursor<'a> {
    pub rest: &'a [u8],
    pub at: usize,
    pub line: u64,
    pub place: LinePlace,
}

/// Where the byte behind one of this kind stands.
pub fn next_place(kind: ByteKind, place: LinePlace) -> LinePlace
    ensures { result ≡ place_after kind place }
{
    match (kind, place) {
        (ByteKind::LineFeed, _) => LinePlace::LineStart,
        (ByteKind::Blank, place) => place,
        (ByteKind::LetterC, LinePlace::LineStart) => LinePlace::InComment,
        (_, LinePlace::InComment) => LinePlace::InComment,
        _ => LinePlace::InLine,
    }
}

/// Whether a byte of this kind belongs to a token here.
pub fn is_token_byte(kind: ByteKind, place: LinePlace) -> bool
    ensures { result ≡ is_in_token kind place }
{
    match (kind, place) {
        (ByteKind::Blank, _) | (ByteKind::LineFeed, _) => false,
        (ByteKind::LetterC, place) => place == LinePlace::InLine,
        (ByteKind::Other, place) => place != LinePlace::InComment,
    }
}

fn next_line(kind: ByteKind, line: u64) -> u64
    requires { line + 1 < 2 ^ 64 }
    ensures { result ≡ line_after kind line }
{
    match kind {
        ByteKind::LineFeed => line + 1,
        _ => line,
    }
}

/// Goes on to the first byte of a token, or to the end.
pub fn skip_to_token(cursor: &mut Cursor)
    requires { CanCount cursor.old }
    ensures counts { CanCount cursor.new }
    ensures tokens { tokens_left cursor.new ≡ tokens_left cursor.old }
    ensures lines { last_line cursor.new ≡ last_line cursor.old }
    ensures at_token { IsAtToken cursor.new }
{
    while let Some((byte, rest)) = cursor.rest.split_first() {
        let kind = byte_kind(*byte);
        if is_token_byte(kind, cursor.place) {
            return;
        }
        cursor.line = next_line(kind, cursor.line);
        cursor.place = next_place(kind, cursor.place);
        cursor.at += 1;
        cursor.rest = rest;
    }
}

pub fn separates(byte: u8) -> bool
    ensures { result ≡ is_separator (kind_of byte) }
{
    match byte_kind(byte) {
        ByteKind::Blank | ByteKind::LineFeed => true,
        ByteKind::LetterC | ByteKind::Other => false,
    }
}

fn first_separator(bytes: &[u8]) -> Option<usize>
    ensures { result ≡ position (λ byte. is_separator (kind_of byte)) bytes.now }
{
    bytes.iter().position(|byte| separates(*byte))
}

/// How many bytes stand before the first blank or LF.
pub fn separator_free_length(bytes: &[u8]) -> usize
    ensures { result ≡ position_or_len (λ byte. is_separator (kind_of byte)) bytes.now }
{
    first_separator(bytes).unwrap_or(bytes.len())
}

/// The bytes from the first one on that is neither a blank nor LF.
pub fn skip_separators(bytes: &[u8]) -> &[u8]
    ensures same { line_tokens result.now ≡ line_tokens bytes.now }
    ensures at_token { result.now ≢ [] → goes_on result.now ≡ true }
{
    let mut rest = bytes;
    while let Some((byte, others)) = rest.split_first() {
        if !separates(*byte) {
            break;
        }
        rest = others;
    }
    rest
}

/// Cuts off the token that begins here.
pub fn take_token<'a>(cursor: &mut Cursor<'a>) -> Token<'a>
    requires counts { CanCount cursor.old }
    requires at_token { IsAtToken cursor.old }
    requires not_at_end { cursor.old.rest.now ≢ [] }
    ensures counts { CanCount cursor.new }
    ensures token { tokens_left cursor.old ≡ text_token result ∷ tokens_left cursor.new }
    ensures lines { last_line cursor.new ≡ last_line cursor.old }
{
    let (text, rest) = cursor.rest.split_at(separator_free_length(cursor.rest));
    let token = Token {
        text,
        line: cursor.line,
        at: cursor.at,
    };
    cursor.rest = rest;
    cursor.at += text.len();
    cursor.place = LinePlace::InLine;
    token
}
