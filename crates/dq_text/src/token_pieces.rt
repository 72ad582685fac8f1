//! The tokens of a text that comes in pieces, wherever it is cut. Of a token whose end didn't come
//! yet its summary alone is kept, so that a token of any length is read in the same memory.

ghost use Rattle.std.specs.Prelude.{◌≡◌, ◌≢◌, ◌<◌, ◌≤◌, ◌∷◌, ◌++◌, [], ℕ, List, length, true, false, IfOk, OnOk, IfSome};
ghost use Rattle.dq_text.specs.Bytes.{kind_of};
ghost use Rattle.dq_text.specs.Number.{number_of};
ghost use Rattle.dq_text.specs.declared.cursors.LinePlace.TheVariants.{InComment};
ghost use Rattle.dq_text.specs.declared.numbers.Number.TheVariants.{Int};
ghost use Rattle.dq_text.specs.Pieces.{SummarizedToken, IsAtStart, IsWholeToken, IsWholeNumber, IsBehindLine, EndsComment, Skips, tokens_to_come, last_line_to_come, no_pieces, ended};
ghost use Rattle.dq_text.specs.Summary.{summary_of, no_bytes, is_begun};
ghost use Rattle.dq_text.specs.Token.{line_after, is_in_token};

use crate::bytes::{ByteKind, byte_kind};
use crate::cursors::{LinePlace, is_token_byte, next_place, separator_free_length};
use crate::lines::cut_line;
use crate::short_numbers::ended_number;
use crate::summaries::{TokenSummary, grown, is_begun, no_bytes};
use dq_lits::Memory;

/// What takes a text token by token.
pub trait TakesTokens {
    /// What is said of a text at its end.
    type Answer;

    /// With these tokens to come, and this last line, it may answer so.
    ghost gives: { Self → List SummarizedToken → ℕ → Self.Answer → Type 0 };

    /// Takes the next token, whose bytes came in one piece.
    fn token(&mut self, text: &[u8], line: u64) -> Result<(), Memory>
        ensures { OnOk result ((tokens : List SummarizedToken) (last : ℕ) (answer : Self.Answer)
            → gives self.new tokens last answer
            → gives self.old
            (record { summary = summary_of text.now; line = line } ∷ tokens) last answer) };

    /// Takes the next token, which is this number and came in one piece.
    fn number(&mut self, number: i64, line: u64) -> Result<(), Memory>
        ensures { OnOk result ((text : List ℕ) (tokens : List SummarizedToken) (last : ℕ)
            (answer : Self.Answer) → number_of text ≡ Int number → gives self.new tokens last answer
            → gives self.old (record { summary = summary_of text; line = line } ∷ tokens) last answer) };

    /// Takes the next token, of which the summary was kept.
    fn summary(&mut self, token: TokenSummary, line: u64) -> Result<(), Memory>
        ensures { OnOk result ((tokens : List SummarizedToken) (last : ℕ) (answer : Self.Answer)
            → gives self.new tokens last answer
            → gives self.old (record { summary = token; line = line } ∷ tokens) last answer) };
}

/// Where the next piece begins: behind this token, which may have no byte, at this place of the
/// line with this number.
#[derive(Clone, Copy)]
pub struct TokenPieces {
    pub token: TokenSummary,
    pub place: LinePlace,
    pub line: u64,
}

impl TokenPieces {
    /// Before the first piece.
    pub fn new() -> TokenPieces
        ensures { result ≡ no_pieces }
    {
        TokenPieces {
            token: no_bytes(),
            place: LinePlace::LineStart,
            line: 1,
        }
    }

    /// Hands on the tokens that end in the next piece. It wants memory where the taker does, and
    /// for a line whose number would pass 2^64.
    pub fn feed<T: TakesTokens>(&mut self, taker: &mut T, piece: &[u8]) -> Result<(), Memory>
        ensures { OnOk result ((bytes : List ℕ) (answer : T.Answer)
            → T.gives taker.new (tokens_to_come self.new bytes) (last_line_to_come self.new bytes)
            answer
            → T.gives taker.old (tokens_to_come self.old (piece.now ++ bytes))
            (last_line_to_come self.old (piece.now ++ bytes)) answer) }
    {
        let mut rest = piece;
        while !rest.is_empty() {
            rest = self.step(taker, rest)?;
        }
        Ok(())
    }

    /// Hands on the last token, where the text ends behind it, and answers the last line.
    pub fn end<T: TakesTokens>(self, taker: &mut T) -> Result<u64, Memory>
        ensures { IfOk result (λ last. (answer : T.Answer) → T.gives taker.new [] last answer
            → T.gives taker.old (tokens_to_come self []) (last_line_to_come self []) answer) }
    {
        hand_on(taker, self.token, self.line)?;
        Ok(self.line)
    }

    // Takes a token that begins and ends here, or else a byte, and what stands between it and the
    // next token; what is left is shorter.
    #[inline(always)]
    fn step<'a, T: TakesTokens>(
        &mut self,
        taker: &mut T,
        rest: &'a [u8],
    ) -> Result<&'a [u8], Memory>
        requires some { 0 < length rest.now }
        ensures shorter { IfOk result (λ left. length left.now < length rest.now) }
        ensures given { IfOk result (λ left. (bytes : List ℕ) (answer : T.Answer)
            → T.gives taker.new (tokens_to_come self.new (left.now ++ bytes))
            (last_line_to_come self.new (left.now ++ bytes)) answer
            → T.gives taker.old (tokens_to_come self.old (rest.now ++ bytes))
            (last_line_to_come self.old (rest.now ++ bytes)) answer) }
    {
        match plain_number(self, rest) {
            Some((number, behind)) => self.step_number(taker, rest, number, behind),
            None => self.step_other(taker, rest),
        }
    }

    // The same with the number that begins here.
    #[inline(always)]
    #[tactic(auto, using(crate::proofs::SkippedBytes::shorter_on))]
    fn step_number<'a, T: TakesTokens>(
        &mut self,
        taker: &mut T,
        rest: &'a [u8],
        number: i64,
        behind: &'a [u8],
    ) -> Result<&'a [u8], Memory>
        requires { IsWholeNumber self.old rest.now number behind.now }
        ensures shorter { IfOk result (λ left. length left.now < length rest.now) }
        ensures given { IfOk result (λ left. (bytes : List ℕ) (answer : T.Answer)
            → T.gives taker.new (tokens_to_come self.new (left.now ++ bytes))
            (last_line_to_come self.new (left.now ++ bytes)) answer
            → T.gives taker.old (tokens_to_come self.old (rest.now ++ bytes))
            (last_line_to_come self.old (rest.now ++ bytes)) answer) }
    {
        let left = self.take_number(taker, rest, number, behind)?;
        let next = skip_between(self, left)?;
        Ok(next)
    }

    // The same with any token or byte. Numbers are many more, and what calls it is to stay small.
    #[inline(never)]
    #[tactic(auto, using(crate::proofs::SkippedBytes::shorter_on))]
    fn step_other<'a, T: TakesTokens>(
        &mut self,
        taker: &mut T,
        rest: &'a [u8],
    ) -> Result<&'a [u8], Memory>
        requires some { 0 < length rest.now }
        ensures shorter { IfOk result (λ left. length left.now < length rest.now) }
        ensures given { IfOk result (λ left. (bytes : List ℕ) (answer : T.Answer)
            → T.gives taker.new (tokens_to_come self.new (left.now ++ bytes))
            (last_line_to_come self.new (left.now ++ bytes)) answer
            → T.gives taker.old (tokens_to_come self.old (rest.now ++ bytes))
            (last_line_to_come self.old (rest.now ++ bytes)) answer) }
    {
        let left = self.take(taker, rest)?;
        let behind = skip_to_token(self, left)?;
        Ok(behind)
    }

    // Takes the number that begins here; what is left is shorter.
    #[inline(always)]
    fn take_number<'a, T: TakesTokens>(
        &mut self,
        taker: &mut T,
        rest: &'a [u8],
        number: i64,
        behind: &'a [u8],
    ) -> Result<&'a [u8], Memory>
        requires { IsWholeNumber self.old rest.now number behind.now }
        ensures fresh { OnOk result (is_begun self.new.token.head ≡ false) }
        ensures shorter { IfOk result (λ left. length left.now < length rest.now) }
        ensures given { IfOk result (λ left. (bytes : List ℕ) (answer : T.Answer)
            → T.gives taker.new (tokens_to_come self.new (left.now ++ bytes))
            (last_line_to_come self.new (left.now ++ bytes)) answer
            → T.gives taker.old (tokens_to_come self.old (rest.now ++ bytes))
            (last_line_to_come self.old (rest.now ++ bytes)) answer) }
    {
        // Only the contract speaks of it.
        let _ = rest;
        taker.number(number, self.line)?;
        self.place = LinePlace::InLine;
        Ok(behind)
    }

    // Takes a token that begins and ends here, or else a byte; what is left is shorter.
    fn take<'a, T: TakesTokens>(
        &mut self,
        taker: &mut T,
        rest: &'a [u8],
    ) -> Result<&'a [u8], Memory>
        requires some { 0 < length rest.now }
        ensures shorter { IfOk result (λ left. length left.now < length rest.now) }
        ensures given { IfOk result (λ left. (bytes : List ℕ) (answer : T.Answer)
            → T.gives taker.new (tokens_to_come self.new (left.now ++ bytes))
            (last_line_to_come self.new (left.now ++ bytes)) answer
            → T.gives taker.old (tokens_to_come self.old (rest.now ++ bytes))
            (last_line_to_come self.old (rest.now ++ bytes)) answer) }
    {
        match whole_token(self, rest) {
            Some((text, behind)) => {
                taker.token(text, self.line)?;
                self.place = LinePlace::InLine;
                Ok(behind)
            }
            None => {
                take_byte(taker, self, rest[0])?;
                Ok(&rest[1..])
            }
        }
    }
}

// Goes on to the first byte of a token, or to the end, unless a token is begun.
#[tactic(auto, using(crate::proofs::SkippedBytes::nothing_skipped))]
fn skip_to_token<'a>(pieces: &mut TokenPieces, bytes: &'a [u8]) -> Result<&'a [u8], Memory>
    ensures { IfOk result (λ left. Skips pieces.old pieces.new bytes.now left.now) }
{
    if is_begun(pieces.token.head) {
        return Ok(bytes);
    }
    skip_between(pieces, bytes)
}

// The same where none is begun.
#[inline(always)]
#[tactic(auto, using(crate::proofs::SkippedBytes::nothing_skipped, crate::proofs::SkippedBytes::skipped_on))]
fn skip_between<'a>(pieces: &mut TokenPieces, bytes: &'a [u8]) -> Result<&'a [u8], Memory>
    requires { is_begun pieces.old.token.head ≡ false }
    ensures { IfOk result (λ left. Skips pieces.old pieces.new bytes.now left.now) }
{
    let mut rest = bytes;
    while let Some((byte, behind)) = rest.split_first() {
        if is_plain_blank(pieces, *byte) {
            rest = behind;
        } else if *byte == b'\n' {
            pass_feed(pieces)?;
            rest = behind;
        } else {
            if is_token_byte(byte_kind(*byte), pieces.place) {
                break;
            }
            rest = pass(pieces, *byte, behind)?;
        }
    }
    Ok(rest)
}

// Whether a byte is a space outside comments: the usual case, which changes nothing.
#[inline(always)]
fn is_plain_blank(pieces: &TokenPieces, byte: u8) -> bool
    requires { is_begun pieces.now.token.head ≡ false }
    ensures { result ≡ true
        → (behind : List ℕ) → Skips pieces.now pieces.now (byte ∷ behind) behind }
{
    if byte != b' ' {
        return false;
    }
    is_outside_comments(pieces.place)
}

#[inline(always)]
fn is_outside_comments(place: LinePlace) -> bool
    ensures { result ≡ true → place ≢ InComment }
{
    match place {
        LinePlace::InComment => false,
        LinePlace::LineStart => true,
        LinePlace::InLine => true,
    }
}

// Goes behind an LF.
#[inline(always)]
fn pass_feed(pieces: &mut TokenPieces) -> Result<(), Memory>
    requires { is_begun pieces.old.token.head ≡ false }
    ensures fresh { OnOk result (is_begun pieces.new.token.head ≡ false) }
    ensures skips { OnOk result
        ((behind : List ℕ) → Skips pieces.old pieces.new (10 ∷ behind) behind) }
{
    if pieces.line == u64::MAX {
        return Err(Memory);
    }
    pieces.line += 1;
    pieces.place = LinePlace::LineStart;
    Ok(())
}

// Goes behind a byte of no token, and in a comment on to the LF that ends it.
#[inline(never)]
fn pass<'a>(pieces: &mut TokenPieces, byte: u8, behind: &'a [u8]) -> Result<&'a [u8], Memory>
    requires fresh { is_begun pieces.old.token.head ≡ false }
    requires between { is_in_token (kind_of byte) pieces.old.place ≡ false }
    ensures fresh { OnOk result (is_begun pieces.new.token.head ≡ false) }
    ensures shorter { IfOk result (λ left. length left.now ≤ length behind.now) }
    ensures skips { IfOk result
        (λ left. Skips pieces.old pieces.new (byte ∷ behind.now) left.now) }
{
    let kind = byte_kind(byte);
    pieces.line = counted_line(kind, pieces.line)?;
    pieces.place = next_place(kind, pieces.place);
    Ok(to_comment_end(pieces.place, behind))
}

// In a comment, the bytes from the LF that ends it; elsewhere all.
fn to_comment_end(place: LinePlace, bytes: &[u8]) -> &[u8]
    ensures shorter { length result.now ≤ length bytes.now }
    ensures end { EndsComment place bytes.now result.now }
{
    match place {
        LinePlace::InComment => to_line_end(bytes),
        LinePlace::LineStart | LinePlace::InLine => bytes,
    }
}

// The bytes from the first LF on.
fn to_line_end(bytes: &[u8]) -> &[u8]
    ensures shorter { length result.now ≤ length bytes.now }
    ensures end { IsBehindLine bytes.now result.now }
{
    let (line, _) = cut_line(bytes);
    &bytes[line.len()..]
}

// The number that begins here, where no token is begun and it ends in these bytes. One that isn't
// found here is taken as any token.
#[inline(always)]
fn plain_number<'a>(pieces: &TokenPieces, bytes: &'a [u8]) -> Option<(i64, &'a [u8])>
    ensures { IfSome result
        (λ found. IsWholeNumber pieces.now bytes.now found.0 found.1.now) }
{
    if is_begun(pieces.token.head) {
        return None;
    }
    if is_outside_comments(pieces.place) {
        ended_number(bytes)
    } else {
        None
    }
}

// The token that begins here, where none is begun and it ends in these bytes.
fn whole_token<'a>(pieces: &TokenPieces, bytes: &'a [u8]) -> Option<(&'a [u8], &'a [u8])>
    ensures { IfSome result
        (λ parts. IsWholeToken pieces.now bytes.now parts.0.now parts.1.now) }
{
    if !is_at_start(pieces, bytes) {
        return None;
    }
    let length = separator_free_length(bytes);
    if length == bytes.len() {
        return None;
    }
    Some(bytes.split_at(length))
}

// Whether no token is begun, and one begins here.
fn is_at_start(pieces: &TokenPieces, bytes: &[u8]) -> bool
    ensures { result ≡ true → IsAtStart pieces.now bytes.now }
{
    if is_begun(pieces.token.head) {
        return false;
    }
    match bytes.split_first() {
        None => false,
        Some((first, _)) => is_token_byte(byte_kind(*first), pieces.place),
    }
}

// Takes a byte: it goes on with a token, or ends the one that was begun.
fn take_byte<T: TakesTokens>(
    taker: &mut T,
    pieces: &mut TokenPieces,
    byte: u8,
) -> Result<(), Memory>
    ensures { OnOk result ((bytes : List ℕ) (answer : T.Answer)
        → T.gives taker.new (tokens_to_come pieces.new bytes) (last_line_to_come pieces.new bytes)
        answer
        → T.gives taker.old (tokens_to_come pieces.old (byte ∷ bytes))
        (last_line_to_come pieces.old (byte ∷ bytes)) answer) }
{
    let kind = byte_kind(byte);
    if is_token_byte(kind, pieces.place) {
        pieces.token = grown(pieces.token, byte);
    } else {
        hand_on(taker, pieces.token, pieces.line)?;
        pieces.token = no_bytes();
    }
    pieces.line = counted_line(kind, pieces.line)?;
    pieces.place = next_place(kind, pieces.place);
    Ok(())
}

// Hands on a token that ends here, if one was begun.
fn hand_on<T: TakesTokens>(taker: &mut T, token: TokenSummary, line: u64) -> Result<(), Memory>
    ensures { OnOk result ((tokens : List SummarizedToken) (last : ℕ) (answer : T.Answer)
        → T.gives taker.new tokens last answer
        → T.gives taker.old (ended token line tokens) last answer) }
{
    if is_begun(token.head) {
        taker.summary(token, line)
    } else {
        Ok(())
    }
}

// The line behind a byte. There is no number behind the last one.
fn counted_line(kind: ByteKind, line: u64) -> Result<u64, Memory>
    ensures { IfOk result (λ next. next ≡ line_after kind line) }
{
    match kind {
        ByteKind::LineFeed if line == u64::MAX => Err(Memory),
        ByteKind::LineFeed => Ok(line + 1),
        ByteKind::Blank | ByteKind::LetterC | ByteKind::Other => Ok(line),
    }
}
