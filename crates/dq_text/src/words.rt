//! Words of a line.

ghost use Rattle.std.specs.Prelude.{◌≡◌, ◌++◌, OnOk};
ghost use Rattle.std.specs.Str.{bytes_eq};
ghost use Rattle.dq_text.specs.BlankLine.{is_blank_line};

use crate::lines::LineTokens;
use dq_lits::Memory;

/// Whether a token is this word.
pub fn is_word(token: &[u8], word: &[u8]) -> bool
    ensures { result ≡ bytes_eq token.now word.now }
{
    token == word
}

/// Whether a line has no token.
pub fn is_blank(line: &[u8]) -> bool
    ensures { result ≡ is_blank_line line.now }
{
    LineTokens::new(line).next().is_none()
}

/// Appends a word, byte for byte.
pub fn push_word(buf: &mut Vec<u8>, word: &[u8]) -> Result<(), Memory>
    ensures { OnOk result (buf.new.items ≡ buf.old.items ++ word.now) }
{
    buf.extend_from_slice(word)?;
    Ok(())
}
