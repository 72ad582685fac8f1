//! What a byte is to lines and tokens.

ghost use Rattle.std.specs.Prelude.{◌≡◌};
ghost use Rattle.dq_text.specs.Bytes.{kind_of};

/// What a byte is to the cutting of a text into lines and tokens.
#[derive(Clone, Copy, PartialEq, Eq)]
pub enum ByteKind {
    /// A space, a tab or a CR.
    Blank,
    LineFeed,
    /// The letter `c`, which begins a comment where it is the first byte of a line that isn't
    /// blank.
    LetterC,
    Other,
}

pub fn byte_kind(byte: u8) -> ByteKind
    ensures { result ≡ kind_of byte }
{
    match byte {
        b' ' | b'\t' | b'\r' => ByteKind::Blank,
        b'\n' => ByteKind::LineFeed,
        b'c' => ByteKind::LetterC,
        _ => ByteKind::Other,
    }
}
