//! Symbol lines, and the lines that end the symbols.

ghost use Rattle.std.specs.Prelude.{◌≡◌, not};
ghost use Rattle.std.specs.Char.{is_ascii_digit};
ghost use Rattle.std.specs.List.{position};
ghost use Rattle.aiger_text.specs.Lines.{digits_end, without_end_crs, behind_place, behind_kind, symbol_of, begins_comment};
ghost use Rattle.aiger_text.specs.SymbolEntry.{entry_line};

use dq_text::{is_blank, natural};

/// A symbol line: the place of an input or an output, and its name. The place of 10^18 stands for
/// every larger one.
#[derive(Clone, Copy)]
pub struct SymbolEntry<'a> {
    pub of_input: bool,
    pub place: u64,
    pub name: &'a [u8],
}

/// Reads a symbol line.
pub fn symbol_entry(line: &[u8]) -> Option<SymbolEntry<'_>>
    ensures { entry_line result ≡ symbol_of line.now }
{
    match line.split_first() {
        Some((b'i', bytes)) => entry_behind(true, bytes),
        Some((b'o', bytes)) => entry_behind(false, bytes),
        _ => None,
    }
}

// The place and the name behind the letter.
fn entry_behind(of_input: bool, bytes: &[u8]) -> Option<SymbolEntry<'_>>
    ensures { entry_line result ≡ behind_kind of_input bytes.now }
{
    let (digits, rest) = bytes.split_at(digits_length(bytes));
    let place = natural(digits)?;
    name_behind(of_input, place, rest)
}

// A separator and the name behind it.
fn name_behind(of_input: bool, place: u64, bytes: &[u8]) -> Option<SymbolEntry<'_>>
    ensures { entry_line result ≡ behind_place of_input place bytes.now }
{
    let (separator, name) = bytes.split_first()?;
    if *separator != b' ' && *separator != b'\t' {
        return None;
    }
    let name = cut_end_crs(name);
    if name.is_empty() {
        return None;
    }
    Some(SymbolEntry {
        of_input,
        place,
        name,
    })
}

fn first_other(bytes: &[u8]) -> Option<usize>
    ensures { result ≡ position (λ byte. not (is_ascii_digit byte)) bytes.now }
{
    bytes.iter().position(|byte| !byte.is_ascii_digit())
}

// How many digits the bytes begin with.
fn digits_length(bytes: &[u8]) -> usize
    ensures { result ≡ digits_end bytes.now }
{
    first_other(bytes).unwrap_or(bytes.len())
}

// The bytes without the CRs at their end.
fn cut_end_crs(bytes: &[u8]) -> &[u8]
    ensures { result.now ≡ without_end_crs bytes.now }
{
    let mut rest = bytes;
    while let Some((last, front)) = rest.split_last() {
        if *last != b'\r' {
            break;
        }
        rest = front;
    }
    rest
}

/// Whether a line is `c` with blanks behind it.
pub fn is_comment_mark(line: &[u8]) -> bool
    ensures { result ≡ begins_comment line.now }
{
    match line.split_first() {
        Some((b'c', rest)) => is_blank(rest),
        _ => false,
    }
}
