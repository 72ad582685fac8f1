//! The lines of a certificate up to its header line.

ghost use Rattle.std.specs.Prelude.{◌≡◌, ◌≤◌, length, Ok, IfOk, codes};
ghost use Rattle.dq_text.specs.Line.{line_tokens};
ghost use Rattle.cert_text.specs.Beginning.{header_place, header_number};
ghost use Rattle.cert_text.specs.Kind.{verdict_of_word, stated_verdict, shows, kind_at, kind_of_p, header_kind, agreeing, certificate_kind};

use crate::faults::{CertFault, CertRefusal};
use crate::kinds::{Kind, Verdict};
use dq_text::{LineTokens, Lines, is_word};

/// Which kind a certificate is, and where its header line begins. It takes no memory.
///
/// A first line of the two tokens `s` and `TRUE`, or `s` and `FALSE`, states the verdict, and the
/// header line follows; else the first line is the header line. The first token of the header line
/// decides: `aag` begins a circuit, `aig` one in the binary form, and `p` definitions where `dqd`
/// stands behind it, and else a refutation. Anything else, or a missing line, is `BadHeader` at that
/// line. A verdict that the kind doesn't show is `WrongVerdict` at line 1; definitions show none.
pub fn kind(bytes: &[u8]) -> Result<Kind, CertRefusal>
    ensures kind { result ≡ certificate_kind bytes.now }
    ensures within { IfOk result (λ kind. header_place kind ≤ length bytes.now) }
    ensures early { IfOk result (λ kind. (1 ≤ header_number kind) × (header_number kind ≤ 2)) }
{
    let mut lines = Lines::new(bytes, 1);
    let Some(first) = lines.next() else {
        return Err(bad_header(1));
    };
    let Some(verdict) = stated(first.text) else {
        return header_kind(first.text, 0, 1);
    };
    let at = bytes.len() - lines.rest().len();
    let Some(header) = lines.next() else {
        return Err(bad_header(2));
    };
    agreeing(verdict, header_kind(header.text, at, 2))
}

fn bad_header(line: u64) -> CertRefusal
    ensures { result ≡ record { line = line; name = CertFault.BadHeader } }
{
    CertRefusal {
        line,
        name: CertFault::BadHeader,
    }
}

// The verdict that a line states, if it is an `s` line.
fn stated(line: &[u8]) -> Option<Verdict>
    ensures { result ≡ stated_verdict (line_tokens line.now) }
{
    let mut tokens = LineTokens::new(line);
    let letter = tokens.next()?;
    let word = tokens.next()?;
    if tokens.next().is_some() || !is_word(letter, b"s") {
        return None;
    }
    verdict_of(word)
}

fn verdict_of(word: &[u8]) -> Option<Verdict>
    ensures { result ≡ verdict_of_word word.now }
{
    if is_word(word, b"TRUE") {
        Some(Verdict::True)
    } else if is_word(word, b"FALSE") {
        Some(Verdict::False)
    } else {
        None
    }
}

// The kind of a header line that begins at a byte and has this number.
fn header_kind(text: &[u8], at: usize, line: u64) -> Result<Kind, CertRefusal>
    ensures kind { result ≡ header_kind at line (line_tokens text.now) }
    ensures place { IfOk result (λ kind. header_place kind ≡ at) }
    ensures number { IfOk result (λ kind. header_number kind ≡ line) }
{
    let mut tokens = LineTokens::new(text);
    match tokens.next() {
        Some(word) if is_word(word, b"aag") => Ok(Kind::Circuit { at, line }),
        Some(word) if is_word(word, b"aig") => Ok(Kind::BinaryCircuit { at, line }),
        Some(word) if is_word(word, b"p") => Ok(kind_of_p(tokens, at, line)),
        _ => Err(bad_header(line)),
    }
}

// The kind of a header line by its tokens behind `p`.
fn kind_of_p(mut tokens: LineTokens, at: usize, line: u64) -> Kind
    ensures kind { result ≡ kind_of_p at line tokens.entry }
    ensures place { header_place result ≡ at }
    ensures number { header_number result ≡ line }
{
    match tokens.next() {
        Some(word) if is_word(word, b"dqd") => Kind::Definitions { at, line },
        _ => Kind::Refutation { at, line },
    }
}

// The kind, if it shows the verdict.
fn agreeing(verdict: Verdict, kind: Result<Kind, CertRefusal>) -> Result<Kind, CertRefusal>
    ensures agrees { result ≡ agreeing verdict kind }
    ensures same { IfOk result (λ shown. kind ≡ Ok shown) }
{
    let kind = kind?;
    if shows(kind, verdict) {
        Ok(kind)
    } else {
        Err(CertRefusal {
            line: 1,
            name: CertFault::WrongVerdict,
        })
    }
}

fn shows(kind: Kind, verdict: Verdict) -> bool
    ensures { result ≡ shows kind verdict }
{
    match kind {
        Kind::Circuit { .. } | Kind::BinaryCircuit { .. } => verdict == Verdict::True,
        Kind::Refutation { .. } => verdict == Verdict::False,
        Kind::Definitions { .. } => false,
    }
}
