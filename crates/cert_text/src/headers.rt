//! The header lines of refutations and of circuits' proofs.

ghost use Rattle.std.specs.Prelude.{◌≡◌, ◌≤◌, IfOk};
ghost use Rattle.dq_text.specs.Line.{line_tokens};
ghost use Rattle.cert_text.specs.Header.{count_of, counts_of, header_of, proof_header, proof_word, refutation_word, version_of};
ghost use Rattle.cert_text.specs.HeaderCounts.{AreSmall};

use crate::faults::CertFault;
use crate::versions::Version;
use dq_text::{LineTokens, is_word, natural};

/// How many rows and items of a proof a header announces, and the version of these.
#[derive(Clone, Copy, PartialEq, Eq)]
pub struct RowsAndItems {
    pub version: Version,
    pub rows: u64,
    pub items: u64,
}

/// How many items of a proof a header announces.
#[derive(Clone, Copy, PartialEq, Eq)]
pub struct ItemCount {
    pub version: Version,
    pub items: u64,
}

/// The largest count of a header.
pub const MAX_COUNT: u64 = 1_000_000_000;

/// Reads the header line: exactly the tokens `p`, `dqr` or `dqr2`, and two natural numbers.
pub fn read_header(line: &[u8]) -> Result<RowsAndItems, CertFault>
    ensures header { result ≡ header_of (line_tokens line.now) }
    ensures small { IfOk result AreSmall }
{
    let mut tokens = LineTokens::new(line);
    match (tokens.next(), tokens.next(), tokens.next(), tokens.next()) {
        (Some(letter), Some(word), Some(rows), Some(items)) if tokens.next().is_none() => {
            if !is_word(letter, b"p") {
                return Err(CertFault::BadHeader);
            }
            counts_from(refutation_version(word), natural(rows), natural(items))
        }
        _ => Err(CertFault::BadHeader),
    }
}

fn refutation_version(word: &[u8]) -> Option<Version>
    ensures { result ≡ version_of refutation_word word.now }
{
    if is_word(word, b"dqr") {
        Some(Version::One)
    } else if is_word(word, b"dqr2") {
        Some(Version::Two)
    } else {
        None
    }
}

fn counts_from(
    version: Option<Version>,
    rows: Option<u64>,
    items: Option<u64>,
) -> Result<RowsAndItems, CertFault>
    ensures counts { result ≡ counts_of version rows items }
    ensures small { IfOk result AreSmall }
{
    let (Some(version), Some(rows), Some(items)) = (version, rows, items) else {
        return Err(CertFault::BadHeader);
    };
    if rows > MAX_COUNT || items > MAX_COUNT {
        return Err(CertFault::TooBig);
    }
    Ok(RowsAndItems {
        version,
        rows,
        items,
    })
}

/// Reads the header line of a circuit's proof: exactly the tokens `dqp` or `dqp2`, and a natural
/// number, which is how many items follow.
pub fn read_proof_header(line: &[u8]) -> Result<ItemCount, CertFault>
    ensures { result ≡ proof_header (line_tokens line.now) }
{
    let mut tokens = LineTokens::new(line);
    match (tokens.next(), tokens.next()) {
        (Some(word), Some(items)) if tokens.next().is_none() => {
            count_from(proof_version(word), natural(items))
        }
        _ => Err(CertFault::BadHeader),
    }
}

fn proof_version(word: &[u8]) -> Option<Version>
    ensures { result ≡ version_of proof_word word.now }
{
    if is_word(word, b"dqp") {
        Some(Version::One)
    } else if is_word(word, b"dqp2") {
        Some(Version::Two)
    } else {
        None
    }
}

fn count_from(version: Option<Version>, items: Option<u64>) -> Result<ItemCount, CertFault>
    ensures { result ≡ count_of version items }
{
    let (Some(version), Some(items)) = (version, items) else {
        return Err(CertFault::BadHeader);
    };
    if items > MAX_COUNT {
        return Err(CertFault::TooBig);
    }
    Ok(ItemCount { version, items })
}
