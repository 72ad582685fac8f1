//! The blocks that a session writes, each judged for the formula of its search.

use crate::settings::judge_for;
use anyhow::{Result, anyhow};
use hint_log::Log;
use std::alloc::Global;

/// The verdict of each block of a session's text, and what the checker says of a certificate there
/// for the formula at that search. There has to be a block for each formula, in order.
pub fn shown_blocks(
    alloc: Global,
    moments: &[Vec<u8>],
    log: &mut Log,
    text: &[u8],
) -> Result<String> {
    let mut shown = String::new(alloc);
    let mut rest = text;
    for (search, formula) in moments.iter().enumerate() {
        let (block, behind) = next_block(alloc, rest, search + 1)?;
        let judged = shown_block(alloc, log, formula, block)?;
        shown.push_str(&judged)?;
        rest = behind;
    }
    if rest.is_empty() {
        Ok(shown)
    } else {
        Err(anyhow!("a block without a formula"))
    }
}

// The block of the search with a number, and what stands behind it.
fn next_block(alloc: Global, text: &[u8], number: usize) -> Result<(&[u8], &[u8])> {
    let Some(end) = text.iter().position(|byte| *byte == b'\n') else {
        return Err(anyhow!("no block of search {number}"));
    };
    let head = str::from_utf8(&text[..end])?;
    let size = size_in(alloc, head, number)?;
    let rest = &text[end + 1..];
    if size > rest.len() {
        return Err(anyhow!("too short a block: {head}"));
    }
    Ok((&rest[..size], &rest[size..]))
}

// How many bytes the first line of a search's block says.
fn size_in(alloc: Global, head: &str, number: usize) -> Result<usize> {
    let begin = format!(in alloc; "solve {number} ")?;
    let Some(size) = head.strip_prefix(&*begin) else {
        return Err(anyhow!("no block of search {number}: {head}"));
    };
    Ok(size.parse()?)
}

// A block's verdict, and what the checker says of its certificate.
fn shown_block(alloc: Global, log: &mut Log, formula: &[u8], block: &[u8]) -> Result<String> {
    let Some(verdict) = verdict_of(block) else {
        return Err(anyhow!("no verdict"));
    };
    if verdict == "UNKNOWN" {
        return Ok(format!(in alloc; " {verdict}")?);
    }
    let judged = judge_for(alloc, formula, block, log)?;
    Ok(format!(in alloc; " {verdict} {judged}")?)
}

fn verdict_of(block: &[u8]) -> Option<&'static str> {
    if block.starts_with(b"s TRUE\n") {
        return Some("TRUE");
    }
    if block.starts_with(b"s FALSE\n") {
        return Some("FALSE");
    }
    if block.starts_with(b"s UNKNOWN\n") {
        return Some("UNKNOWN");
    }
    None
}
