//! The texts of a table, and the canonical texts of what they spell.

ghost use Rattle.std.specs.Prelude.{◌<◌, IfOk};

use crate::settings::Settings;
use aiger_text::AagFile;
use anyhow::{Result, anyhow};
use cert_text::{read_dqp, read_dqr, write_dqp, write_dqr};
use dq_formula::Formula;
use dqdimacs_reader::{read, write};
use std::alloc::Global;

/// The most bytes of a circuit that is written again, or whose proof is.
pub const MAX_CIRCUIT: usize = 1 << 20;

/// The canonical text of the formula.
pub fn canonical_formula(alloc: Global, settings: &Settings) -> Result<Vec<u8>> {
    let Some(text) = &settings.formula else {
        return Err(anyhow!("no formula"));
    };
    let formula = read(alloc, text)?;
    Ok(write(alloc, &formula)?)
}

/// The canonical text of the certificate, a refutation of the formula.
pub fn canonical_refutation(alloc: Global, settings: &Settings) -> Result<Vec<u8>> {
    let (Some(formula), Some(certificate)) = (&settings.formula, &settings.certificate) else {
        return Err(anyhow!("no formula or no refutation"));
    };
    let formula = read(alloc, formula)?;
    refutation_text(alloc, &formula, certificate)
}

fn refutation_text(alloc: Global, f: &Formula, certificate: &[u8]) -> Result<Vec<u8>> {
    let refutation = read_dqr(alloc, certificate, 1, f)?;
    Ok(write_dqr(alloc, &refutation, f)?)
}

fn circuit_file(alloc: Global, text: &[u8]) -> Result<AagFile> {
    if text.len() > MAX_CIRCUIT {
        return Err(anyhow!("too long a circuit"));
    }
    Ok(aiger_text::read(alloc, text, 1)?.file)
}

/// The canonical text of the proof in the certificate, a circuit for the formula.
pub fn canonical_proof(alloc: Global, settings: &Settings) -> Result<Vec<u8>> {
    let (Some(formula), Some(certificate)) = (&settings.formula, &settings.certificate) else {
        return Err(anyhow!("no formula or no circuit"));
    };
    let formula = read(alloc, formula)?;
    proof_text(alloc, &formula, certificate)
}

fn proof_text(alloc: Global, f: &Formula, certificate: &[u8]) -> Result<Vec<u8>> {
    let file = circuit_file(alloc, certificate)?;
    comment_text(alloc, f, &file)
}

fn comment_text(alloc: Global, f: &Formula, file: &AagFile) -> Result<Vec<u8>> {
    let Some(comment) = &file.comment else {
        return Err(anyhow!("no proof"));
    };
    let proof = read_dqp(alloc, comment.items(), 1, f, &file.circuit)?;
    Ok(write_dqp(alloc, &proof)?)
}

/// The canonical text of the certificate, a circuit.
pub fn canonical_circuit(alloc: Global, settings: &Settings) -> Result<Vec<u8>> {
    let Some(certificate) = &settings.certificate else {
        return Err(anyhow!("no circuit"));
    };
    let file = circuit_file(alloc, certificate)?;
    Ok(aiger_text::write(alloc, &file)?)
}

/// The bytes that a spelled text stands for.
pub fn text_of(alloc: Global, spelled: &str) -> Result<Vec<u8>> {
    let mut text = Vec::new(alloc);
    if spelled.is_empty() {
        return Ok(text);
    }
    let whole = spelled.strip_suffix('\\').unwrap_or(spelled);
    for line in whole.split(" / ") {
        push_line(&mut text, line)?;
    }
    if whole.len() < spelled.len() {
        text.pop();
    }
    Ok(text)
}

fn push_line(text: &mut Vec<u8>, line: &str) -> Result<()> {
    for (i, piece) in line.split("\\r").enumerate() {
        if i > 0 {
            text.push(b'\r')?;
        }
        push_piece(text, piece)?;
    }
    text.push(b'\n')?;
    Ok(())
}

fn push_piece(text: &mut Vec<u8>, piece: &str) -> Result<()> {
    for (i, part) in piece.split("\\x").enumerate() {
        if i > 0 {
            push_byte(text, part)?;
        } else {
            text.extend_from_slice(part.as_bytes())?;
        }
    }
    Ok(())
}

// A byte by its two digits, and what stands behind them.
fn push_byte(text: &mut Vec<u8>, part: &str) -> Result<()> {
    let bytes = part.as_bytes();
    if bytes.len() < 2 {
        return Err(anyhow!("no byte: {part}"));
    }
    text.push(16 * digit(bytes[0])? + digit(bytes[1])?)?;
    text.extend_from_slice(&bytes[2..])?;
    Ok(())
}

fn digit(byte: u8) -> Result<u8>
    ensures { IfOk result (λ value. value < 16) }
{
    match byte {
        b'0'..=b'9' => Ok(byte - b'0'),
        b'a'..=b'f' => Ok(byte - b'a' + 10),
        _ => Err(anyhow!("no digit: {byte}")),
    }
}

/// Bytes on one line, those that aren't printable by their digits.
pub fn shown(alloc: Global, bytes: &[u8]) -> Result<String> {
    let mut text = String::new(alloc);
    for byte in bytes {
        match byte {
            b'\n' => text.push_str("\\n")?,
            b' '..=b'~' => text.push(char::from(*byte))?,
            _ => push_digits(&mut text, *byte)?,
        }
    }
    Ok(text)
}

fn push_digits(text: &mut String, byte: u8) -> Result<()> {
    text.push_str("\\x")?;
    text.push(shown_digit(byte / 16))?;
    text.push(shown_digit(byte % 16))?;
    Ok(())
}

fn shown_digit(digit: u8) -> char
    requires { digit < 16 }
{
    if digit < 10 {
        char::from(b'0' + digit)
    } else {
        char::from(b'a' + (digit - 10))
    }
}
