//! The lines of a text of definitions.
//!
//! Lines of a block are words and the numbers behind them, and one predicate says what spells a
//! line, as the kinds of lines differ in nothing else.

ghost use Rattle.std.specs.Prelude.{◌≡◌, ◌*◌, ◌≤◌, ◌<◌, ◌^◌, length, IfOk};
ghost use Rattle.circuit_plain.specs.declared.circuits.Gate.{Gate};
ghost use Rattle.dq_text.specs.Line.{line_tokens};
ghost use Rattle.cert_text.specs.AllowedDefinitions.{is_readable, is_output};
ghost use Rattle.cert_text.specs.DefinitionLine.{checked_gate, checked_head, counted, defined_head, definition_gate, definitions_header, free_head, free_of, gate_of, head_line, head_of, is_large, signs_line};
ghost use Rattle.cert_text.specs.DefinitionsRead.{IsSmallHead};
ghost use Rattle.cert_text.specs.LineStop.{IsLineOf};

use crate::faults::{CertFault, LineStop};
use crate::headers::MAX_COUNT;
use crate::row_lines::read_signs;
use circuit_plain::Gate;
use dq_formula::Formula;
use dq_lits::Row;
use dq_text::{LineTokens, TOO_BIG, is_word, natural};
use std::alloc::Global;

/// What the first line of a definition's block says behind the existential.
#[derive(Clone, Copy, PartialEq, Eq)]
pub struct DefinedHead {
    /// The output's literal.
    pub output: u64,
    /// How many gates the definition has.
    pub gates: u64,
    /// How many steps its proof has.
    pub steps: u64,
}

/// What a block is.
#[derive(Clone, Copy, PartialEq, Eq)]
pub enum BlockHead {
    /// A definition, and its proof.
    Defined(DefinedHead),
    /// Two assignments that show that there is no definition.
    Free,
}

/// Reads the header line: exactly the tokens `p` and `dqd`, and how many existentials the formula has.
pub fn read_definitions_header(f: &Formula, line: &[u8]) -> Result<(), CertFault>
    ensures { result ≡ definitions_header f.now (line_tokens line.now) }
{
    let mut tokens = LineTokens::new(line);
    match (tokens.next(), tokens.next(), tokens.next()) {
        (Some(letter), Some(word), Some(count)) if tokens.next().is_none() => {
            if !is_word(letter, b"p") || !is_word(word, b"dqd") {
                return Err(CertFault::BadHeader);
            }
            check_count(f, natural(count))
        }
        _ => Err(CertFault::BadHeader),
    }
}

fn check_count(f: &Formula, count: Option<u64>) -> Result<(), CertFault>
    ensures { result ≡ counted f.now count }
{
    let Some(count) = count else {
        return Err(CertFault::BadHeader);
    };
    if count > MAX_COUNT {
        return Err(CertFault::TooBig);
    }
    if count != existentials(f) {
        return Err(CertFault::BadHeader);
    }
    Ok(())
}

fn existentials(f: &Formula) -> u64
    ensures { result ≡ length f.now.existentials }
{
    f.existentials().len() as u64
}

/// Reads the first line of the block of the existential `next`.
pub fn read_head(f: &Formula, next: u64, line: &[u8]) -> Result<BlockHead, CertFault>
    ensures head { result ≡ head_line f.now next (line_tokens line.now) }
    ensures small { IfOk result IsSmallHead }
{
    let mut tokens = LineTokens::new(line);
    match tokens.next() {
        Some(letter) if is_word(letter, b"t") => read_defined(f, next, &mut tokens),
        Some(letter) if is_word(letter, b"f") => read_free(next, &mut tokens),
        _ => Err(CertFault::BadLine),
    }
}

fn read_defined(f: &Formula, next: u64, tokens: &mut LineTokens) -> Result<BlockHead, CertFault>
    ensures head { result ≡ defined_head f.now next tokens.old }
    ensures small { IfOk result IsSmallHead }
{
    match (tokens.next(), tokens.next(), tokens.next(), tokens.next()) {
        (Some(y), Some(output), Some(gates), Some(steps)) if tokens.next().is_none() => head_from(
            f,
            next,
            natural(y),
            natural(output),
            natural(gates),
            natural(steps),
        ),
        _ => Err(CertFault::BadLine),
    }
}

fn head_from(
    f: &Formula,
    next: u64,
    y: Option<u64>,
    output: Option<u64>,
    gates: Option<u64>,
    steps: Option<u64>,
) -> Result<BlockHead, CertFault>
    ensures head { result ≡ head_of f.now next y output gates steps }
    ensures small { IfOk result IsSmallHead }
{
    let (Some(y), Some(output), Some(gates), Some(steps)) = (y, output, gates, steps) else {
        return Err(CertFault::BadLine);
    };
    check_head(
        f,
        next,
        y,
        DefinedHead {
            output,
            gates,
            steps,
        },
    )
}

fn check_head(f: &Formula, next: u64, y: u64, head: DefinedHead) -> Result<BlockHead, CertFault>
    ensures head { result ≡ checked_head f.now next y head }
    ensures small { IfOk result IsSmallHead }
{
    if is_large(y) || is_large(head.output) || is_large(head.gates) || is_large(head.steps) {
        return Err(CertFault::TooBig);
    }
    if y != next {
        return Err(CertFault::BlockOrder);
    }
    if head.gates > MAX_COUNT || head.steps > MAX_COUNT {
        return Err(CertFault::TooBig);
    }
    if !is_output(f, head.gates, head.output) {
        return Err(CertFault::BadGate);
    }
    Ok(BlockHead::Defined(head))
}

fn is_large(n: u64) -> bool
    ensures { result ≡ is_large n }
{
    n >= TOO_BIG
}

// Whether a definition of so many gates may have this literal as its output.
fn is_output(f: &Formula, gates: u64, literal: u64) -> bool
    requires { gates ≤ MAX_COUNT }
    ensures { result ≡ is_output f.now gates literal }
{
    is_readable(f, literal) && literal / 2 <= f.vars() + gates
}

// Whether a literal is a constant, or on a variable that is declared or lies behind the formula's.
fn is_readable(f: &Formula, literal: u64) -> bool
    ensures { result ≡ is_readable f.now literal }
{
    let variable = literal / 2;
    variable == 0 || variable > f.vars() || f.is_declared(variable)
}

fn read_free(next: u64, tokens: &mut LineTokens) -> Result<BlockHead, CertFault>
    ensures head { result ≡ free_head next tokens.old }
    ensures small { IfOk result IsSmallHead }
{
    match tokens.next() {
        Some(y) if tokens.next().is_none() => check_free(next, natural(y)),
        _ => Err(CertFault::BadLine),
    }
}

fn check_free(next: u64, y: Option<u64>) -> Result<BlockHead, CertFault>
    ensures head { result ≡ free_of next y }
    ensures small { IfOk result IsSmallHead }
{
    let Some(y) = y else {
        return Err(CertFault::BadLine);
    };
    if is_large(y) {
        return Err(CertFault::TooBig);
    }
    if y != next {
        return Err(CertFault::BlockOrder);
    }
    Ok(BlockHead::Free)
}

/// Reads the line of a gate that has to have this variable.
pub fn read_gate(f: &Formula, variable: u64, line: &[u8]) -> Result<Gate, CertFault>
    requires { variable < 2 ^ 62 }
    ensures { result ≡ definition_gate f.now variable (line_tokens line.now) }
{
    let mut tokens = LineTokens::new(line);
    match (tokens.next(), tokens.next(), tokens.next()) {
        (Some(lhs), Some(left), Some(right)) if tokens.next().is_none() => {
            gate_from(f, variable, natural(lhs), natural(left), natural(right))
        }
        _ => Err(CertFault::BadLine),
    }
}

fn gate_from(
    f: &Formula,
    variable: u64,
    lhs: Option<u64>,
    left: Option<u64>,
    right: Option<u64>,
) -> Result<Gate, CertFault>
    requires { variable < 2 ^ 62 }
    ensures { result ≡ gate_of f.now variable lhs left right }
{
    let (Some(lhs), Some(left), Some(right)) = (lhs, left, right) else {
        return Err(CertFault::BadLine);
    };
    check_gate(
        f,
        2 * variable,
        lhs,
        Gate {
            variable,
            left,
            right,
        },
    )
}

fn check_gate(f: &Formula, wanted: u64, lhs: u64, gate: Gate) -> Result<Gate, CertFault>
    ensures { result ≡ checked_gate f.now wanted lhs gate }
{
    if is_large(lhs) || is_large(gate.left) || is_large(gate.right) {
        return Err(CertFault::TooBig);
    }
    if lhs != wanted {
        return Err(CertFault::BadGate);
    }
    if gate.left >= lhs || gate.right >= lhs {
        return Err(CertFault::BadGate);
    }
    if !is_readable(f, gate.left) || !is_readable(f, gate.right) {
        return Err(CertFault::BadGate);
    }
    Ok(gate)
}

/// Reads a line of this letter, each of these variables with its sign, and 0.
pub fn read_signs_line(
    alloc: Global,
    letter: &[u8],
    variables: &[u64],
    line: &[u8],
    integers: &mut Vec<i64>,
) -> Result<Row, LineStop>
    ensures { IsLineOf (signs_line letter.now variables.now (line_tokens line.now)) result }
{
    let mut tokens = LineTokens::new(line);
    match tokens.next() {
        Some(token) if is_word(token, letter) => {}
        _ => return Err(LineStop::Fault(CertFault::BadLine)),
    }
    read_signs(alloc, variables, &mut tokens, integers)
}
