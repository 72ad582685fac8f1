//! Steps.

ghost use Rattle.std.specs.Prelude.{◌≡◌, ◌≤◌, nat_lt, nat_abs, ◌&&◌, map, Ok, Err, OnOk, MatchResult, IsTrue};
ghost use Rattle.std.specs.Int.{is_positive};
ghost use Rattle.std.specs.List.{All, list_all, position};
ghost use Rattle.std.specs.Option.{option_map};
ghost use Rattle.dq_lits.specs.Literal.{dimacs_literal, variable_of};
ghost use Rattle.dq_text.specs.Line.{line_tokens};
ghost use Rattle.cert_text.specs.PlainStep.{IsStepOf};
ghost use Rattle.cert_text.specs.StepLine.{is_zero, is_nil, cut_at_zero, step_of, checked_step, step_line};
ghost use Rattle.cert_text.specs.StepNumbers.{numbered_step, maybe_step, IsLiteralNumber};
ghost use Rattle.cert_text.specs.Variables.{is_variable};

use crate::faults::{CertFault, LineStop};
use crate::numbers::take_integers;
use crate::plain_steps::{literal, take_plain_step};
use crate::variables::Variables;
use dq_lits::{Lit, Memory};
use dq_text::LineTokens;
use std::alloc::Global;

/// The numbers of a step, without the zeros that end its parts.
#[derive(Clone, Copy)]
pub struct StepNumbers<'a> {
    pub id: u64,
    pub literals: &'a [i64],
    pub hints: &'a [i64],
}

/// What is read of a line.
#[derive(Drop)]
pub struct StepBuffers {
    pub integers: Vec<i64>,
    pub literals: Vec<Lit>,
    pub hints: Vec<u64>,
}

impl StepBuffers {
    /// Nothing is read yet. It takes no memory.
    pub fn new(alloc: Global) -> StepBuffers {
        StepBuffers {
            integers: Vec::new(alloc),
            literals: Vec::new(alloc),
            hints: Vec::new(alloc),
        }
    }
}

/// Reads a step with the next id, over these variables, and answers its id; its literals and hints
/// stand in the buffers then.
#[inline(always)]
pub fn read_step(
    variables: Variables,
    next: u128,
    line: &[u8],
    buffers: &mut StepBuffers,
) -> Result<u64, LineStop>
    ensures { IsStepOf (step_line (is_variable variables.entry) next (line_tokens line.now)) result
        buffers.new.literals.items buffers.new.hints.items }
{
    let plain = take_plain_step(
        variables,
        next,
        line,
        &mut buffers.literals,
        &mut buffers.hints,
    )?;
    match plain {
        Some(id) => Ok(id),
        None => take_step(variables, next, line, buffers),
    }
}

// The same for any line.
#[inline(never)]
fn take_step(
    variables: Variables,
    next: u128,
    line: &[u8],
    buffers: &mut StepBuffers,
) -> Result<u64, LineStop>
    ensures { IsStepOf (step_line (is_variable variables.entry) next (line_tokens line.now)) result
        buffers.new.literals.items buffers.new.hints.items }
{
    take_integers(&mut LineTokens::new(line), &mut buffers.integers)?;
    let Some(numbers) = step_numbers(&buffers.integers) else {
        return Err(LineStop::Fault(CertFault::BadLine));
    };
    check_step(variables, next, numbers)?;
    keep_literals(numbers.literals, &mut buffers.literals)?;
    keep_hints(numbers.hints, &mut buffers.hints)?;
    Ok(numbers.id)
}

// A positive id, literals and 0, positive hints and 0, and nothing more.
fn step_numbers(integers: &[i64]) -> Option<StepNumbers<'_>>
    ensures { maybe_step result ≡ step_of integers.now }
{
    let (id, rest) = integers.split_first()?;
    let (literals, rest) = before_zero(rest)?;
    let (hints, rest) = before_zero(rest)?;
    if !is_shape(*id, hints, rest) {
        return None;
    }
    Some(StepNumbers {
        id: id.unsigned_abs(),
        literals,
        hints,
    })
}

/// The numbers before the first 0, and those behind it.
pub fn before_zero(numbers: &[i64]) -> Option<(&[i64], &[i64])>
    ensures { option_map (λ parts. (parts.0.now, parts.1.now)) result ≡ cut_at_zero numbers.now }
{
    let end = first_zero(numbers)?;
    Some((&numbers[..end], &numbers[end + 1..]))
}

// Whether the id and the hints are positive, and nothing stands behind them.
fn is_shape(id: i64, hints: &[i64], behind: &[i64]) -> bool
    ensures { result ≡ (is_positive id && (list_all is_positive hints.now && is_nil behind.now)) }
{
    id > 0 && are_positive(hints) && behind.is_empty()
}

fn first_zero(numbers: &[i64]) -> Option<usize>
    ensures { result ≡ position is_zero numbers.now }
{
    numbers.iter().position(|n| *n == 0)
}

/// Whether all numbers are positive.
pub fn are_positive(numbers: &[i64]) -> bool
    ensures { result ≡ list_all is_positive numbers.now }
{
    numbers.iter().all(|n| *n > 0)
}

// The checks behind the shape, in their order.
#[tactic(auto, using(crate::proofs::Checks::checked_numbers))]
fn check_step(variables: Variables, next: u128, step: StepNumbers) -> Result<(), CertFault>
    ensures { MatchResult result
        (λ _. (checked_step (is_variable variables.entry) next (numbered_step step.entry)
        ≡ Ok (numbered_step step.entry))
        × All (λ n. 1 ≤ nat_abs n) step.entry.literals.now)
        (λ name. checked_step (is_variable variables.entry) next (numbered_step step.entry)
        ≡ Err name) }
{
    if step.id as u128 != next {
        return Err(CertFault::IdOrder);
    }
    if !are_on(variables, step.literals) {
        return Err(CertFault::BadVariable);
    }
    if !are_below(step.hints, step.id) {
        return Err(CertFault::UnknownHint);
    }
    Ok(())
}

fn are_on(variables: Variables, literals: &[i64]) -> bool
    ensures variables { result
        ≡ list_all (λ n. is_variable variables.entry (variable_of (dimacs_literal n)))
        literals.now }
    ensures some { IsTrue result → All (λ n. 1 ≤ nat_abs n) literals.now }
{
    literals.iter().all(|n| variables.has_literal(*n))
}

fn are_below(hints: &[i64], id: u64) -> bool
    ensures { result ≡ list_all (λ n. nat_lt (nat_abs n) id) hints.now }
{
    hints.iter().all(|n| n.unsigned_abs() < id)
}

// Puts literals in place of those in the buffer.
fn keep_literals(numbers: &[i64], literals: &mut Vec<Lit>) -> Result<(), Memory>
    requires { All IsLiteralNumber numbers.now }
    ensures { OnOk result (literals.new.items ≡ map dimacs_literal numbers.now) }
{
    literals.clear();
    for n in numbers {
        literals.push(literal(*n))?;
    }
    Ok(())
}

/// Puts hints in place of those in the buffer.
pub fn keep_hints(numbers: &[i64], hints: &mut Vec<u64>) -> Result<(), Memory>
    ensures { OnOk result (hints.new.items ≡ map nat_abs numbers.now) }
{
    hints.clear();
    for n in numbers {
        hints.push(n.unsigned_abs())?;
    }
    Ok(())
}
