//! Reading a text of definitions, block by block.

ghost use Rattle.std.specs.Prelude.{◌≡◌, ◌+◌, ◌*◌, ◌≤◌, ◌<◌, ◌^◌, ◌++◌, ◌∷◌, [], length, IfOk, OnOk};
ghost use Rattle.circuit_plain.specs.declared.circuits.Gate.{Gate};
ghost use Rattle.dq_text.specs.Line.{lines_from};
ghost use Rattle.cert_text.specs.AllowedDefinitions.{first_definition_id};
ghost use Rattle.cert_text.specs.DefinitionLine.{definition_gates, head_line, signs_line};
ghost use Rattle.cert_text.specs.DefinitionText.{next_line, read_behind_head, read_block, read_definition, read_pair, read_valuation};
ghost use Rattle.cert_text.specs.DefinitionsRead.{AreGatesRead, IsPartRead, IsSmallHead, block_seen, definition_seen, itself, pair_seen, valuation_seen};
ghost use Rattle.cert_text.specs.ItemLine.{step_lines};
ghost use Rattle.cert_text.specs.Lines.{IsReadInto, IsReadingUpTo, put_behind, read_from};
ghost use Rattle.cert_text.specs.PlainStep.{read_step};
ghost use Rattle.cert_text.specs.Variables.{is_variable};

use crate::definition_blocks::{Definition, DefinitionBlock, FreePair, Valuation};
use crate::definition_lines::{BlockHead, DefinedHead, read_gate, read_head, read_signs_line};
use crate::faults::{CertFault, CertStop, at_line, refused};
use crate::headers::MAX_COUNT;
use crate::step_lines::{StepBuffers, read_step};
use crate::steps::{Step, StepList};
use crate::variables::Variables;
use circuit_plain::Gate;
use dq_formula::Formula;
use dq_lits::{Memory, Row};
use dq_text::Lines;
use std::alloc::Global;

/// Reads the block of the existential `y` in a text of definitions for a formula: its first line,
/// and a definition with its proof, or two assignments.
pub fn read_block(
    alloc: Global,
    f: &Formula,
    y: u64,
    lines: &mut Lines,
) -> Result<DefinitionBlock, CertStop>
    ensures { IsPartRead block_seen (read_block f.now y
        (lines_from lines.old.number lines.old.rest) lines.old.number) result lines.new }
{
    match next_head(f, y, lines)? {
        BlockHead::Defined(head) => {
            let definition = read_definition(alloc, f, y, head, lines)?;
            Ok(DefinitionBlock::Defined(definition))
        }
        BlockHead::Free => {
            let pair = read_pair(alloc, f, y, lines)?;
            Ok(DefinitionBlock::Free(pair))
        }
    }
}

fn next_head(f: &Formula, y: u64, lines: &mut Lines) -> Result<BlockHead, CertStop>
    ensures head { IsPartRead itself (next_line (head_line f.now y)
        (lines_from lines.old.number lines.old.rest) lines.old.number) result lines.new }
    ensures small { IfOk result IsSmallHead }
{
    let Some(line) = lines.next() else {
        return Err(refused(lines.number(), CertFault::Truncated));
    };
    match read_head(f, y, line.text) {
        Ok(head) => Ok(head),
        Err(name) => Err(refused(line.number, name)),
    }
}

// Reads the gates and the steps of a definition.
fn read_definition(
    alloc: Global,
    f: &Formula,
    y: u64,
    head: DefinedHead,
    lines: &mut Lines,
) -> Result<Definition, CertStop>
    requires { head.gates ≤ MAX_COUNT }
    ensures { IsPartRead definition_seen (read_definition f.now y head
        (lines_from lines.old.number lines.old.rest) lines.old.number) result lines.new }
{
    let gates = read_gates(alloc, f, head.gates, lines)?;
    let variables = Variables::UpTo(f.vars() + head.gates);
    let first = first_definition_id(f, head.gates);
    let steps = read_steps(alloc, variables, first, head.steps, lines)?;
    Ok(Definition {
        existential: y,
        output: head.output,
        gates,
        steps,
    })
}

// Reads steps over these variables, numbered from an id on.
fn read_steps(
    alloc: Global,
    variables: Variables,
    first: u128,
    count: u64,
    lines: &mut Lines,
) -> Result<StepList, CertStop>
    requires { first < 2 ^ 127 }
    ensures { IsReadingUpTo (read_from (step_lines (is_variable variables.entry)) first count
        lines.old) result lines.new }
{
    let mut steps = StepList::new(alloc);
    let mut buffers = StepBuffers::new(alloc);
    take_steps(variables, first, count, lines, &mut buffers, &mut steps)?;
    Ok(steps)
}

// Puts the steps behind those that were read.
fn take_steps(
    variables: Variables,
    first: u128,
    count: u64,
    lines: &mut Lines,
    buffers: &mut StepBuffers,
    steps: &mut StepList,
) -> Result<(), CertStop>
    requires { first < 2 ^ 127 }
    ensures { IsReadInto (put_behind steps.old (read_from (step_lines (is_variable variables.entry))
        first count lines.old)) result steps.new lines.new }
{
    for k in 0..count {
        let Some(line) = lines.next() else {
            return Err(refused(lines.number(), CertFault::Truncated));
        };
        match read_step(variables, first + k as u128, line.text, buffers) {
            Ok(id) => push_step(id, buffers, steps)?,
            Err(stop) => return Err(at_line(line.number, stop)),
        }
    }
    Ok(())
}

fn push_step(id: u64, buffers: &StepBuffers, steps: &mut StepList) -> Result<(), Memory>
    ensures { OnOk result
        (steps.new
        ≡ steps.old ++ read_step id buffers.now.literals.items buffers.now.hints.items ∷ []) }
{
    steps.push(Step {
        id,
        lits: &buffers.literals,
        hints: &buffers.hints,
    })
}

/// The id of the first step of a definition of so many gates.
pub fn first_definition_id(f: &Formula, gates: u64) -> u128
    requires { gates ≤ MAX_COUNT }
    ensures id { result ≡ first_definition_id f.now gates }
    ensures from_one { 1 ≤ result }
    ensures small { result < 2 ^ 127 }
{
    f.clauses() as u128 + 3 * gates as u128 + 3
}

fn read_gates(
    alloc: Global,
    f: &Formula,
    count: u64,
    lines: &mut Lines,
) -> Result<Vec<Gate>, CertStop>
    requires { count ≤ MAX_COUNT }
    ensures { AreGatesRead (read_from (definition_gates f.now) (f.now.variables + 1) count
        lines.old) result lines.new }
{
    let mut gates = Vec::new(alloc);
    take_gates(f, count, lines, &mut gates)?;
    Ok(gates)
}

// Puts the gates behind those that were read.
fn take_gates(
    f: &Formula,
    count: u64,
    lines: &mut Lines,
    gates: &mut Vec<Gate>,
) -> Result<(), CertStop>
    requires { count ≤ MAX_COUNT }
    ensures { IsReadInto (put_behind gates.old.items (read_from (definition_gates f.now)
        (f.now.variables + 1) count lines.old)) result gates.new.items lines.new }
{
    for k in 0..count {
        let Some(line) = lines.next() else {
            return Err(refused(lines.number(), CertFault::Truncated));
        };
        match read_gate(f, f.vars() + 1 + k, line.text) {
            Ok(gate) => push_gate(gates, gate)?,
            Err(name) => return Err(refused(line.number, name)),
        }
    }
    Ok(())
}

fn push_gate(gates: &mut Vec<Gate>, gate: Gate) -> Result<(), Memory>
    ensures { OnOk result (gates.new.items ≡ gates.old.items ++ gate ∷ []) }
{
    gates.push(gate)?;
    Ok(())
}

// Reads two assignments.
fn read_pair(alloc: Global, f: &Formula, y: u64, lines: &mut Lines) -> Result<FreePair, CertStop>
    ensures { IsPartRead pair_seen (read_pair f.now y
        (lines_from lines.old.number lines.old.rest) lines.old.number) result lines.new }
{
    let first = read_valuation(alloc, f, lines)?;
    let second = read_valuation(alloc, f, lines)?;
    Ok(FreePair {
        existential: y,
        first,
        second,
    })
}

fn read_valuation(alloc: Global, f: &Formula, lines: &mut Lines) -> Result<Valuation, CertStop>
    ensures { IsPartRead valuation_seen (read_valuation f.now
        (lines_from lines.old.number lines.old.rest) lines.old.number) result lines.new }
{
    let row = next_signs(alloc, b"u", f.universals(), lines)?;
    let values = next_signs(alloc, b"v", f.existentials(), lines)?;
    Ok(Valuation { row, values })
}

fn next_signs(
    alloc: Global,
    letter: &[u8],
    variables: &[u64],
    lines: &mut Lines,
) -> Result<Row, CertStop>
    ensures { IsPartRead itself (next_line (signs_line letter.now variables.now)
        (lines_from lines.old.number lines.old.rest) lines.old.number) result lines.new }
{
    let mut integers = Vec::new(alloc);
    let Some(line) = lines.next() else {
        return Err(refused(lines.number(), CertFault::Truncated));
    };
    match read_signs_line(alloc, letter, variables, line.text, &mut integers) {
        Ok(row) => Ok(row),
        Err(stop) => Err(at_line(line.number, stop)),
    }
}
