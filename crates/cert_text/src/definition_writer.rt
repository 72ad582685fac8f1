//! Writing a text of definitions, block by block.

ghost use Rattle.std.specs.Prelude.{◌≡◌, ◌++◌, ◌<◌, ◌^◌, All, length, OnOk};
ghost use Rattle.std.specs.List.{flat_map};
ghost use Rattle.dq_formula.specs.Prefix.{existential_variables};
ghost use Rattle.cert_text.specs.Canonical.{step_text};
ghost use Rattle.cert_text.specs.CanonicalDefinitions.{definitions_header_text, gate_text, definition_text, values_text, valuation_text, pair_text, block_text};
ghost use Rattle.cert_text.specs.DefinitionsRead.{block_seen, definition_seen, pair_seen, valuation_seen};
ghost use Rattle.cert_text.specs.DefinitionsWritten.{IsSmallBlock};

use crate::definition_blocks::{Definition, DefinitionBlock, FreePair, Valuation};
use crate::steps::StepList;
use crate::writer::{write_bits, write_row, write_step};
use circuit_plain::Gate;
use dq_formula::Formula;
use dq_lits::Memory;
use dq_text::{push_last, push_spaced, push_word};

/// Writes the header of a text of definitions for a formula: `p dqd E`, with the number of its
/// existentials.
pub fn write_definitions_header(f: &Formula, text: &mut Vec<u8>) -> Result<(), Memory>
    ensures { OnOk result (text.new.items
        ≡ text.old.items ++ definitions_header_text (length f.now.existentials)) }
{
    push_word(text, b"p dqd ")?;
    push_last(text, f.existentials().len() as u64)
}

/// Writes the block of an existential. The variables of its gates are such that they can be doubled.
pub fn write_block(f: &Formula, block: &DefinitionBlock, text: &mut Vec<u8>) -> Result<(), Memory>
    requires small { IsSmallBlock (block_seen block.now) }
    ensures { OnOk result
        (text.new.items ≡ text.old.items ++ block_text f.now (block_seen block.now)) }
{
    match block {
        DefinitionBlock::Defined(definition) => write_definition(definition, text),
        DefinitionBlock::Free(pair) => write_pair(f, pair, text),
    }
}

fn write_definition(d: &Definition, text: &mut Vec<u8>) -> Result<(), Memory>
    requires small { All (λ g. g.variable < 2 ^ 63) d.now.gates.items }
    ensures { OnOk result
        (text.new.items ≡ text.old.items ++ definition_text (definition_seen d.now)) }
{
    push_word(text, b"t ")?;
    push_spaced(text, d.existential)?;
    push_spaced(text, d.output)?;
    push_spaced(text, d.gates.len() as u64)?;
    push_last(text, d.steps.len() as u64)?;
    write_gates(&d.gates, text)?;
    write_steps(&d.steps, text)
}

fn write_gates(gates: &[Gate], text: &mut Vec<u8>) -> Result<(), Memory>
    requires small { All (λ g. g.variable < 2 ^ 63) gates.now }
    ensures { OnOk result (text.new.items ≡ text.old.items ++ flat_map gate_text gates.now) }
{
    for gate in gates {
        write_gate(gate, text)?;
    }
    Ok(())
}

fn write_gate(gate: &Gate, text: &mut Vec<u8>) -> Result<(), Memory>
    requires small { gate.now.variable < 2 ^ 63 }
    ensures { OnOk result (text.new.items ≡ text.old.items ++ gate_text gate.now) }
{
    push_spaced(text, 2 * gate.variable)?;
    push_spaced(text, gate.left)?;
    push_last(text, gate.right)
}

fn write_steps(steps: &StepList, text: &mut Vec<u8>) -> Result<(), Memory>
    ensures { OnOk result (text.new.items ≡ text.old.items ++ flat_map step_text steps.now) }
{
    for k in 0..steps.len() {
        write_step(steps.get(k), text)?;
    }
    Ok(())
}

fn write_pair(f: &Formula, p: &FreePair, text: &mut Vec<u8>) -> Result<(), Memory>
    ensures { OnOk result (text.new.items ≡ text.old.items ++ pair_text f.now (pair_seen p.now)) }
{
    push_word(text, b"f ")?;
    push_last(text, p.existential)?;
    write_valuation(f, &p.first, text)?;
    write_valuation(f, &p.second, text)
}

fn write_valuation(f: &Formula, v: &Valuation, text: &mut Vec<u8>) -> Result<(), Memory>
    ensures { OnOk result
        (text.new.items ≡ text.old.items ++ valuation_text f.now (valuation_seen v.now)) }
{
    write_row(f.universals(), &v.row, text)?;
    push_word(text, b"v ")?;
    write_bits(f.existentials(), &v.values, text)?;
    push_word(text, b"0\n")
}
