//! A definition's block, from an answer that shows the definition.

ghost use Rattle.std.specs.Prelude.{◌≡◌, ◌≤◌, ◌+◌, ◌*◌, ◌<◌, ◌^◌, ℕ, All, Contains, IfOk, OnOk, length, map};
ghost use Rattle.dq_lits.specs.Formula.{IsWellFormed};
ghost use Rattle.cert_text.specs.DefinitionsRead.{definition_seen};
ghost use Rattle.definition_export.specs.ExportedDefinition.{definition_renaming, exported_gates, last_definition_id, term_gate};
ghost use Rattle.definition_export.specs.Exporting.{CanExportDefinition, IsExportedDefinition};
ghost use Rattle.definition_export.specs.Parts.{AreDefinitionIds, AreBlockSteps, CanBeListed};
ghost use Rattle.definition_export.specs.TermOrder.{IsTermOrder};
ghost use Rattle.hint_log.specs.Entries.{name_of};

use crate::bases::DefinitionClauses;
use crate::needed::needed_terms;
use crate::numbers::{DefinitionNumbers, MOST};
use crate::terms::TermOrder;
use cert_export::{LineSource, given_names, write_lines};
use cert_text::{Definition, StepList};
use circuit_plain::Gate;
use dq_formula::Formula;
use dq_lits::Memory;
use hint_log::laws::{clauses_are_named, reached_are_ids};
use hint_log::{Leaf, Log, Name};
use std::alloc::Global;

/// The block of an existential, from an answer, the log's last entry, that shows that it equals an
/// output over first copies. There is a gate for each one that the output or the proof rests on, and
/// a line for each learned clause and answer that the answer reaches. It takes time for what the
/// answer reaches and for these gates, and memory for both.
pub fn export_definition(
    alloc: Global,
    log: &Log,
    order: &TermOrder,
    id: u64,
    f: &Formula,
    y: u64,
    leaf: Leaf,
) -> Result<Definition, Memory>
    requires formula { IsWellFormed f.now }
    requires order { IsTermOrder order.now log.now.entries }
    requires can { CanExportDefinition f.now log.now.entries id y leaf }
    ensures { IfOk result
        (λ d. IsExportedDefinition f.now log.now.entries y leaf (definition_seen d)) }
{
    f.every_formula_is_lawful();
    log.every_log_is_lawful();
    reached_are_ids();
    let ids = log.trim(id)?;
    let gates = needed_terms(alloc, log, order, ids.items(), &leaf)?;
    if gates.len() as u64 > MOST {
        return Err(Memory);
    }
    let numbers = DefinitionNumbers {
        f,
        log,
        gates: &gates,
    };
    block(alloc, &numbers, id, ids.items(), y, &leaf)
}

// The block of the existential, over these gates.
fn block(
    alloc: Global,
    numbers: &DefinitionNumbers,
    id: u64,
    ids: &[u64],
    y: u64,
    leaf: &Leaf,
) -> Result<Definition, Memory>
    requires { AreDefinitionIds numbers.now.f.now numbers.now.log.now.entries id ids.now y leaf.now
        numbers.now.gates.now }
    ensures { IfOk result (λ d. IsExportedDefinition numbers.now.f.now
        numbers.now.log.now.entries y leaf.now (definition_seen d)) }
{
    let steps = block_steps(alloc, numbers, id, ids, y, leaf)?;
    let output = numbers.leaf_code(leaf);
    let gates = block_gates(alloc, numbers)?;
    Ok(Definition {
        existential: y,
        output,
        gates,
        steps,
    })
}

// The lines of the derived clauses among some ids.
fn block_steps(
    alloc: Global,
    numbers: &DefinitionNumbers,
    id: u64,
    ids: &[u64],
    y: u64,
    leaf: &Leaf,
) -> Result<StepList, Memory>
    requires { AreDefinitionIds numbers.now.f.now numbers.now.log.now.entries id ids.now y leaf.now
        numbers.now.gates.now }
    ensures { IfOk result (AreBlockSteps numbers.now.f.now numbers.now.log.now.entries ids.now
        numbers.now.gates.now) }
{
    clauses_are_named();
    let names = given_names(alloc, numbers.log, ids, numbers)?;
    let base = DefinitionClauses {
        f: numbers.f,
        gates: numbers.gates,
    };
    let source = LineSource {
        log: numbers.log,
        ids,
        names: &names,
        base: &base,
        last: numbers.f.clauses() as u64 + 3 * numbers.gates.len() as u64 + 2,
    };
    write_lines(alloc, &source)
}

// The gates, in their order.
fn block_gates(alloc: Global, numbers: &DefinitionNumbers) -> Result<Vec<Gate>, Memory>
    requires { CanBeListed numbers.now.log.now.entries numbers.now.gates.now }
    ensures { IfOk result (λ gates. gates.items ≡ exported_gates numbers.now.f.now
        numbers.now.log.now.entries numbers.now.gates.now) }
{
    let mut gates = Vec::new(alloc);
    for v in numbers.gates.items() {
        gates.push(block_gate(numbers, *v))?;
    }
    Ok(gates)
}

fn block_gate(numbers: &DefinitionNumbers, v: u64) -> Gate
    requires can { CanBeListed numbers.now.log.now.entries numbers.now.gates.now }
    requires inside { Contains numbers.now.gates.now v }
    ensures { result ≡ term_gate (definition_renaming numbers.now.f.now
        numbers.now.log.now.entries numbers.now.gates.now) v (name_of numbers.now.log.now.entries v) }
{
    match numbers.log.name(v) {
        Name::Term { left, right } => Gate {
            variable: numbers.number_or_zero(v),
            left: numbers.code(&left),
            right: numbers.code(&right),
        },
        _ => unreachable!(),
    }
}
