//! The circuit and the proof of a true formula, from an answer that decides so.
//!
//! Faults that the answer reaches tell each existential's leaf; where they tell none nothing rests
//! on the output, and it is constant false. So time and memory go with what is reached, a pass over
//! the log's names apart.

ghost use Rattle.std.specs.Prelude.{◌≡◌, ◌≤◌, ◌+◌, ℕ, List, length, IfOk};
ghost use Rattle.std.specs.List.{sum_by};
ghost use Rattle.dq_lits.specs.Formula.{IsWellFormed};
ghost use Rattle.hint_log.specs.Entries.{count};
ghost use Rattle.cert_text.specs.Header.{max_count};
ghost use Rattle.cert_text.specs.ProofGrammar.{IsDqpOf};
ghost use Rattle.cert_export.specs.CircuitPart.{exported_netlist};
ghost use Rattle.cert_export.specs.ExportedCircuit.{CanExportTrue, IsNumberedFile, IsWritable, is_gate_name};
ghost use Rattle.proof_checker.specs.ProvedCircuit.{IsProvedCircuit};
ghost use Rattle.cert_export.specs.Lines.{is_lemma};
ghost use Rattle.cert_export.specs.Negated.{AreLengthsBefore};
ghost use Rattle.cert_export.specs.Parts.{part_of, AreDecided, AreCircuitIds, AreProofItems, IsCircuitFile, IsExportedCircuit};

use crate::circuit_numbers::{CircuitNumbers, MOST};
use crate::laws::{exported_answer_is_proved, exported_file_is_spellable};
use crate::naming::given_names;
use crate::negated::{Negated, lengths_before};
use crate::netlists::netlist;
use crate::parts::exported_part;
use crate::symbols::number_symbols;
use crate::written::{LineSource, write_lines};
use aiger_text::AagFile;
use cert_text::{Dqp, ItemList};
use dq_formula::Formula;
use dq_lits::Memory;
use hint_log::Log;
use hint_log::laws::{clauses_are_named, reached_are_ids};
use std::alloc::Global;

/// The circuit and the proof that an answer stands for, which decides that the formula is true.
/// Each existential's output is the one in the faults that the answer reaches, and constant false
/// where it reaches none. There is a gate for each one that an output or the proof rests on, and a
/// line for each learned clause and answer that the answer reaches. It takes time and memory for
/// the formula and what the answer reaches.
pub fn export_true(alloc: Global, log: &Log, id: u64, f: &Formula) -> Result<(AagFile, Dqp), Memory>
    requires formula { IsWellFormed f.now }
    requires decided { CanExportTrue f.now log.now.entries id }
    ensures proved { IfOk result (λ c. IsProvedCircuit f.now c.0 c.1) }
    ensures gates { IfOk result
        (λ c. length c.0.circuit.gates ≤ count is_gate_name log.now.entries) }
    ensures numbers { IfOk result (λ c. IsNumberedFile f.now c.0) }
    ensures few { IfOk result (λ c. length c.1.items ≤ count is_lemma log.now.entries) }
    ensures spelled { IfOk result (λ c. IsWritable c.0) }
    ensures allowed { IfOk result
        (λ c. length c.1.items ≤ max_count → IsDqpOf f.now c.0.circuit c.1) }
    // Every item is the line of an id that the answer reaches.
    ensures exported { IfOk result (λ c. (ids : List ℕ)
        × IsExportedCircuit f.now log.now.entries id ids c.0 c.1) }
{
    f.every_formula_is_lawful();
    log.every_log_is_lawful();
    reached_are_ids();
    exported_answer_is_proved();
    exported_file_is_spellable();
    let ids = log.trim(id)?;
    export_ids(alloc, log, id, ids.items(), f)
}

// The circuit and the proof of an answer, by the ids that it reaches.
fn export_ids(
    alloc: Global,
    log: &Log,
    id: u64,
    ids: &[u64],
    f: &Formula,
) -> Result<(AagFile, Dqp), Memory>
    requires { AreDecided f.now log.now.entries id ids.now }
    ensures { IfOk result (λ c. IsExportedCircuit f.now log.now.entries id ids.now c.0 c.1) }
{
    let part = exported_part(alloc, log, id, ids, f)?;
    if part.gates.len() as u64 > MOST {
        return Err(Memory);
    }
    let before = lengths_before(alloc, f)?;
    let numbers = CircuitNumbers {
        f,
        log,
        part: &part,
    };
    let items = proof_items(alloc, &numbers, id, ids, &before)?;
    let file = circuit_file(alloc, &numbers, id, ids)?;
    Ok((file, Dqp { items }))
}

// The circuit, with the variables' numbers as symbols.
fn circuit_file(
    alloc: Global,
    numbers: &CircuitNumbers,
    id: u64,
    ids: &[u64],
) -> Result<AagFile, Memory>
    requires { AreCircuitIds numbers.now.f.now numbers.now.log.now.entries id ids.now
        (part_of numbers.now.part.now) }
    ensures { IfOk result (λ file. IsCircuitFile numbers.now.f.now numbers.now.log.now.entries
        (part_of numbers.now.part.now) file) }
{
    Ok(AagFile {
        circuit: netlist(alloc, numbers.log, numbers.f, numbers.part)?,
        symbols: number_symbols(alloc, numbers.f)?,
        comment: None,
    })
}

// The lines of the derived clauses among some ids.
fn proof_items(
    alloc: Global,
    numbers: &CircuitNumbers,
    id: u64,
    ids: &[u64],
    before: &[u64],
) -> Result<ItemList, Memory>
    requires ids { AreCircuitIds numbers.now.f.now numbers.now.log.now.entries id ids.now
        (part_of numbers.now.part.now) }
    requires lengths { AreLengthsBefore numbers.now.f.now.matrix before.now }
    ensures { IfOk result (AreProofItems numbers.now.f.now numbers.now.log.now.entries
        (part_of numbers.now.part.now) ids.now) }
{
    clauses_are_named();
    let names = given_names(alloc, numbers.log, ids, numbers)?;
    let gates = &numbers.part.gates;
    let last = 3 * gates.len() as u64 + before[numbers.f.clauses()] + 1;
    let base = Negated {
        f: numbers.f,
        gates,
        before,
        last,
    };
    let source = LineSource {
        log: numbers.log,
        ids,
        names: &names,
        base: &base,
        last,
    };
    let steps = write_lines(alloc, &source)?;
    Ok(ItemList::of_lines(steps))
}
