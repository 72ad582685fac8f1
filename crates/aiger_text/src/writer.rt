//! Writing circuit files.

ghost use Rattle.std.specs.Prelude.{◌≡◌, ◌++◌, ℕ, Ok, IfOk, OnOk};
ghost use Rattle.std.specs.List.{flat_map};
ghost use Rattle.dq_text.specs.Written.{number_line};
ghost use Rattle.aiger_text.specs.Canonical.{counts_text, header_text, input_text, gate_text, symbol_text, comment_text, netlist_text, ending_text, canonical_circuit};
ghost use Rattle.aiger_text.specs.Scan.{scan};
ghost use Rattle.aiger_text.specs.Spellable.{IsSpellable};

use crate::files::{AagFile, Text};
use crate::laws::canonical_text_spells;
use crate::name_tables::NameTable;
use circuit_plain::Circuit;
use dq_lits::Memory;
use dq_text::{push_last, push_spaced, push_word};
use std::alloc::Global;

/// The canonical text of a circuit file: the header `aag M I 0 O A`; a line for each input, output
/// and gate; a line for each symbol of an input and then of an output, in the order in which the
/// file has them; and, where there is a comment, the line `c` and the comment byte for byte. Where
/// some text spells the file, reading its canonical text gives it back.
pub fn write(alloc: Global, file: &AagFile) -> Result<Vec<u8>, Memory>
    ensures canonical { IfOk result (λ text. text.items ≡ canonical_circuit file.now) }
    ensures reads_back { IsSpellable file.now
        → IfOk result (λ text. (first : ℕ) → scan text.items first ≡ Ok file.now) }
{
    canonical_text_spells();
    let mut text = Vec::new(alloc);
    write_header(&file.circuit, &mut text)?;
    write_netlist(&file.circuit, &mut text)?;
    write_ending(file, &mut text)?;
    Ok(text)
}

/// Appends what stands behind the gates in either form: the symbols of the inputs and then of the
/// outputs, and the comment.
pub fn write_ending(file: &AagFile, text: &mut Vec<u8>) -> Result<(), Memory>
    ensures { OnOk result (text.new.items ≡ text.old.items ++ ending_text file.now) }
{
    write_symbols(b'i', file.symbols.input_names(), text)?;
    write_symbols(b'o', file.symbols.output_names(), text)?;
    write_comment(&file.comment, text)
}

fn write_header(circuit: &Circuit, text: &mut Vec<u8>) -> Result<(), Memory>
    ensures { OnOk result (text.new.items ≡ text.old.items ++ header_text circuit.now) }
{
    push_word(text, b"aag ")?;
    write_counts(circuit, text)
}

/// Appends the header's numbers `M I 0 O A` and a LF.
pub fn write_counts(circuit: &Circuit, text: &mut Vec<u8>) -> Result<(), Memory>
    ensures { OnOk result (text.new.items ≡ text.old.items ++ counts_text circuit.now) }
{
    push_spaced(text, circuit.max_var())?;
    push_spaced(text, circuit.inputs().len() as u64)?;
    push_word(text, b"0 ")?;
    push_spaced(text, circuit.outputs().len() as u64)?;
    push_last(text, circuit.gates() as u64)
}

fn write_netlist(circuit: &Circuit, text: &mut Vec<u8>) -> Result<(), Memory>
    ensures { OnOk result (text.new.items ≡ text.old.items ++ netlist_text circuit.now) }
{
    write_inputs(circuit, text)?;
    write_outputs(circuit.outputs(), text)?;
    write_gates(circuit, text)
}

fn write_inputs(circuit: &Circuit, text: &mut Vec<u8>) -> Result<(), Memory>
    ensures { OnOk result
        (text.new.items ≡ text.old.items ++ flat_map input_text circuit.now.inputs) }
{
    // In range, so that doubled they fit.
    circuit.every_circuit_is_a_netlist();
    let inputs = circuit.inputs();
    for i in 0..inputs.len() {
        push_last(text, 2 * inputs[i])?;
    }
    Ok(())
}

/// Appends a line for each output.
pub fn write_outputs(outputs: &[u64], text: &mut Vec<u8>) -> Result<(), Memory>
    ensures { OnOk result (text.new.items ≡ text.old.items ++ flat_map number_line outputs.now) }
{
    let mut rest = outputs;
    while let Some((first, behind)) = rest.split_first() {
        push_last(text, *first)?;
        rest = behind;
    }
    Ok(())
}

fn write_gates(circuit: &Circuit, text: &mut Vec<u8>) -> Result<(), Memory>
    ensures { OnOk result
        (text.new.items ≡ text.old.items ++ flat_map gate_text circuit.now.gates) }
{
    for i in 0..circuit.gates() {
        let (variable, left, right) = circuit.gate(i);
        push_spaced(text, variable)?;
        push_spaced(text, left)?;
        push_last(text, right)?;
    }
    Ok(())
}

// A letter, a place and a name.
fn write_symbol(letter: u8, place: u64, name: &[u8], text: &mut Vec<u8>) -> Result<(), Memory>
    ensures { OnOk result
        (text.new.items ≡ text.old.items ++ symbol_text letter (place, name.now)) }
{
    text.push(letter)?;
    push_spaced(text, place)?;
    push_word(text, name)?;
    text.push(b'\n')?;
    Ok(())
}

fn write_symbols(letter: u8, symbols: &NameTable, text: &mut Vec<u8>) -> Result<(), Memory>
    ensures { OnOk result
        (text.new.items ≡ text.old.items ++ flat_map (symbol_text letter) symbols.now) }
{
    for i in 0..symbols.len() {
        write_symbol(letter, symbols.place(i), symbols.name(i), text)?;
    }
    Ok(())
}

fn write_comment(comment: &Option<Text>, text: &mut Vec<u8>) -> Result<(), Memory>
    ensures { OnOk result (text.new.items ≡ text.old.items ++ comment_text comment.now) }
{
    match comment {
        None => Ok(()),
        Some(bytes) => {
            push_word(text, b"c\n")?;
            push_word(text, bytes.items())
        }
    }
}
