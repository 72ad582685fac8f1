//! Writing circuit files.

ghost use Rattle.std.specs.Prelude.{◌≡◌, ◌++◌, ◌+◌, ◌-◌, ◌*◌, ◌≤◌, ℕ, Option, length, Ok, IfOk, OnOk};
ghost use Rattle.std.specs.List.{flat_map};
ghost use Rattle.aig_binary.specs.Deltas.{most_groups};
ghost use Rattle.aig_binary.specs.Scan.{scan_binary};
ghost use Rattle.aig_binary.specs.Written.{delta_text, gate_code, binary_text, AreInOrder, IsBinaryFile};

use crate::deltas::MOST_GROUPS;
use crate::laws::binary_text_spells;
use aiger_text::{AagFile, write_counts, write_ending, write_outputs};
use circuit_plain::Circuit;
use dq_lits::Memory;
use dq_text::push_word;
use std::alloc::Global;

/// The text of a circuit file in the binary form: the header `aig M I 0 O A`, a line for each output,
/// each gate's two differences in the fewest bytes, and then symbols and comment as in the ASCII form.
/// The gates are those of the variables behind the inputs, one after the other; a gate's first right
/// side is less than its literal, and the second is not more than the first. Where the inputs are the
/// first variables and some text spells the file, reading this one gives it back.
pub fn write_binary(alloc: Global, file: &AagFile) -> Result<Vec<u8>, Memory>
    requires { AreInOrder (length file.now.circuit.inputs + 1) file.now.circuit.gates }
    ensures written { IfOk result (λ text. text.items ≡ binary_text file.now) }
    ensures reads_back { IsBinaryFile file.now
        → IfOk result (λ text. (first : ℕ) → (line : Option ℕ) × (scan_binary text.items first
        ≡ Ok (record { file = file.now; comment_line = line }))) }
{
    binary_text_spells();
    let mut text = Vec::new(alloc);
    push_word(&mut text, b"aig ")?;
    write_counts(&file.circuit, &mut text)?;
    write_outputs(file.circuit.outputs(), &mut text)?;
    write_gates(&file.circuit, &mut text)?;
    write_ending(file, &mut text)?;
    Ok(text)
}

// Appends the gates' differences.
fn write_gates(circuit: &Circuit, text: &mut Vec<u8>) -> Result<(), Memory>
    requires { AreInOrder (length circuit.now.inputs + 1) circuit.now.gates }
    ensures { OnOk result
        (text.new.items ≡ text.old.items ++ flat_map gate_code circuit.now.gates) }
{
    for i in 0..circuit.gates() {
        let (literal, left, right) = circuit.gate(i);
        push_delta(text, MOST_GROUPS, literal - left)?;
        push_delta(text, MOST_GROUPS, left - right)?;
    }
    Ok(())
}

// Appends a difference, in at most so many bytes.
fn push_delta(text: &mut Vec<u8>, most: u32, delta: u64) -> Result<(), Memory>
    ensures { OnOk result (text.new.items ≡ text.old.items ++ delta_text most delta) }
{
    if most == 0 {
        return Ok(());
    }
    if delta < 128 {
        text.push(delta as u8)?;
        return Ok(());
    }
    text.push(128 + (delta % 128) as u8)?;
    push_delta(text, most - 1, delta / 128)?;
    Ok(())
}
