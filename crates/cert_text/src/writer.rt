//! Writing refutations and circuits' proofs.
//!
//! `write_dqr` asks for nothing: a row is written as far as there are universals and bits. That a
//! text reads back is a law about what a text can hold.

ghost use Rattle.std.specs.Prelude.{◌≡◌, ◌++◌, ℕ, not, length, Ok, IfOk, OnOk, codes};
ghost use Rattle.std.specs.List.{flat_map, zip};
ghost use Rattle.dq_lits.specs.Formula.{Dqbf};
ghost use Rattle.circuit_plain.specs.Netlist.{Netlist};
ghost use Rattle.cert_text.specs.CircuitProof.{circuit_proof_of};
ghost use Rattle.cert_text.specs.Grammar.{IsDqrOf};
ghost use Rattle.cert_text.specs.ProofGrammar.{IsDqpOf};
ghost use Rattle.cert_text.specs.Scan.{refutation_of};
ghost use Rattle.cert_text.specs.Header.{proof_word, refutation_word};
ghost use Rattle.cert_text.specs.Items.{item_seen};
ghost use Rattle.cert_text.specs.Steps.{step_seen};
ghost use Rattle.cert_text.specs.Canonical.{signed_text, literal_text, header_text, proof_header_text, row_text, step_text, deletion_text, item_text, version_for, canonical, canonical_proof};

use crate::circuit_proofs::Dqp;
use crate::items::{Item, ItemList};
use crate::refutations::Dqr;
use crate::steps::Step;
use crate::versions::Version;
use dq_formula::Formula;
use dq_lits::{Lit, Memory, Row};
use dq_text::{push_all_spaced, push_last, push_spaced, push_word};
use std::alloc::Global;

/// The canonical text of a refutation for a formula: the header `p dqr K N`, or `p dqr2 K N` where
/// something is deleted; for each row `u`, the universals in the formula's order, each with its bit
/// as its sign, and `0`; then the items. Where the refutation is one that a text can hold for the
/// formula, reading the text gives it back.
pub fn write_dqr(alloc: Global, d: &Dqr, f: &Formula) -> Result<Vec<u8>, Memory>
    ensures canonical { IfOk result (λ text. text.items ≡ canonical f.now.universals d.now) }
    ensures reads_back { IsDqrOf f.now d.now
        → IfOk result (λ text. (first : ℕ) → refutation_of f.now text.items first ≡ Ok d.now) }
{
    f.every_formula_is_lawful();
    let mut text = Vec::new(alloc);
    let rows = d.rows.items();
    write_header(version_for(&d.items), rows.len(), d.items.len(), &mut text)?;
    write_rows(f.universals(), rows, &mut text)?;
    write_items(&d.items, &mut text)?;
    Ok(text)
}

/// The canonical text of a circuit's proof: the header `dqp N`, or `dqp2 N` where something is
/// deleted, and then the items. Where the proof is one that a text can hold over a formula and a
/// circuit, reading the text over these gives it back.
pub fn write_dqp(alloc: Global, d: &Dqp) -> Result<Vec<u8>, Memory>
    ensures canonical { IfOk result (λ text. text.items ≡ canonical_proof d.now) }
    ensures reads_back { (f : Dqbf) (net : Netlist) (first : ℕ) → IsDqpOf f net d.now
        → IfOk result (λ text. circuit_proof_of f net text.items first ≡ Ok d.now) }
{
    let mut text = Vec::new(alloc);
    write_proof_header(version_for(&d.items), d.items.len(), &mut text)?;
    write_items(&d.items, &mut text)?;
    Ok(text)
}

// The version that has what these items need.
fn version_for(items: &ItemList) -> Version
    ensures { result ≡ version_for items.now }
{
    if items.deletes() {
        Version::Two
    } else {
        Version::One
    }
}

fn refutation_word(version: Version) -> &'static [u8]
    ensures { result.now ≡ refutation_word version }
{
    match version {
        Version::One => b"dqr",
        Version::Two => b"dqr2",
    }
}

fn proof_word(version: Version) -> &'static [u8]
    ensures { result.now ≡ proof_word version }
{
    match version {
        Version::One => b"dqp",
        Version::Two => b"dqp2",
    }
}

fn write_header(
    version: Version,
    rows: usize,
    items: usize,
    text: &mut Vec<u8>,
) -> Result<(), Memory>
    ensures { OnOk result (text.new.items ≡ text.old.items ++ header_text version rows items) }
{
    push_word(text, b"p ")?;
    push_word(text, refutation_word(version))?;
    push_word(text, b" ")?;
    push_spaced(text, rows as u64)?;
    push_last(text, items as u64)
}

fn write_proof_header(version: Version, items: usize, text: &mut Vec<u8>) -> Result<(), Memory>
    ensures { OnOk result (text.new.items ≡ text.old.items ++ proof_header_text version items) }
{
    push_word(text, proof_word(version))?;
    push_word(text, b" ")?;
    push_last(text, items as u64)
}

// A variable, behind a minus where it is negated, and a space.
fn write_signed(positive: bool, variable: u64, text: &mut Vec<u8>) -> Result<(), Memory>
    ensures { OnOk result (text.new.items ≡ text.old.items ++ signed_text positive variable) }
{
    if !positive {
        text.push(b'-')?;
    }
    push_spaced(text, variable)
}

fn write_literals(literals: &[Lit], text: &mut Vec<u8>) -> Result<(), Memory>
    ensures { OnOk result (text.new.items ≡ text.old.items ++ flat_map literal_text literals.now) }
{
    let mut rest = literals;
    while let Some((first, behind)) = rest.split_first() {
        write_signed(!first.is_neg(), first.var(), text)?;
        rest = behind;
    }
    Ok(())
}

// The universals, as far as the row has bits.
pub(crate) fn write_bits(universals: &[u64], row: &Row, text: &mut Vec<u8>) -> Result<(), Memory>
    ensures { OnOk result
        (text.new.items
        ≡ text.old.items ++ flat_map (λ x. signed_text x.1 x.0) (zip universals.now row.now)) }
{
    for i in 0..universals.len().min(row.len()) {
        write_signed(row.get(i), universals[i], text)?;
    }
    Ok(())
}

pub(crate) fn write_row(universals: &[u64], row: &Row, text: &mut Vec<u8>) -> Result<(), Memory>
    ensures { OnOk result (text.new.items ≡ text.old.items ++ row_text universals.now row.now) }
{
    push_word(text, b"u ")?;
    write_bits(universals, row, text)?;
    push_word(text, b"0\n")
}

fn write_rows(universals: &[u64], rows: &[Row], text: &mut Vec<u8>) -> Result<(), Memory>
    ensures { OnOk result
        (text.new.items ≡ text.old.items ++ flat_map (row_text universals.now) rows.now) }
{
    let mut rest = rows;
    while let Some((first, behind)) = rest.split_first() {
        write_row(universals, first, text)?;
        rest = behind;
    }
    Ok(())
}

pub(crate) fn write_step(step: Step, text: &mut Vec<u8>) -> Result<(), Memory>
    ensures { OnOk result (text.new.items ≡ text.old.items ++ step_text (step_seen step.entry)) }
{
    push_spaced(text, step.id)?;
    write_literals(step.lits, text)?;
    push_word(text, b"0 ")?;
    push_all_spaced(text, step.hints)?;
    push_word(text, b"0\n")
}

fn write_deletion(ids: &[u64], text: &mut Vec<u8>) -> Result<(), Memory>
    ensures { OnOk result (text.new.items ≡ text.old.items ++ deletion_text ids.now) }
{
    push_word(text, b"d ")?;
    push_all_spaced(text, ids)?;
    push_word(text, b"0\n")
}

fn write_item(item: Item, text: &mut Vec<u8>) -> Result<(), Memory>
    ensures { OnOk result (text.new.items ≡ text.old.items ++ item_text (item_seen item.entry)) }
{
    match item {
        Item::Line(step) => write_step(step, text),
        Item::Gone(ids) => write_deletion(ids, text),
    }
}

fn write_items(items: &ItemList, text: &mut Vec<u8>) -> Result<(), Memory>
    ensures { OnOk result (text.new.items ≡ text.old.items ++ flat_map item_text items.now) }
{
    for k in 0..items.len() {
        write_item(items.get(k), text)?;
    }
    Ok(())
}
