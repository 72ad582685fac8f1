//! Calls below the programs' runs, which nothing else runs: circuits in either form and their values
//! under one row, and whole refutations.

ghost use Rattle.std.specs.Prelude.{◌≡◌, length};
ghost use Rattle.dq_lits.specs.Formula.{IsWellFormed};

use crate::settings::Settings;
use crate::texts::MAX_CIRCUIT;
use anyhow::{Result, anyhow};
use cert_text::read_dqr;
use circuit_plain::{Circuit, literal_bit};
use dq_formula::Formula;
use dq_lits::Row;
use dqdimacs_reader::read;
use refutation_checker::check;
use std::alloc::Global;

/// The values of the outputs of the certificate, a circuit in either form, under a row.
pub fn output_values(alloc: Global, settings: &Settings, bits: &str) -> Result<String> {
    let Some(certificate) = &settings.certificate else {
        return Err(anyhow!("no circuit"));
    };
    if certificate.len() > MAX_CIRCUIT {
        return Err(anyhow!("too long a circuit"));
    }
    let read = aig_binary::read(alloc, certificate, 1)?;
    let circuit = &read.file.circuit;
    let row = row_of(alloc, bits)?;
    if row.len() != circuit.inputs().len() {
        return Err(anyhow!("no bit for each input: {bits}"));
    }
    values_under(alloc, circuit, &row)
}

// A row by its bits, each 0 or 1.
fn row_of(alloc: Global, bits: &str) -> Result<Row> {
    let bits = bits.as_bytes();
    let mut row = Row::new(alloc, bits.len())?;
    for (place, bit) in bits.iter().enumerate() {
        if *bit == b'1' && place < row.len() {
            row.set(place, true);
        }
    }
    Ok(row)
}

// The bits of the outputs.
fn values_under(alloc: Global, circuit: &Circuit, row: &Row) -> Result<String>
    requires { length row.now ≡ length circuit.now.inputs }
{
    circuit.every_circuit_is_a_netlist();
    let order = circuit.order()?;
    let mut values = Row::new(alloc, circuit.max_var() as usize + 1)?;
    circuit.eval(&order, row, &mut values);
    let mut shown = String::new(alloc);
    for output in circuit.outputs() {
        let bit = literal_bit(&values, *output);
        shown.push(if bit { '1' } else { '0' })?;
    }
    Ok(shown)
}

/// What is wrong with the certificate as a refutation of the formula.
pub fn checked(alloc: Global, settings: &Settings) -> Result<String> {
    let (Some(formula), Some(certificate)) = (&settings.formula, &settings.certificate) else {
        return Err(anyhow!("no formula or no refutation"));
    };
    let formula = read(alloc, formula)?;
    checked_for(alloc, &formula, certificate)
}

fn checked_for(alloc: Global, f: &Formula, certificate: &[u8]) -> Result<String>
    requires { IsWellFormed f.now }
{
    let refutation = read_dqr(alloc, certificate, 1, f)?;
    match check(alloc, f, &refutation) {
        Ok(()) => Ok(String::from_str(alloc, "refuted")?),
        Err(fault) => Ok(format!(in alloc; "{fault}")?),
    }
}
