//! Symbols that are variables' numbers.

ghost use Rattle.std.specs.Prelude.{◌≡◌, [], IfOk, OnOk};
ghost use Rattle.std.specs.Fmt.{decimal};
ghost use Rattle.cert_export.specs.ExportedCircuit.{number_names, number_symbols};

use aiger_text::{Symbols, Text};
use dq_formula::Formula;
use dq_lits::Memory;
use dq_text::push_natural;
use std::alloc::Global;

/// A symbol for each universal and each existential: its number.
pub(crate) fn number_symbols(alloc: Global, f: &Formula) -> Result<Symbols, Memory>
    ensures { IfOk result (λ symbols. symbols ≡ number_symbols f.now) }
{
    let mut symbols = Symbols::new(alloc);
    name_inputs(alloc, f.universals(), &mut symbols)?;
    name_outputs(alloc, f.existentials(), &mut symbols)?;
    Ok(symbols)
}

// Names the inputs, one for each of these variables.
fn name_inputs(alloc: Global, variables: &[u64], symbols: &mut Symbols) -> Result<(), Memory>
    requires { symbols.old.inputs ≡ [] }
    ensures { OnOk result
        (symbols.new ≡ record symbols.old { inputs = number_names 0 variables.now }) }
{
    for place in 0..variables.len() {
        let name = number_text(alloc, variables[place])?;
        symbols.add_input(place as u64, name)?;
    }
    Ok(())
}

// Names the outputs, one for each of these variables.
fn name_outputs(alloc: Global, variables: &[u64], symbols: &mut Symbols) -> Result<(), Memory>
    requires { symbols.old.outputs ≡ [] }
    ensures { OnOk result
        (symbols.new ≡ record symbols.old { outputs = number_names 0 variables.now }) }
{
    for place in 0..variables.len() {
        let name = number_text(alloc, variables[place])?;
        symbols.add_output(place as u64, name)?;
    }
    Ok(())
}

// The decimal text of a number.
fn number_text(alloc: Global, n: u64) -> Result<Text, Memory>
    ensures { IfOk result (λ text. text ≡ decimal n) }
{
    let mut digits = Vec::new(alloc);
    push_natural(&mut digits, n)?;
    Text::from_bytes(alloc, &digits)
}
