//! The symbol table: names of inputs and outputs by their places.

ghost use Rattle.std.specs.Prelude.{◌≡◌, ◌++◌, ◌∷◌, [], None, OnOk, OnErr};
ghost use Rattle.std.specs.Option.{option_copied};
ghost use Rattle.aiger_text.specs.Symbol.{name_at};

use crate::files::Text;
use crate::name_tables::NameTable;
use dq_lits::Memory;
use std::alloc::Global;
use std::marker::Model;

/// Names for inputs and outputs, by place from 0.
#[derive(Drop)]
pub struct Symbols {
    inputs: NameTable,
    outputs: NameTable,
}

impl Model for Symbols {
    ghost use Rattle.aiger_text.specs.Symbol.{SymbolTable};

    ghost Value = { SymbolTable };

    ghost view = { λ s. record { inputs = s.inputs; outputs = s.outputs } };
}

impl Symbols {
    /// No names. It takes no memory.
    pub fn new(alloc: Global) -> Symbols
        ensures { result ≡ record { inputs = []; outputs = [] } }
    {
        Symbols {
            inputs: NameTable::new(alloc),
            outputs: NameTable::new(alloc),
        }
    }

    /// The name of the input at place `i`, if it has one.
    pub fn input(&self, i: usize) -> Option<&[u8]>
        ensures { option_copied result ≡ name_at self.now.inputs i }
    {
        self.inputs.get(i as u64)
    }

    /// The name of the output at place `i`, if it has one.
    pub fn output(&self, i: usize) -> Option<&[u8]>
        ensures { option_copied result ≡ name_at self.now.outputs i }
    {
        self.outputs.get(i as u64)
    }

    // The places of the inputs that have names, with these, in order of their lines.
    pub(crate) fn input_names(&self) -> &NameTable
        ensures { result.now ≡ self.now.inputs }
    {
        &self.inputs
    }

    // The same of the outputs.
    pub(crate) fn output_names(&self) -> &NameTable
        ensures { result.now ≡ self.now.outputs }
    {
        &self.outputs
    }

    /// Names an input that has no name yet, behind the other symbols.
    pub fn add_input(&mut self, i: u64, name: Text) -> Result<(), Memory>
        requires { name_at self.old.inputs i ≡ None }
        ensures ok { OnOk result
            (self.new ≡ record self.old { inputs = self.old.inputs ++ (i, name) ∷ [] }) }
        ensures err { OnErr result (self.new ≡ self.old) }
    {
        self.name_input(i, name.items())
    }

    // The same, by the bytes of the name.
    pub(crate) fn name_input(&mut self, i: u64, name: &[u8]) -> Result<(), Memory>
        requires { name_at self.old.inputs i ≡ None }
        ensures ok { OnOk result
            (self.new ≡ record self.old { inputs = self.old.inputs ++ (i, name.now) ∷ [] }) }
        ensures err { OnErr result (self.new ≡ self.old) }
    {
        self.inputs.add(i, name)?;
        Ok(())
    }

    /// Names an output that has no name yet, behind the other symbols.
    pub fn add_output(&mut self, i: u64, name: Text) -> Result<(), Memory>
        requires { name_at self.old.outputs i ≡ None }
        ensures ok { OnOk result
            (self.new ≡ record self.old { outputs = self.old.outputs ++ (i, name) ∷ [] }) }
        ensures err { OnErr result (self.new ≡ self.old) }
    {
        self.name_output(i, name.items())
    }

    // The same, by the bytes of the name.
    pub(crate) fn name_output(&mut self, i: u64, name: &[u8]) -> Result<(), Memory>
        requires { name_at self.old.outputs i ≡ None }
        ensures ok { OnOk result
            (self.new ≡ record self.old { outputs = self.old.outputs ++ (i, name.now) ∷ [] }) }
        ensures err { OnErr result (self.new ≡ self.old) }
    {
        self.outputs.add(i, name)?;
        Ok(())
    }
}
