//! Which input stands for which universal, and which output for which existential.

ghost use Rattle.std.specs.Prelude.{◌≡◌, ◌+◌, ◌≤◌, ℕ, List, length, Option, None, Some, Ok, Err, true, [], ◌∷◌, ◌++◌, IfOk, OnOk};
ghost use Rattle.std.specs.Option.{option_copied};
ghost use Rattle.skolem_checker.specs.Mapping.{natural, declares, symbol_at, place_of, symbol_variable, named_from, has_symbol, mapping_of, mapping_by_symbols, mapping_in_order};
ghost use Rattle.skolem_checker.specs.MappingReading.{IsSeen, Answers, mapping_in};
ghost use Rattle.skolem_checker.specs.declared.mapping.MapName.{MapName};
ghost use Rattle.skolem_checker.specs.declared.mapping.MapPlace.TheVariants.{Whole};
ghost use Rattle.skolem_checker.specs.declared.mapping.BenchStop.TheVariants.{Map, Memory as OutOfMemory};

use aiger_text::{AagFile, Symbols};
use dq_formula::Formula;
use dq_lits::{Memory, Row};
use dq_text::{Number, read_number};
use std::alloc::Global;
use thiserror::Error;

/// What is wrong with a mapping.
#[derive(Clone, Copy, Debug, PartialEq, Eq)]
pub enum MapName {
    /// The circuit hasn't an input for each universal.
    InputCount,
    /// The circuit hasn't an output for each existential.
    OutputCount,
    /// Some input or output has a symbol, and this one has none.
    SymbolMissing,
    /// The symbol isn't the number of a universal, at an input, or of an existential, at an output.
    SymbolNumber,
    /// An earlier symbol of its kind is the same number.
    SymbolTwice,
}

/// Where it is wrong; places are counted from 0.
#[derive(Clone, Copy, Debug, PartialEq, Eq)]
pub enum MapPlace {
    /// In the circuit as a whole.
    Whole,
    /// At this input.
    Input(usize),
    /// At this output.
    Output(usize),
}

/// The first fault of a mapping.
#[derive(Clone, Copy, Debug, PartialEq, Eq)]
pub struct MapError {
    pub name: MapName,
    pub at: MapPlace,
}

/// Why there is no bench.
#[derive(Clone, Copy, Debug, PartialEq, Eq, Error)]
pub enum BenchStop {
    /// Inputs and outputs don't stand for the formula's variables.
    #[error("{0:?}")]
    Map(MapError),
    #[error("out of memory")]
    Memory,
}

impl From<Memory> for BenchStop {
    ghost from_gives = { λ _ stop. stop ≡ OutOfMemory };

    fn from(_refused: Memory) -> BenchStop {
        BenchStop::Memory
    }
}

impl From<MapError> for BenchStop {
    ghost from_gives = { λ fault stop. stop ≡ Map fault };

    fn from(fault: MapError) -> BenchStop {
        BenchStop::Map(fault)
    }
}

// Which symbols are read.
#[derive(Clone, Copy, PartialEq, Eq)]
pub(crate) enum Kind {
    Inputs,
    Outputs,
}

fn declares(f: &Formula, kind: Kind, v: u64) -> bool
    ensures is { result ≡ declares f.now kind v }
    ensures in_range { result ≡ true → v ≤ f.now.variables }
{
    f.every_formula_is_lawful();
    match kind {
        Kind::Inputs => f.is_universal(v),
        Kind::Outputs => f.is_existential(v),
    }
}

fn symbol_at(symbols: &Symbols, kind: Kind, place: usize) -> Option<&[u8]>
    ensures { option_copied result ≡ symbol_at symbols.now kind place }
{
    match kind {
        Kind::Inputs => symbols.input(place),
        Kind::Outputs => symbols.output(place),
    }
}

fn place_of(kind: Kind, place: usize) -> MapPlace
    ensures { result ≡ place_of kind place }
{
    match kind {
        Kind::Inputs => MapPlace::Input(place),
        Kind::Outputs => MapPlace::Output(place),
    }
}

fn natural(number: Number) -> Option<u64>
    ensures { result ≡ natural number }
{
    match number {
        Number::Int(n) if n >= 0 => Some(n.unsigned_abs()),
        _ => None,
    }
}

// The variable that a symbol names, where the variables seen are marked.
fn symbol_variable(
    f: &Formula,
    kind: Kind,
    symbol: Option<&[u8]>,
    seen: &Row,
) -> Result<u64, MapName>
    requires { length seen.now ≡ f.now.variables + 1 }
    ensures in_range { IfOk result (λ v. v ≤ f.now.variables) }
    ensures is { (earlier : List ℕ) → IsSeen seen.now earlier
        → result ≡ symbol_variable f.now kind earlier (option_copied symbol.entry) }
{
    let Some(name) = symbol else {
        return Err(MapName::SymbolMissing);
    };
    let Some(v) = natural(read_number(name)) else {
        return Err(MapName::SymbolNumber);
    };
    if !declares(f, kind, v) {
        return Err(MapName::SymbolNumber);
    }
    if seen.get(v as usize) {
        return Err(MapName::SymbolTwice);
    }
    Ok(v)
}

fn push(variables: &mut Vec<u64>, v: u64) -> Result<(), Memory>
    ensures { OnOk result (variables.new.items ≡ variables.old.items ++ v ∷ []) }
{
    variables.push(v)?;
    Ok(())
}

// The variables that the symbols of so many places name, in order.
fn named_variables(
    alloc: Global,
    f: &Formula,
    kind: Kind,
    symbols: &Symbols,
    count: usize,
) -> Result<Vec<u64>, BenchStop>
    ensures { Answers (λ variables. variables.items) (named_from f.now kind symbols.now count 0 [])
        result }
{
    let mut seen = Row::new(alloc, f.vars() as usize + 1)?;
    let mut variables = Vec::new(alloc);
    for place in 0..count {
        match symbol_variable(f, kind, symbol_at(symbols, kind, place), &seen) {
            Ok(v) => {
                seen.set(v as usize, true);
                push(&mut variables, v)?;
            }
            Err(name) => {
                let at = place_of(kind, place);
                return Err(BenchStop::Map(MapError { name, at }));
            }
        }
    }
    Ok(variables)
}

// Whether one of so many places has a symbol.
fn has_symbol(symbols: &Symbols, kind: Kind, count: usize) -> bool
    ensures { result ≡ has_symbol symbols.now kind count }
{
    (0..count).any(|place| symbol_at(symbols, kind, place).is_some())
}

fn counts_fault(f: &Formula, file: &AagFile) -> Option<MapName>
    ensures none { result ≡ None
        → (length file.now.circuit.inputs ≡ length f.now.universals)
        × (length file.now.circuit.outputs ≡ length f.now.existentials) }
    ensures some { (name : MapName) → result ≡ Some name
        → mapping_of f.now file.now.circuit file.now.symbols
        ≡ Err (record { name = name; at = Whole }) }
{
    if file.circuit.inputs().len() != f.universals().len() {
        return Some(MapName::InputCount);
    }
    if file.circuit.outputs().len() != f.existentials().len() {
        return Some(MapName::OutputCount);
    }
    None
}

/// By place: the universal of each input, and the existential of each output.
#[derive(Drop)]
pub(crate) struct Mapped {
    pub(crate) inputs: Vec<u64>,
    pub(crate) outputs: Vec<u64>,
}

fn mapped_by_symbols(alloc: Global, f: &Formula, symbols: &Symbols) -> Result<Mapped, BenchStop>
    ensures { Answers mapping_in (mapping_by_symbols f.now symbols.now) result }
{
    let inputs = named_variables(alloc, f, Kind::Inputs, symbols, f.universals().len())?;
    let outputs = named_variables(alloc, f, Kind::Outputs, symbols, f.existentials().len())?;
    Ok(Mapped { inputs, outputs })
}

fn mapped_in_order(alloc: Global, f: &Formula) -> Result<Mapped, Memory>
    ensures { IfOk result (λ mapped. mapping_in mapped ≡ mapping_in_order f.now) }
{
    Ok(Mapped {
        inputs: Vec::from_slice(alloc, f.universals())?,
        outputs: Vec::from_slice(alloc, f.existentials())?,
    })
}

/// The mapping of a file's inputs and outputs to a formula's variables, or its first fault.
pub(crate) fn read_mapping(alloc: Global, f: &Formula, file: &AagFile) -> Result<Mapped, BenchStop>
    ensures { Answers mapping_in (mapping_of f.now file.now.circuit file.now.symbols) result }
{
    if let Some(name) = counts_fault(f, file) {
        let at = MapPlace::Whole;
        return Err(BenchStop::Map(MapError { name, at }));
    }
    let inputs = file.circuit.inputs().len();
    let outputs = file.circuit.outputs().len();
    if has_symbol(&file.symbols, Kind::Inputs, inputs)
        || has_symbol(&file.symbols, Kind::Outputs, outputs)
    {
        return mapped_by_symbols(alloc, f, &file.symbols);
    }
    let in_order = mapped_in_order(alloc, f)?;
    Ok(in_order)
}
