//! A circuit that is tested against a formula.
//!
//! Rows are tried on a copy of the circuit with the least numbers, the inputs from 1 on and then
//! the gates as they stand, unless it has these: a header may state the variable 10^9 over three lines. Contracts speak
//! of the circuit itself. With more than 20 universals no row is tried, and room is taken for the
//! constant alone.

ghost use Rattle.std.specs.Prelude.{◌≡◌, ◌≢◌, ◌≤◌, ◌+◌, length, AllPairs, IfOk};
ghost use Rattle.dq_lits.specs.Formula.{IsWellFormed};
ghost use Rattle.circuit_plain.specs.Netlist.{IsNetlist};
ghost use Rattle.circuit_plain.specs.Order.{IsOrder};
ghost use Rattle.skolem_checker.specs.Checks.{candidate_of, IsReadsAnswer, IsRowsAnswer};
ghost use Rattle.skolem_checker.specs.MappingReading.{Answers};
ghost use Rattle.skolem_checker.specs.SkolemCircuit.{IsComplete, ReadsUniversal};

use crate::mapping::{BenchStop, Mapped, read_mapping};
use crate::reads::{ReadWords, undeclared_read};
use crate::renumbering::{copy_or, renumbered};
use crate::rows::first_bad_row;
use crate::tables::{literal_table, place_table, universal_places};
use crate::tested::Tested;
use aiger_text::AagFile;
use circuit_plain::{Block, Circuit, Order, OrderStop};
use dq_formula::Formula;
use dq_lits::Memory;
use std::alloc::Global;
use std::marker::Model;

// All rows are tried of at most so many universals.
const MAX_UNIVERSALS: usize = 20;

/// A circuit that is tested against a formula, with all that the tests need.
#[derive(Drop)]
pub struct Bench<'a> {
    formula: &'a Formula,
    // The circuit that is tested. Its largest variable may be far beyond its lines, so that the
    // tests run on a copy with the least numbers, unless it has them: order, literals and rows by
    // variable are the copy's.
    circuit: &'a Circuit,
    copy: Option<Circuit>,
    order: Order,
    mapped: Mapped,
    // By variable of the formula, the literal of a universal's input or of an existential's output.
    literals: Vec<u64>,
    // By existential, the place of its output.
    places: Vec<u64>,
    // By input, the place of its universal.
    universal_places: Vec<usize>,
    words: ReadWords,
    // By variable of the copy, its bits under a block of rows.
    values: Block,
}

impl<'a> Model for Bench<'a> {
    ghost use Rattle.skolem_checker.specs.Checks.{Candidate};

    ghost Value = { Candidate };

    ghost use Rattle.skolem_checker.specs.BenchInside.{candidate_in, is_ready};

    ghost view = { candidate_in };

    ghost invariant = { is_ready };
}

// An order of the gates of a circuit that can be evaluated.
fn ordered(circuit: &Circuit) -> Result<Order, Memory>
    requires { IsComplete circuit.now }
    ensures { IfOk result (IsOrder circuit.now) }
{
    match circuit.order() {
        Ok(order) => Ok(order),
        Err(OrderStop::Memory) => Err(Memory),
        Err(OrderStop::Cyclic(_)) => unreachable!(),
    }
}

// A block for the circuit's variables, where there are few enough universals that all rows are
// tried.
fn row_block(alloc: Global, f: &Formula, circuit: &Circuit) -> Result<Block, Memory>
    ensures kept { IsNetlist circuit.now }
    ensures ok { IfOk result (λ block. length f.now.universals ≤ 20
        → length block ≡ circuit.now.max_var + 1) }
{
    circuit.every_circuit_is_a_netlist();
    let vars = circuit.max_var();
    if f.universals().len() > MAX_UNIVERSALS {
        return Ok(Block::new(alloc, 0)?);
    }
    Ok(Block::new(alloc, vars)?)
}

impl<'a> Bench<'a> {
    /// Maps the circuit's inputs to the formula's universals and its outputs to the existentials,
    /// and takes all the memory that the tests need: by the circuit's lines and the formula,
    /// whatever the circuit's largest variable. A fault of the mapping is the first one: the
    /// counts, then each input, then each output.
    pub fn new(alloc: Global, f: &'a Formula, a: &'a AagFile) -> Result<Bench<'a>, BenchStop>
        requires well_formed { IsWellFormed f.now }
        requires complete { IsComplete a.now.circuit }
        ensures { Answers (λ bench. bench) (candidate_of f.now a.now.circuit a.now.symbols) result }
    {
        let circuit = &a.circuit;
        let mapped = read_mapping(alloc, f, a)?;
        let copy = renumbered(alloc, circuit)?;
        let tested = copy_or(&copy, circuit);
        let order = ordered(tested)?;
        let literals = literal_table(alloc, f, tested, &mapped)?;
        let places = place_table(alloc, f, tested, &mapped)?;
        let universal_places = universal_places(alloc, f, &mapped.inputs)?;
        let words = ReadWords::new(alloc, f, tested)?;
        let values = row_block(alloc, f, tested)?;
        Ok(Bench {
            formula: f,
            circuit,
            copy,
            order,
            mapped,
            literals,
            places,
            universal_places,
            words,
            values,
        })
    }

    /// The formula that the circuit is tested against.
    pub fn formula(&self) -> &Formula
        ensures { result.now ≡ self.now.formula }
    {
        self.formula
    }

    /// The circuit that is tested.
    pub fn circuit(&self) -> &Circuit
        ensures { result.now ≡ self.now.circuit.netlist }
    {
        self.circuit
    }

    /// By input, the universal that it stands for.
    pub fn inputs(&self) -> &[u64]
        ensures value { result.now ≡ self.now.circuit.mapping.inputs }
        ensures once { AllPairs (λ v w. v ≢ w) self.now.circuit.mapping.inputs }
    {
        &self.mapped.inputs
    }

    /// By output, the existential that it stands for.
    pub fn outputs(&self) -> &[u64]
        ensures value { result.now ≡ self.now.circuit.mapping.outputs }
        ensures once { AllPairs (λ v w. v ≢ w) self.now.circuit.mapping.outputs }
    {
        &self.mapped.outputs
    }

    /// Whether each existential's output reaches inputs for universals of its dependency set alone,
    /// whatever the values; else the first existential that reaches another one, and the first such
    /// universal, both in the order of declaration. It takes no memory.
    pub fn reads_ok(&mut self) -> Result<(), (u64, u64)>
        ensures same { self.new ≡ self.old }
        ensures answer { IsReadsAnswer (ReadsUniversal self.old.circuit) self.old.formula result }
    {
        let tested = Tested {
            formula: self.formula,
            circuit: copy_or(&self.copy, self.circuit),
            order: &self.order,
            literals: &self.literals,
            by_input: &self.mapped.inputs,
        };
        undeclared_read(&tested, &self.places, &mut self.words)
    }

    /// Whether every clause is true under every row of the universals, with the outputs' values;
    /// else the number of the first row under which one is false. Bit i of a row's number is the
    /// bit of the universal at place i. It takes no memory.
    pub fn by_all_rows(&mut self) -> Result<(), u32>
        requires { length self.old.formula.universals ≤ 20 }
        ensures same { self.new ≡ self.old }
        ensures answer { IsRowsAnswer self.old.formula self.old.circuit result }
    {
        let tested = Tested {
            formula: self.formula,
            circuit: copy_or(&self.copy, self.circuit),
            order: &self.order,
            literals: &self.literals,
            by_input: &self.mapped.inputs,
        };
        first_bad_row(&tested, &self.universal_places, &mut self.values)
    }
}
