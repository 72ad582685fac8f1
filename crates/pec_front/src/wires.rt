//! The variables of circuits on which literals may stand.

ghost use Rattle.std.specs.Prelude.{◌≡◌, ◌≢◌, ◌≤◌, length, drop, AllPairs, IfOk};
ghost use Rattle.std.specs.List.{list_all};
ghost use Rattle.pec_front.specs.BoxLine.{variables_of, is_signal, is_further, is_box};
ghost use Rattle.pec_front.specs.Reading.{wires_of};

use crate::boxes::BlackBox;
use circuit_plain::Circuit;
use dq_lits::Memory;
use number_tables::NumberSet;
use std::alloc::Global;

/// What the boxes of an implementation may read and drive.
#[derive(Drop)]
pub(crate) struct Wires {
    /// Its inputs, and behind them its gates.
    pub variables: NumberSet,
    /// The inputs that the specification doesn't have.
    pub further: NumberSet,
}

// The set of these numbers.
fn set_of(alloc: Global, numbers: &[u64]) -> Result<NumberSet, Memory>
    requires { AllPairs (λ v w. v ≢ w) numbers.now }
    ensures { IfOk result (λ set. set ≡ numbers.now) }
{
    let mut set = NumberSet::new(alloc);
    for number in numbers {
        set.push(*number)?;
    }
    Ok(set)
}

/// A circuit's inputs, and behind them its gates.
pub(crate) fn variables_of(alloc: Global, circuit: &Circuit) -> Result<NumberSet, Memory>
    ensures { IfOk result (λ variables. variables ≡ variables_of circuit.now) }
{
    circuit.every_circuit_is_a_netlist();
    let mut variables = set_of(alloc, circuit.inputs())?;
    for i in 0..circuit.gates() {
        let (lhs, _, _) = circuit.gate(i);
        variables.push(lhs / 2)?;
    }
    Ok(variables)
}

/// The inputs behind the first ones, so many.
pub(crate) fn further_inputs(
    alloc: Global,
    circuit: &Circuit,
    first: usize,
) -> Result<NumberSet, Memory>
    requires { first ≤ length circuit.now.inputs }
    ensures { IfOk result (λ further. further ≡ drop first circuit.now.inputs) }
{
    circuit.every_circuit_is_a_netlist();
    let (_, further) = circuit.inputs().split_at(first);
    set_of(alloc, further)
}

impl Wires {
    pub(crate) fn of(
        alloc: Global,
        specification: &Circuit,
        implementation: &Circuit,
    ) -> Result<Wires, Memory>
        requires { length specification.now.inputs ≤ length implementation.now.inputs }
        ensures { IfOk result (λ wires. wires ≡ wires_of specification.now implementation.now) }
    {
        let further = further_inputs(alloc, implementation, specification.inputs().len())?;
        let variables = variables_of(alloc, implementation)?;
        Ok(Wires { variables, further })
    }

    /// Whether a box reads inputs and gates alone, and drives further inputs alone.
    pub(crate) fn admit(&self, black_box: &BlackBox) -> bool
        ensures { result ≡ is_box self.now black_box.now }
    {
        self.are_signals(black_box.ins()) && self.are_further(black_box.outs())
    }

    fn are_signals(&self, literals: &[u64]) -> bool
        ensures { result ≡ list_all (is_signal self.now) literals.now }
    {
        literals
            .iter()
            .all(|literal| self.variables.contains(*literal / 2))
    }

    fn are_further(&self, literals: &[u64]) -> bool
        ensures { result ≡ list_all (is_further self.now) literals.now }
    {
        literals.iter().all(|literal| *literal % 2 == 0 && self.further.contains(*literal / 2))
    }
}
