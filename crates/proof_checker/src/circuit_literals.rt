//! The literals of a circuit that stand for a formula's variables.

ghost use Rattle.std.specs.Prelude.{◌≡◌, ◌≤◌, slice_index};
ghost use Rattle.cert_text.specs.NegatedMatrix.{opposite_of, literal_under};
ghost use Rattle.proof_checker.specs.CircuitProof.{circuit_literal};

use circuit_plain::Circuit;
use dq_lits::Lit;
use number_tables::NumberSet;
use std::marker::Model;

/// A circuit, with what its inputs and outputs stand for.
#[derive(Drop)]
pub(crate) struct CircuitLiterals<'c, 't> {
    circuit: &'c Circuit,
    // By place, the universal of each input and the existential of each output.
    inputs: &'t NumberSet,
    outputs: &'t NumberSet,
}

impl<'c, 't> Model for CircuitLiterals<'c, 't> {
    ghost use Rattle.skolem_checker.specs.SkolemCircuit.{MappedCircuit};

    ghost Value = { MappedCircuit };

    ghost view = { λ c.
        record {
          netlist = c.circuit.now;
          mapping = record { inputs = c.inputs.now; outputs = c.outputs.now };
        } };
}

/// The opposite of a circuit's literal.
pub fn opposite_of(literal: u64) -> u64
    requires { literal ≤ 9223372036854775807 }
    ensures value { result ≡ opposite_of literal }
    ensures in_range { result ≤ 9223372036854775807 }
{
    if literal % 2 == 1 {
        literal - 1
    } else {
        literal + 1
    }
}

impl<'c, 't> CircuitLiterals<'c, 't> {
    pub(crate) fn new(
        circuit: &'c Circuit,
        inputs: &'t NumberSet,
        outputs: &'t NumberSet,
    ) -> CircuitLiterals<'c, 't>
        ensures { result ≡ record {
          netlist = circuit.now;
          mapping = record { inputs = inputs.now; outputs = outputs.now };
        } }
    {
        CircuitLiterals {
            circuit,
            inputs,
            outputs,
        }
    }

    pub(crate) fn circuit(&self) -> &Circuit
        ensures { result.now ≡ self.now.netlist }
    {
        self.circuit
    }

    // The literal for a variable: its input's, where an input stands for it, else its output's.
    fn literal(&self, v: u64) -> u64
        ensures { result ≡ circuit_literal self.now v }
    {
        self.circuit.every_circuit_is_a_netlist();
        match self.inputs.place(v) {
            Some(i) => 2 * element_at(self.circuit.inputs(), i),
            None => match self.outputs.place(v) {
                Some(o) => element_at(self.circuit.outputs(), o),
                None => element_at(self.circuit.outputs(), self.outputs.len()),
            },
        }
    }

    /// The circuit's literal for a literal of the formula.
    pub(crate) fn literal_under(&self, l: Lit) -> u64
        ensures value { result ≡ literal_under (circuit_literal self.now) l }
        ensures in_range { result ≤ 9223372036854775807 }
    {
        self.circuit().every_circuit_is_a_netlist();
        let literal = self.literal(l.var());
        if l.is_neg() {
            opposite_of(literal)
        } else {
            literal
        }
    }
}

fn element_at(xs: &[u64], i: usize) -> u64
    ensures { result ≡ slice_index xs.now i }
{
    match xs.get(i) {
        Some(x) => *x,
        None => 0,
    }
}
