//! The formula's variables for the variables of a circuit.

ghost use Rattle.std.specs.Prelude.{◌≡◌, ◌≤◌, ◌<◌, ◌+◌, ◌^◌, true, length, IfOk};
ghost use Rattle.circuit_plain.specs.Ground.{IsGrounded};
ghost use Rattle.circuit_plain.specs.Netlist.{gate_at, literal_variable};
ghost use Rattle.number_tables.specs.Numbers.{has_number};
ghost use Rattle.pec_front.specs.Encoding.{numbered_variable, on_number, numbered_gate};
ghost use Rattle.pec_front.specs.Numbering.{input_number, number_in, IsNumbering, IsNumberingOf};

use crate::wires::variables_of;
use circuit_plain::{Circuit, Gate};
use dq_lits::Memory;
use number_tables::NumberSet;
use std::alloc::Global;

/// Which variables of the formula stand for those of a circuit.
#[derive(Drop)]
pub(crate) struct Numbering<'c> {
    pub circuit: &'c Circuit,
    /// The circuit's inputs, and behind them its gates.
    pub variables: NumberSet,
    /// How many inputs have the variables from 1 on.
    pub shared: u64,
    /// The variable of the first input behind these.
    pub first_further: u64,
    /// The variable of the first gate.
    pub first_gate: u64,
}

impl<'c> Numbering<'c> {
    /// The numbering of a circuit.
    pub(crate) fn of(
        alloc: Global,
        circuit: &'c Circuit,
        shared: u64,
        first_further: u64,
        first_gate: u64,
    ) -> Result<Numbering<'c>, Memory>
        requires shared { shared < 2 ^ 32 }
        requires further { first_further + length circuit.now.inputs < 2 ^ 32 }
        requires gates { first_gate + length circuit.now.gates < 2 ^ 32 }
        ensures { IfOk result (λ n. IsNumberingOf n circuit.now
            (numbered_variable circuit.now (input_number shared first_further) first_gate)) }
    {
        let variables = variables_of(alloc, circuit)?;
        Ok(Numbering {
            circuit,
            variables,
            shared,
            first_further,
            first_gate,
        })
    }

    fn input(&self, place: u64) -> u64
        requires numbering { IsNumbering self.now }
        requires within { place < length self.now.circuit.now.inputs }
        ensures value { result ≡ input_number self.now.shared self.now.first_further place }
        ensures small { result < 2 ^ 33 }
    {
        if place < self.shared {
            1 + place
        } else {
            self.first_further + (place - self.shared)
        }
    }

    // The variable for one that is an input or a gate.
    fn variable(&self, v: u64) -> u64
        requires numbering { IsNumbering self.now }
        requires positive { 1 ≤ v }
        requires known { has_number self.now.variables v ≡ true }
        ensures value { result ≡ number_in self.now v }
        ensures small { result < 2 ^ 33 }
    {
        let Some(place) = self.variables.place(v) else {
            unreachable!()
        };
        let inputs = self.circuit.inputs().len();
        if place >= inputs {
            return self.first_gate + (place - inputs) as u64;
        }
        self.input(place as u64)
    }

    /// The literal for one of the circuit.
    pub(crate) fn number(&self, literal: u64) -> u64
        requires numbering { IsNumbering self.now }
        requires grounded { IsGrounded self.now.circuit.now (literal_variable literal) }
        ensures value { result ≡ on_number (number_in self.now) literal }
        ensures small { result < 2 ^ 35 }
    {
        if literal < 2 {
            return literal;
        }
        2 * self.variable(literal / 2) + literal % 2
    }

    /// The gate at a place, over the formula's variables.
    pub(crate) fn gate(&self, place: usize) -> Gate
        requires numbering { IsNumbering self.now }
        requires in_range { place < length self.now.circuit.now.gates }
        requires grounded { IsGrounded self.now.circuit.now
            (gate_at self.now.circuit.now place).variable }
        ensures { result ≡ numbered_gate (number_in self.now) (gate_at self.now.circuit.now place) }
    {
        self.circuit.every_circuit_is_a_netlist();
        let (lhs, left, right) = self.circuit.gate(place);
        Gate {
            variable: self.number(lhs) / 2,
            left: self.number(left),
            right: self.number(right),
        }
    }
}
