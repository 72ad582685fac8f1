//! A netlist as a value.
//!
//! Variable 0 is the constant, with a bit that is false in each row of values.

ghost use Rattle.std.specs.Prelude.{◌≡◌, ◌==◌, ◌<◌, ◌%◌, ◌/◌, ◌*◌, ◌^◌, [], ◌∷◌, ◌++◌, length, IsTrue, ◌↔◌, OnOk, OnErr};
ghost use Rattle.std.specs.List.{list_any};
ghost use Rattle.circuit_plain.specs.declared.circuits.Gate.{Gate};
ghost use Rattle.circuit_plain.specs.Netlist.{IsNetlist, IsDefined, IsVariable, IsLiteral, gate_at};

use dq_lits::Memory;
use std::alloc::Global;
use std::marker::Model;

/// An and-gate: its variable is true where both right sides are.
#[derive(Clone, Copy)]
pub struct Gate {
    /// The variable that the gate defines.
    pub variable: u64,
    /// The first right side, a literal.
    pub left: u64,
    /// The second right side, a literal.
    pub right: u64,
}

/// A combinational netlist as in ASCII AIGER: literal 2v stands for variable v, 2v + 1 for its
/// negation, 0 is false and 1 is true. Its gates may stand in any order.
///
/// Nothing in it is as long as the largest variable.
#[derive(Drop)]
pub struct Circuit {
    pub(crate) max_var: u64,
    pub(crate) inputs: Vec<u64>,
    pub(crate) outputs: Vec<u64>,
    pub(crate) gates: Vec<Gate>,
}

impl Model for Circuit {
    ghost use Rattle.circuit_plain.specs.Netlist.{Netlist, IsNetlist};

    ghost Value = { Netlist };

    ghost view = { λ c.
        record {
          max_var = c.max_var;
          inputs = c.inputs.items;
          outputs = c.outputs.items;
          gates = c.gates.items;
        } };

    ghost invariant = { λ c. IsNetlist (
        record {
          max_var = c.max_var;
          inputs = c.inputs.items;
          outputs = c.outputs.items;
          gates = c.gates.items;
        }) };
}

impl Circuit {
    /// No inputs, outputs or gates, over the variables 1 to `max_var`. It takes no memory.
    pub fn new(alloc: Global, max_var: u64) -> Circuit
        requires { max_var < 2 ^ 62 }
        ensures { result ≡ record { max_var = max_var; inputs = []; outputs = []; gates = [] } }
    {
        Circuit {
            max_var,
            inputs: Vec::new(alloc),
            outputs: Vec::new(alloc),
            gates: Vec::new(alloc),
        }
    }

    /// Adds an input behind the others.
    pub fn add_input(&mut self, var: u64) -> Result<(), Memory>
        requires in_range { IsVariable self.old.max_var var }
        requires undefined { ¬ IsDefined self.old var }
        ensures ok { OnOk result
            (self.new ≡ record self.old { inputs = self.old.inputs ++ var ∷ [] }) }
        ensures err { OnErr result (self.new ≡ self.old) }
    {
        self.inputs.push(var)?;
        Ok(())
    }

    /// Adds an output behind the others.
    pub fn add_output(&mut self, lit: u64) -> Result<(), Memory>
        requires { IsLiteral self.old.max_var lit }
        ensures ok { OnOk result
            (self.new ≡ record self.old { outputs = self.old.outputs ++ lit ∷ [] }) }
        ensures err { OnErr result (self.new ≡ self.old) }
    {
        self.outputs.push(lit)?;
        Ok(())
    }

    /// Adds a gate behind the others: `lhs` is the literal of its variable, `a` and `b` are its
    /// right sides, which may stand on variables that are defined later.
    ///
    /// As of the other adding calls, the only error is want of memory, and then nothing changed.
    pub fn add_gate(&mut self, lhs: u64, a: u64, b: u64) -> Result<(), Memory>
        requires even { lhs % 2 ≡ 0 }
        requires in_range { IsVariable self.old.max_var (lhs / 2) }
        requires undefined { ¬ IsDefined self.old (lhs / 2) }
        requires a_in_range { IsLiteral self.old.max_var a }
        requires b_in_range { IsLiteral self.old.max_var b }
        ensures ok { let gate : Gate = record { variable = lhs / 2; left = a; right = b } in
            OnOk result (self.new ≡ record self.old { gates = self.old.gates ++ gate ∷ [] }) }
        ensures err { OnErr result (self.new ≡ self.old) }
    {
        self.gates.push(Gate {
            variable: lhs / 2,
            left: a,
            right: b,
        })?;
        Ok(())
    }

    /// Whether a variable is an input or a gate. It looks through all of them, so who adds many
    /// keeps a map beside the circuit.
    pub fn defines(&self, var: u64) -> bool
        ensures { IsTrue result ↔ IsDefined self.now var }
    {
        self.inputs.contains(&var) || has_gate(&self.gates, var)
    }

    /// What holds of every circuit. The call does nothing: its contract is for callers' proofs.
    pub fn every_circuit_is_a_netlist(&self)
        ensures { IsNetlist self.now }
    {
        // A look at a field shows the invariant.
        let _ = &self.max_var;
    }

    /// The largest number that a variable may have.
    pub fn max_var(&self) -> u64
        ensures value { result ≡ self.now.max_var }
    {
        self.max_var
    }

    /// The variables of the inputs, in order.
    pub fn inputs(&self) -> &[u64]
        ensures { result.now ≡ self.now.inputs }
    {
        &self.inputs
    }

    /// The literals of the outputs, in order.
    pub fn outputs(&self) -> &[u64]
        ensures { result.now ≡ self.now.outputs }
    {
        &self.outputs
    }

    /// How many gates there are.
    pub fn gates(&self) -> usize
        ensures { result ≡ length self.now.gates }
    {
        self.gates.len()
    }

    /// The gate at place `i`: the literal of its variable, and its two right sides.
    pub fn gate(&self, i: usize) -> (u64, u64, u64)
        requires { i < length self.now.gates }
        ensures { let gate = gate_at self.now i in
            result ≡ (2 * gate.variable, gate.left, gate.right) }
    {
        let gate = self.gates[i];
        (2 * gate.variable, gate.left, gate.right)
    }
}

// Whether one of the gates defines this variable.
fn has_gate(gates: &[Gate], variable: u64) -> bool
    ensures { result ≡ list_any (λ gate. gate.variable == variable) gates.now }
{
    gates.iter().any(|gate| gate.variable == variable)
}
