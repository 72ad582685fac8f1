//! The matrix of a design's formula.

ghost use Rattle.std.specs.Prelude.{◌≡◌, ◌+◌, ◌-◌, ◌*◌, ◌≤◌, [], All, length, map, IfOk, OnOk};
ghost use Rattle.std.specs.List.{flat_map, range_with_len};
ghost use Rattle.cert_text.specs.NegatedMatrix.{gate_clauses};
ghost use Rattle.circuit_plain.specs.Ground.{IsGrounded};
ghost use Rattle.dq_formula.specs.declared.formula.TheConstants.{MAX_CLAUSES};
ghost use Rattle.pec_front.specs.Boxes.{signals};
ghost use Rattle.pec_front.specs.Encoder.{demand_clause, IsEncoder, HasRoom, AreAdded};
ghost use Rattle.pec_front.specs.Encoding.{signals_of, end_of, numbered_gate, all_copies, all_outputs, demand, raw_clauses};
ghost use Rattle.pec_front.specs.Kept.{kept};
ghost use Rattle.pec_front.specs.Layout.{IsLayout};
ghost use Rattle.pec_front.specs.Numbering.{number_in, IsNumbering, AreNumbersWithin};

use crate::designs::Design;
use crate::kept_clauses::{add_agreement, add_gate};
use crate::layouts::Layout;
use crate::numberings::Numbering;
use dq_formula::{Formula, MAX_CLAUSES};
use dq_lits::{Lit, Memory};
use std::alloc::Global;

/// What the clauses of a design's formula are made of.
#[derive(Drop)]
pub(crate) struct Encoder<'e> {
    pub design: &'e Design<'e>,
    pub layout: Layout,
    /// What boxes read, end to end.
    pub signals: Vec<u64>,
    pub specified: Numbering<'e>,
    pub implemented: Numbering<'e>,
}

// Adds the clauses of a circuit's gates.
fn add_gates(f: &mut Formula, buffer: &mut Vec<Lit>, numbering: &Numbering) -> Result<(), Memory>
    requires numbering { IsNumbering numbering.now }
    requires grounded { All (λ g. IsGrounded numbering.now.circuit.now g.variable)
        numbering.now.circuit.now.gates }
    requires within { AreNumbersWithin numbering.now f.old.variables }
    requires few { length f.old.matrix + 3 * length numbering.now.circuit.now.gates
        ≤ MAX_CLAUSES }
    ensures { OnOk result (AreAdded f.old f.new
        (flat_map (λ g. gate_clauses (numbered_gate (number_in numbering.now) g))
        numbering.now.circuit.now.gates) (3 * length numbering.now.circuit.now.gates)) }
{
    numbering.circuit.every_circuit_is_a_netlist();
    for i in 0..numbering.circuit.gates() {
        add_gate(f, buffer, numbering.gate(i))?;
    }
    Ok(())
}

impl<'e> Encoder<'e> {
    /// The encoder of a design.
    pub(crate) fn of(
        alloc: Global,
        design: &'e Design<'e>,
        layout: Layout,
        all: Vec<u64>,
    ) -> Result<Encoder<'e>, Memory>
        requires layout { IsLayout design.now layout }
        requires signals { all.items ≡ signals design.now.boxes }
        ensures { IfOk result (λ e. IsEncoder e design.now) }
    {
        let shared = design.specification().inputs().len() as u64;
        let specified = Numbering::of(
            alloc,
            design.specification(),
            shared,
            layout.first_driven,
            layout.first_specified,
        )?;
        let implemented = Numbering::of(
            alloc,
            design.implementation(),
            shared,
            layout.first_driven,
            layout.first_implemented,
        )?;
        Ok(Encoder {
            design,
            layout,
            signals: all,
            specified,
            implemented,
        })
    }

    // Adds the clauses by which a flag is true exactly where a copy has its signal's value.
    fn add_copies(&self, f: &mut Formula, buffer: &mut Vec<Lit>) -> Result<(), Memory>
        requires encoder { IsEncoder self.now self.now.design.now }
        requires room { HasRoom self.now.design.now f.old (4 * signals_of self.now.design.now) }
        ensures { let d = self.now.design.now in OnOk result
            (AreAdded f.old f.new (all_copies d 0 (signals d.boxes)) (4 * signals_of d)) }
    {
        self.design.every_design_is_lawful();
        for (i, signal) in self.signals.iter().enumerate() {
            let flag = self.layout.first_same + i as u64;
            let copy = 2 * (self.layout.first_copy + i as u64);
            add_agreement(f, buffer, flag, copy, self.implemented.number(*signal))?;
        }
        Ok(())
    }

    // Adds the clauses by which a flag is true exactly where a pair of outputs agrees.
    fn add_outputs(&self, f: &mut Formula, buffer: &mut Vec<Lit>) -> Result<(), Memory>
        requires encoder { IsEncoder self.now self.now.design.now }
        requires room { HasRoom self.now.design.now f.old
            (4 * length self.now.design.now.specification.outputs) }
        ensures { let d = self.now.design.now in OnOk result
            (AreAdded f.old f.new (all_outputs d 0 d.specification.outputs)
            (4 * length d.specification.outputs)) }
    {
        self.design.every_design_is_lawful();
        let implemented = self.design.implementation().outputs();
        for (o, specified) in self.design.specification().outputs().iter().enumerate() {
            let flag = self.layout.first_agree + o as u64;
            let a = self.specified.number(*specified);
            let b = self.implemented.number(implemented[o]);
            add_agreement(f, buffer, flag, a, b)?;
        }
        Ok(())
    }

    // The demand on the first pair of outputs: others have another first literal.
    fn first_demand(&self, alloc: Global) -> Result<Vec<Lit>, Memory>
        requires { IsEncoder self.now self.now.design.now }
        ensures { IfOk result (λ clause. clause.items ≡ demand_clause self.now.design.now 0) }
    {
        let mut clause = Vec::new(alloc);
        clause.push(Lit::pos(self.layout.first_agree))?;
        for i in 0..self.signals.len() {
            clause.push(Lit::neg(self.layout.first_same + i as u64))?;
        }
        Ok(clause)
    }

    // Adds for each pair of outputs the clause that it agrees where all copies have their signals'
    // values. Room for all of these clauses is asked for at once: they are as long as there are
    // signals, so that a short text can ask for more than there is.
    fn add_demands(&self, alloc: Global, f: &mut Formula) -> Result<(), Memory>
        requires encoder { IsEncoder self.now self.now.design.now }
        requires room { HasRoom self.now.design.now f.old
            (length self.now.design.now.specification.outputs) }
        ensures { let d = self.now.design.now in OnOk result (AreAdded f.old f.new
            (map (demand d) (range_with_len 0 (length d.specification.outputs)))
            (length d.specification.outputs)) }
    {
        let outputs = self.design.specification().outputs().len();
        f.reserve(outputs, outputs * (self.signals.len() + 1))?;
        let mut clause = self.first_demand(alloc)?;
        for o in 0..outputs {
            clause[0] = Lit::pos(self.layout.first_agree + o as u64);
            f.add_clause(&clause)?;
        }
        Ok(())
    }

    /// Adds the matrix.
    pub(crate) fn add_matrix(&self, alloc: Global, f: &mut Formula) -> Result<(), Memory>
        requires encoder { IsEncoder self.now self.now.design.now }
        requires variables { f.old.variables ≡ end_of self.now.design.now - 1 }
        requires none { f.old.matrix ≡ [] }
        ensures { OnOk result (f.new
            ≡ record f.old { matrix = kept (raw_clauses self.now.design.now) }) }
    {
        self.design.every_design_is_lawful();
        let mut buffer = Vec::new(alloc);
        add_gates(f, &mut buffer, &self.specified)?;
        add_gates(f, &mut buffer, &self.implemented)?;
        self.add_copies(f, &mut buffer)?;
        self.add_outputs(f, &mut buffer)?;
        self.add_demands(alloc, f)
    }
}
