//! Circuits' proofs that are judged as their items come.
//!
//! It judges items as they come and borrows neither formula nor circuit.

ghost use Rattle.std.specs.Prelude.{◌≡◌, ◌≤◌, is_some, IfOk, OnOk};
ghost use Rattle.dq_lits.specs.Formula.{Dqbf};
ghost use Rattle.circuit_plain.specs.Netlist.{Netlist};
ghost use Rattle.aiger_text.specs.Lines.{max_count};
ghost use Rattle.cert_text.specs.CircuitProof.{first_proof_id, is_proof_variable};
ghost use Rattle.cert_text.specs.Grammar.{IsItem};
ghost use Rattle.cert_text.specs.Items.{item_seen};
ghost use Rattle.cert_text.specs.Numbering.{Numbering, behind_item, numbered_from};
ghost use Rattle.cert_text.specs.Steps.{step_seen};
ghost use Rattle.rup_core.specs.Items.{derived};
ghost use Rattle.rup_core.specs.ProofVerdict.{proof_fault_in};
ghost use Rattle.rup_core.specs.Runs.{run_fault, start, with_item};
ghost use Rattle.proof_checker.specs.CircuitProof.{negated_candidate};
ghost use Rattle.proof_checker.specs.Judging.{judged_candidate, run_of, IsJudging, MayJudge};

use crate::negated::NegatedMatrix;
use crate::tables::NegatedTables;
use cert_text::{Item, Step};
use circuit_plain::Circuit;
use dq_formula::Formula;
use dq_lits::Memory;
use rup_core::{ProofFault, Proving};
use skolem_checker::Bench;
use std::alloc::Global;

/// A circuit's proof that is judged as its items come. It borrows neither the formula nor the circuit,
/// which are handed in with each item.
///
/// It keeps the lines that are live. It takes memory for them, for the variables that occur in them
/// and in the clauses that they hint, and for the formula, whatever the circuit's largest variable is.
#[derive(Drop)]
pub struct CircuitProving {
    pub(crate) tables: NegatedTables,
    pub(crate) proving: Proving,
    // How many numbers came, how many variables have a mark at hand, and how many there are.
    numbers: usize,
    marks: usize,
    variables: usize,
}

impl CircuitProving {
    /// Before the first item of a proof for a mapped circuit.
    pub fn new(alloc: Global, bench: &Bench) -> Result<CircuitProving, Memory>
        requires { bench.now.circuit.netlist.max_var ≤ max_count }
        ensures mapped { IfOk result (λ p. judged_candidate bench.now.formula
            bench.now.circuit.netlist p ≡ bench.now) }
        ensures judging { IfOk result (λ p. IsJudging bench.now.formula bench.now.circuit.netlist p
            (numbered_from (first_proof_id bench.now.formula bench.now.circuit.netlist))) }
        ensures run { IfOk result (λ p. run_of bench.now.formula bench.now.circuit.netlist p
            ≡ start (negated_candidate bench.now)) }
    {
        let tables = NegatedTables::new(alloc, bench)?;
        let proving = Proving::new(alloc, 0)?;
        let largest = bench.circuit().max_var() as usize;
        let variables = largest.saturating_add(bench.formula().clauses());
        Ok(CircuitProving {
            tables,
            proving,
            numbers: 0,
            marks: 0,
            variables,
        })
    }

    /// Judges the next item, for the formula and the circuit that the proof was begun with. Behind a
    /// line that isn't derived nothing changes any more. Where memory wants, the item isn't judged.
    pub fn item(&mut self, f: &Formula, c: &Circuit, item: Item) -> Result<(), Memory>
        requires { MayJudge f.now c.now self.old (item_seen item) }
        ensures run { OnOk result (run_of f.now c.now self.new
            ≡ with_item (run_of f.now c.now self.old) (item_seen item.entry)) }
        ensures judging { OnOk result ((at : Numbering) → IsJudging f.now c.now self.old at
            → IsItem (is_proof_variable f.now c.now) at (item_seen item.entry)
            → IsJudging f.now c.now self.new (behind_item at (item_seen item.entry))) }
        ensures mapped { judged_candidate f.now c.now self.new
            ≡ judged_candidate f.now c.now self.old }
    {
        match item {
            Item::Line(step) => self.line(f, c, step),
            Item::Gone(ids) => {
                self.proving.gone(ids);
                Ok(())
            }
        }
    }

    // Judges a line.
    fn line(&mut self, f: &Formula, c: &Circuit, step: Step) -> Result<(), Memory>
        requires { MayJudge f.now c.now self.old (derived (step_seen step)) }
        ensures run { OnOk result (run_of f.now c.now self.new
            ≡ with_item (run_of f.now c.now self.old) (derived (step_seen step.entry))) }
        ensures judging { OnOk result ((at : Numbering) → IsJudging f.now c.now self.old at
            → IsItem (is_proof_variable f.now c.now) at (derived (step_seen step.entry))
            → IsJudging f.now c.now self.new (behind_item at (derived (step_seen step.entry)))) }
        ensures tables { self.new.tables ≡ self.old.tables }
    {
        self.widen(step.lits.len().saturating_add(step.hints.len()))?;
        let matrix = NegatedMatrix::new(f, c, &self.tables);
        self.proving.line(&matrix, step.id, step.lits, step.hints)
    }

    // A mark for each number of a line, and twice as many where they don't suffice, but for no more
    // variables than there are. Those beyond take memory while a line assigns them.
    fn widen(&mut self, numbers: usize) -> Result<(), Memory>
        ensures rest { self.new.proving ≡ record self.old.proving {
          marks = self.new.proving.marks;
          line = self.new.proving.line;
        } }
        ensures tables { self.new.tables ≡ self.old.tables }
    {
        self.numbers = self.numbers.saturating_add(numbers);
        if self.numbers > self.marks && self.marks < self.variables {
            let wanted = self.numbers.saturating_mul(2).min(self.variables);
            self.proving.widen(wanted)?;
            self.marks = wanted;
        }
        Ok(())
    }

    /// Whether a line wasn't derived, so that no further item changes what is said.
    pub fn is_settled(&self) -> bool
        ensures { result ≡ is_some self.now.proving.fault }
    {
        self.proving.underived().is_some()
    }

    /// What is wrong if no item comes any more.
    pub fn fault(&self) -> Option<ProofFault>
        ensures { (f : Dqbf) (net : Netlist)
            → proof_fault_in result ≡ run_fault (run_of f net self.now) }
    {
        self.proving.fault()
    }
}
