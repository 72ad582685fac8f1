//! What a circuit's proof is lifted from and to.

ghost use Rattle.std.specs.Prelude.{◌≡◌, ◌<◌, ◌≤◌, ◌+◌, ◌*◌, length, take, reverse, slice_index, slice_index_or, [], IfOk};
ghost use Rattle.std.specs.List.{sum_by};
ghost use Rattle.dq_lits.specs.Literal.{variable_of};
ghost use Rattle.cert_text.specs.NegatedMatrix.{literal_under};
ghost use Rattle.proof_checker.specs.CircuitProof.{circuit_literal};
ghost use Rattle.lifted_proofs.specs.Liftables.{IsLiftable, is_false};
ghost use Rattle.lifted_proofs.specs.Liftings.{IsLifting, HasOutput, IsSettledFrom, place_at};
ghost use Rattle.lifted_proofs.specs.UnitTables.{IsUnitTable};

use crate::kept_places::places;
use crate::negated_bases::{Base, base_of, lengths_before};
use crate::sources::is_taken;
use crate::units::UnitTable;
use dq_lits::{Lit, Memory};
use number_tables::NumberSet;
use proof_checker::opposite_of;
use skolem_checker::Bench;
use std::alloc::Global;

/// A formula with its units, and a circuit for what is left of it.
#[derive(Drop)]
pub(crate) struct Lifting<'a> {
    pub table: &'a UnitTable<'a>,
    /// What is left of the formula, with the circuit.
    pub bench: &'a Bench<'a>,
    /// By place, the existential of each output.
    pub outputs: NumberSet,
    /// By clause that is kept, its place in the formula.
    pub kept: Vec<usize>,
    /// How many literals stand before each clause of the formula.
    pub before: Vec<u64>,
    pub base: Base,
}

// By place, the existential of each output.
fn outputs_of(alloc: Global, bench: &Bench) -> Result<NumberSet, Memory>
    ensures { IfOk result (λ known. known ≡ bench.now.circuit.mapping.outputs) }
{
    let mut known = NumberSet::new(alloc);
    for variable in bench.outputs() {
        known.push(*variable)?;
    }
    Ok(known)
}

impl<'a> Lifting<'a> {
    /// The tables that are read in each step.
    pub(crate) fn of(table: &'a UnitTable<'a>, bench: &'a Bench<'a>) -> Result<Lifting<'a>, Memory>
        requires right { IsUnitTable table.now }
        requires can { IsLiftable table.now.formula.now (reverse table.now.units.now) bench.now }
        ensures lifting { IfOk result IsLifting }
        ensures table { IfOk result (λ l. l.table.now ≡ table.now) }
        ensures bench { IfOk result (λ l. l.bench.now ≡ bench.now) }
    {
        let before = lengths_before(table.alloc, table.formula)?;
        let base = base_of(table.formula, bench.circuit(), &before)?;
        let kept = places(table, true)?;
        let outputs = outputs_of(table.alloc, bench)?;
        Ok(Lifting {
            table,
            bench,
            outputs,
            kept,
            before,
            base,
        })
    }

    /// The place of a kept clause in the formula.
    pub(crate) fn place(&self, j: usize) -> usize
        requires lifting { IsLifting self.now }
        requires within { j < length self.now.kept.items }
        ensures is { result ≡ place_at self.now j }
        ensures within { result < length self.now.table.now.formula.now.matrix }
    {
        self.kept[j]
    }

    /// The id of the clause that a literal of a clause is false, by their places.
    pub(crate) fn literal_id(&self, clause: usize, place: usize) -> u64
        requires lifting { IsLifting self.now }
        requires clause { clause < length self.now.table.now.formula.now.matrix }
        requires place { place < length (slice_index_or self.now.table.now.formula.now.matrix clause []) }
        ensures value { result ≡ 3 * length self.now.bench.now.circuit.netlist.gates
            + (sum_by length (take clause self.now.table.now.formula.now.matrix) + place) + 1 }
        ensures before { result < self.now.base.first }
    {
        self.base.gates + self.before[clause] + place as u64 + 1
    }

    /// The literal that a clause is false, by its place.
    pub(crate) fn is_false(&self, clause: usize) -> Lit
        requires lifting { IsLifting self.now }
        requires clause { clause < length self.now.table.now.formula.now.matrix }
        ensures { result ≡ is_false (self.now.bench.now.circuit.netlist.max_var + 1) clause }
    {
        // The call shows the formula's invariant.
        let _ = self.table.formula.clauses();
        Lit::pos(self.base.largest + 1 + clause as u64)
    }

    /// What a literal stood for in the circuit, where it was taken and that isn't constant.
    pub(crate) fn settled_from(&self, l: Lit) -> Option<u64>
        requires { IsLifting self.now }
        ensures { IsSettledFrom self.now l result }
    {
        if !is_taken(self.table, l) {
            return None;
        }
        let was = self.literal(l);
        if was < 2 {
            return None;
        }
        Some(was)
    }

    // The circuit's literal for one on an existential.
    fn literal(&self, l: Lit) -> u64
        requires lifting { IsLifting self.now }
        requires output { HasOutput self.now.bench.now (variable_of l) }
        ensures { result ≡ literal_under (circuit_literal self.now.bench.now.circuit) l }
    {
        let out = match self.outputs.place(l.var()) {
            Some(place) => self.output(place),
            None => unreachable!(),
        };
        if l.is_neg() { opposite_of(out) } else { out }
    }

    // The literal of the output at a place.
    fn output(&self, place: usize) -> u64
        requires { place < length self.now.bench.now.circuit.netlist.outputs }
        ensures value { result ≡ slice_index self.now.bench.now.circuit.netlist.outputs place }
        ensures in_range { result ≤ 9223372036854775807 }
    {
        self.bench.circuit().every_circuit_is_a_netlist();
        self.bench.circuit().outputs()[place]
    }
}
