//! A circuit's proof over the simpler formula, by the ids and the variables of the formula's negated
//! matrix.

ghost use Rattle.std.specs.Prelude.{◌≡◌, ◌<◌, ◌++◌, ◌∷◌, [], ◌^◌, map, All, IfOk, OnOk};
ghost use Rattle.cert_text.specs.Items.{item_seen};
ghost use Rattle.cert_text.specs.Steps.{step_seen};
ghost use Rattle.lifted_proofs.specs.Carried.{lines_of};
ghost use Rattle.lifted_proofs.specs.CarriedProofs.{carried_literal, carried_id, carried_line};
ghost use Rattle.lifted_proofs.specs.Carryings.{carrying, IsCarrying, IsCarriedVariable, IsCarriedStep};

use cert_text::{Item, ItemList, Step, StepList};
use dq_lits::{Lit, Memory};
use std::alloc::Global;

/// What the ids and the variables of the simpler formula's negated matrix become.
#[derive(Drop)]
pub(crate) struct Carrying<'a> {
    /// How many ids the clauses of gates have, and the circuit's largest variable; these stay.
    pub gates: u64,
    pub largest: u64,
    /// By clause that is kept, its place among so many of the formula.
    pub places: &'a [usize],
    pub clauses: usize,
    /// By literal that is left, the id of the clause that it is false.
    pub ids: &'a [u64],
    /// The id of the line that some clause which is kept is false; the proof's own lines come next.
    pub some_false: u64,
}

impl<'a> Carrying<'a> {
    /// Puts a proof's lines behind these steps.
    pub(crate) fn carry(
        &self,
        alloc: Global,
        items: &ItemList,
        steps: &mut StepList,
    ) -> Result<(), Memory>
        requires can { IsCarrying self.now }
        requires small { All (IsCarriedStep self.now) (lines_of items.now) }
        ensures { OnOk result (steps.new
            ≡ steps.old ++ map (carried_line (carrying self.now)) (lines_of items.now)) }
    {
        for k in 0..items.len() {
            self.carry_item(alloc, items.get(k), steps)?;
        }
        Ok(())
    }

    fn carry_item(&self, alloc: Global, item: Item, steps: &mut StepList) -> Result<(), Memory>
        requires can { IsCarrying self.now }
        requires small { All (IsCarriedStep self.now) (lines_of (item_seen item ∷ [])) }
        ensures { OnOk result (steps.new ≡ steps.old
            ++ map (carried_line (carrying self.now)) (lines_of (item_seen item.entry ∷ []))) }
    {
        match item {
            Item::Line(step) => self.carry_line(alloc, step, steps),
            Item::Gone(_) => Ok(()),
        }
    }

    fn carry_line(&self, alloc: Global, step: Step, steps: &mut StepList) -> Result<(), Memory>
        requires can { IsCarrying self.now }
        requires small { IsCarriedStep self.now (step_seen step) }
        ensures { OnOk result (steps.new
            ≡ steps.old ++ carried_line (carrying self.now) (step_seen step.entry) ∷ []) }
    {
        let lits = self.literals_of(alloc, step.lits)?;
        let hints = self.ids_of(alloc, step.hints)?;
        steps.push(Step {
            id: self.id_of(step.id),
            lits: &lits,
            hints: &hints,
        })?;
        Ok(())
    }

    fn literals_of(&self, alloc: Global, lits: &[Lit]) -> Result<Vec<Lit>, Memory>
        requires can { IsCarrying self.now }
        requires few { All (IsCarriedVariable self.now) lits.now }
        ensures { IfOk result (λ new. new.items ≡ map (carried_literal (carrying self.now)) lits.now) }
    {
        let mut carried = Vec::new(alloc);
        for l in lits {
            carried.push(self.literal_of(*l))?;
        }
        Ok(carried)
    }

    fn literal_of(&self, l: Lit) -> Lit
        requires can { IsCarrying self.now }
        requires few { IsCarriedVariable self.now l }
        ensures { result ≡ carried_literal (carrying self.now) l }
    {
        let v = l.var();
        if v <= self.largest {
            return l;
        }
        let clause = self.places[(v - self.largest - 1) as usize];
        let bad = Lit::pos(self.largest + 1 + clause as u64);
        if l.is_neg() { bad.not() } else { bad }
    }

    fn ids_of(&self, alloc: Global, hints: &[u64]) -> Result<Vec<u64>, Memory>
        requires can { IsCarrying self.now }
        requires small { All (λ h. h < 2 ^ 62) hints.now }
        ensures { IfOk result (λ ids. ids.items ≡ map (carried_id (carrying self.now)) hints.now) }
    {
        let mut ids = Vec::new(alloc);
        for h in hints {
            ids.push(self.id_of(*h))?;
        }
        Ok(ids)
    }

    fn id_of(&self, id: u64) -> u64
        requires can { IsCarrying self.now }
        requires small { id < 2 ^ 62 }
        ensures { result ≡ carried_id (carrying self.now) id }
    {
        if id <= self.gates {
            return id;
        }
        let place = id - self.gates - 1;
        let literals = self.ids.len() as u64;
        if place < literals {
            self.ids[place as usize]
        } else {
            place - literals + self.some_false
        }
    }
}
