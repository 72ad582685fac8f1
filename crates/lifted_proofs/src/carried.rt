//! The lines of a refutation, with other ids.
//!
//! Deletions are left out: a clause that is there longer harms no line.

ghost use Rattle.std.specs.Prelude.{◌≡◌, ◌<◌, ◌++◌, ◌∷◌, [], ◌^◌, map, All, IfOk, OnOk};
ghost use Rattle.cert_text.specs.Items.{item_seen};
ghost use Rattle.cert_text.specs.Steps.{step_seen};
ghost use Rattle.lifted_proofs.specs.Carried.{lines_of, carried_id, carried_step};
ghost use Rattle.lifted_proofs.specs.Renumbered.{renumbering, CanCarry, IsSmallStep};

use cert_text::{Item, ItemList, Step, StepList};
use dq_lits::Memory;
use number_tables::NumberSet;
use std::alloc::Global;

/// What the ids of instances and of lines become.
#[derive(Drop)]
pub(crate) struct Renumbered<'a> {
    /// Instances that have goals.
    pub wanted: &'a NumberSet,
    /// By their places, the ids of goals.
    pub ids: &'a [u64],
    /// The last id of an instance, and that of the line before the first one that is carried.
    pub old_last: u64,
    pub new_last: u64,
}

impl<'a> Renumbered<'a> {
    /// Puts the lines behind these steps, with their new ids.
    pub(crate) fn carry(
        &self,
        alloc: Global,
        items: &ItemList,
        steps: &mut StepList,
    ) -> Result<(), Memory>
        requires can { CanCarry self.now }
        requires small { All IsSmallStep (lines_of items.now) }
        ensures { OnOk result (steps.new
            ≡ steps.old ++ map (carried_step (renumbering self.now)) (lines_of items.now)) }
    {
        for k in 0..items.len() {
            self.carry_item(alloc, items.get(k), steps)?;
        }
        Ok(())
    }

    fn carry_item(&self, alloc: Global, item: Item, steps: &mut StepList) -> Result<(), Memory>
        requires can { CanCarry self.now }
        requires small { All IsSmallStep (lines_of (item_seen item ∷ [])) }
        ensures { OnOk result (steps.new ≡ steps.old
            ++ map (carried_step (renumbering self.now)) (lines_of (item_seen item.entry ∷ []))) }
    {
        match item {
            Item::Line(step) => self.carry_line(alloc, step, steps),
            Item::Gone(_) => Ok(()),
        }
    }

    fn carry_line(&self, alloc: Global, step: Step, steps: &mut StepList) -> Result<(), Memory>
        requires can { CanCarry self.now }
        requires small { IsSmallStep (step_seen step) }
        ensures { OnOk result (steps.new
            ≡ steps.old ++ carried_step (renumbering self.now) (step_seen step.entry) ∷ []) }
    {
        let hints = self.ids_of(alloc, step.hints)?;
        steps.push(Step {
            id: self.id_of(step.id),
            lits: step.lits,
            hints: &hints,
        })?;
        Ok(())
    }

    fn ids_of(&self, alloc: Global, hints: &[u64]) -> Result<Vec<u64>, Memory>
        requires can { CanCarry self.now }
        requires small { All (λ h. h < 2 ^ 62) hints.now }
        ensures { IfOk result (λ ids. ids.items
            ≡ map (carried_id (renumbering self.now)) hints.now) }
    {
        let mut ids = Vec::new(alloc);
        for h in hints {
            ids.push(self.id_of(*h))?;
        }
        Ok(ids)
    }

    fn id_of(&self, id: u64) -> u64
        requires can { CanCarry self.now }
        requires small { id < 2 ^ 62 }
        ensures { result ≡ carried_id (renumbering self.now) id }
    {
        if id > self.old_last {
            return id - self.old_last + self.new_last;
        }
        match self.wanted.place(id) {
            Some(place) => self.ids[place],
            None => 0,
        }
    }
}
