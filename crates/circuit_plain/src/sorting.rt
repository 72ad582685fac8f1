//! How gates are ordered: as they stand where that serves, else depth first.

ghost use Rattle.std.specs.Prelude.{◌≡◌, ◌+◌, ◌<◌, ◌&&◌, All, length, IfOk, OnOk};
ghost use Rattle.std.specs.Bool.{OnTrue, OnFalse};
ghost use Rattle.circuit_plain.specs.Netlist.{literal_variable};
ghost use Rattle.number_tables.specs.Numbers.{has_number};
ghost use Rattle.circuit_plain.specs.Steps.{IsDraft, IsPassed, IsClosed};

use crate::circuits::{Circuit, Gate};
use dq_lits::Memory;
use number_tables::NumberSet;

// An order in the making.
#[derive(Drop)]
pub(crate) struct Draft {
    // The places of the gates put so far, each behind those that it reads.
    pub(crate) places: Vec<usize>,
    // The constant 0, the inputs, and the variables of these gates.
    pub(crate) settled: NumberSet,
}

impl Circuit {
    // No gate is put: the constant and the inputs are settled.
    pub(crate) fn empty_draft(&self) -> Result<Draft, Memory>
        ensures { IfOk result
            (λ draft. IsDraft self.now draft.places.items (has_number draft.settled)) }
    {
        let mut settled = NumberSet::new(*self.gates.allocator());
        settled.insert(0)?;
        for variable in &self.inputs {
            settled.insert(*variable)?;
        }
        Ok(Draft {
            places: Vec::new(*self.gates.allocator()),
            settled,
        })
    }

    // Puts a gate whose right sides are settled, where it isn't put yet, and says whether it did.
    // Where memory is refused the draft is of no more use.
    fn put(&self, place: usize, draft: &mut Draft) -> Result<bool, Memory>
        requires in_range { place < length self.now.gates }
        requires draft { IsDraft self.now draft.old.places.items (has_number draft.old.settled) }
        ensures draft { OnOk result
            (IsDraft self.now draft.new.places.items (has_number draft.new.settled)) }
        ensures added { IfOk result (λ added. OnTrue added (
            length draft.new.places.items ≡ length draft.old.places.items + 1)) }
        ensures passed { IfOk result (λ added. OnFalse added (
            (draft.new.places.items ≡ draft.old.places.items)
            × IsPassed self.now draft.old.places.items place)) }
    {
        let gate = self.gates[place];
        if draft.settled.contains(gate.variable) {
            return Ok(false);
        }
        if !is_ready(&gate, &draft.settled) {
            return Ok(false);
        }
        draft.settled.insert(gate.variable)?;
        draft.places.push(place)?;
        Ok(true)
    }

    // Puts the gates at these places, as far as each can be put at its turn.
    pub(crate) fn put_all(&self, places: &[usize], draft: &mut Draft) -> Result<(), Memory>
        requires in_range { All (λ place. place < length self.now.gates) places.now }
        requires draft { IsDraft self.now draft.old.places.items (has_number draft.old.settled) }
        ensures { OnOk result
            (IsDraft self.now draft.new.places.items (has_number draft.new.settled)) }
    {
        for place in places {
            self.put(*place, draft)?;
        }
        Ok(())
    }

    // Tries each gate in turn, and says whether any was put.
    pub(crate) fn put_round(&self, draft: &mut Draft) -> Result<bool, Memory>
        requires { IsDraft self.now draft.old.places.items (has_number draft.old.settled) }
        ensures draft { OnOk result
            (IsDraft self.now draft.new.places.items (has_number draft.new.settled)) }
        ensures added { IfOk result (λ added. OnTrue added (
            length draft.old.places.items < length draft.new.places.items)) }
        ensures closed { IfOk result
            (λ added. OnFalse added (IsClosed self.now draft.new.places.items)) }
    {
        let mut added = false;
        for place in 0..self.gates.len() {
            if self.put(place, draft)? {
                added = true;
            }
        }
        Ok(added)
    }
}

// Whether both right sides of a gate are settled.
fn is_ready(gate: &Gate, settled: &NumberSet) -> bool
    ensures { result ≡ (has_number settled.now (literal_variable gate.now.left)
        && has_number settled.now (literal_variable gate.now.right)) }
{
    settled.contains(gate.left / 2) && settled.contains(gate.right / 2)
}
