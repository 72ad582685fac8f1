//! The steps of a proof, end to end in memory.
//!
//! A step is a view of three lists, so that it takes no block of memory of its own.

ghost use Rattle.std.specs.Prelude.{◌≡◌, ◌<◌, ◌^◌, [], ◌∷◌, ◌++◌, length, Some, OnOk, OnErr};
ghost use Rattle.std.specs.List.{slice_get};
ghost use Rattle.cert_text.specs.Steps.{step_seen};

use dq_lits::{Lit, Memory};
use flat_lists::FlatLists;
use std::alloc::Global;
use std::marker::Model;

/// A step: a clause, its id, and the ids of the clauses that it is derived from by unit
/// propagation.
#[derive(Clone, Copy)]
pub struct Step<'a> {
    /// The id of the line's clause.
    pub id: u64,
    /// The literals of the clause, as the line has them.
    pub lits: &'a [Lit],
    /// The ids of the clauses that propagate, in order.
    pub hints: &'a [u64],
}

/// A list of steps. Their literals lie end to end, and so do their hints: a line takes no block of
/// memory of its own.
#[derive(Drop)]
pub struct StepList {
    ids: Vec<u64>,
    literals: FlatLists<Lit>,
    hints: FlatLists<u64>,
}

impl Model for StepList {
    ghost use Rattle.std.specs.Prelude.{List};
    ghost use Rattle.dq_lits.specs.Derivation.{ProofStep};
    ghost use Rattle.cert_text.specs.KeptSteps.{steps_from, AreAsMany};

    ghost Value = { List ProofStep };

    ghost view = { λ l. steps_from l.ids.items l.literals l.hints };

    ghost invariant = { λ l. AreAsMany l.ids.items l.literals l.hints };
}

impl StepList {
    /// No lines. It takes no memory.
    pub fn new(alloc: Global) -> StepList
        ensures { result ≡ [] }
    {
        StepList {
            ids: Vec::new(alloc),
            literals: FlatLists::new(alloc),
            hints: FlatLists::new(alloc),
        }
    }

    /// How many lines there are.
    pub fn len(&self) -> usize
        ensures value { result ≡ length self.now }
        ensures small { result < 2 ^ 63 }
    {
        self.ids.len()
    }

    /// The line at a place, from 0.
    pub fn get(&self, place: usize) -> Step<'_>
        requires { place < length self.now }
        ensures { slice_get self.now place ≡ Some (step_seen result) }
    {
        Step {
            id: self.ids[place],
            lits: self.literals.get(place),
            hints: self.hints.get(place),
        }
    }

    /// Adds a line at the end. A line that there is no memory for is dropped.
    pub fn push(&mut self, step: Step) -> Result<(), Memory>
        ensures ok { OnOk result (self.new ≡ self.old ++ step_seen step.entry ∷ []) }
        ensures err { OnErr result (self.new ≡ self.old) }
    {
        self.ids.reserve(1)?;
        self.literals.push(step.lits)?;
        if self.hints.push(step.hints).is_err() {
            self.literals.pop();
            return Err(Memory);
        }
        self.ids.push(step.id).unwrap();
        Ok(())
    }
}
