//! Variables that are decided before all others: the most active one first, and those that no late
//! conflict had in the order in which they were named. Each gets the value that it had in the last
//! values found (M. Moskewicz et al., "Chaff", 2001; K. Pipatsrisawat, A. Darwiche, "A lightweight
//! component caching scheme for satisfiability solvers", 2007).
//!
//! No contract speaks of it: whatever is named, a decided literal has no value, and is no selector.

ghost use Rattle.std.specs.Prelude.{◌≡◌, ◌≤◌, IfSome};
ghost use Rattle.dq_lits.specs.Literal.{variable_of};
ghost use Rattle.learning_trail.specs.Steps.{literals_of};
ghost use Rattle.dq_lits.specs.Truth.{IsFree};

use dq_lits::{Lit, Memory, TruthValue};
use learning_trail::{Activities, Trail};
use std::alloc::Global;

// The first number that is no variable's.
const FIRST_TOO_LARGE: u64 = 1 << 62;

/// The variables in focus, and how far a search has come with them.
#[derive(Drop)]
pub(crate) struct Focus {
    members: Vec<u64>,
    // The same in the order in which a search decides them: before `next` all have a value.
    order: Vec<u64>,
    next: usize,
    decided: Vec<Decided>,
    // The last value of variable v at place v - 1.
    phases: Vec<bool>,
}

// A decision: where so many literals were true, of the variable at this place of the order.
#[derive(Clone, Copy)]
struct Decided {
    literals: usize,
    place: usize,
}

impl Focus {
    /// No variables.
    pub(crate) fn new(alloc: Global) -> Focus {
        Focus {
            members: Vec::new(alloc),
            order: Vec::new(alloc),
            next: 0,
            decided: Vec::new(alloc),
            phases: Vec::new(alloc),
        }
    }

    /// Room for one variable more.
    pub(crate) fn grow(&mut self) -> Result<(), Memory> {
        self.phases.push(false)?;
        Ok(())
    }

    /// These variables, in place of those before. Where memory is wanting they stay.
    pub(crate) fn set(&mut self, variables: &[u64]) -> Result<(), Memory> {
        self.members.reserve(variables.len())?;
        self.members.clear();
        self.members.extend_from_slice(variables)?;
        Ok(())
    }

    /// A search begins.
    pub(crate) fn begin(&mut self, activities: &Activities) -> Result<(), Memory> {
        self.next = 0;
        self.decided.clear();
        self.order.clear();
        self.push_members(activities, true)?;
        self.order
            .sort_unstable_by_key(|v| u64::MAX - activities.of_variable(*v));
        self.push_members(activities, false)?;
        self.decided.reserve(self.order.len())?;
        Ok(())
    }

    // Puts the active members into the order, or the others.
    fn push_members(&mut self, activities: &Activities, active: bool) -> Result<(), Memory> {
        for v in &self.members {
            if (activities.of_variable(*v) > 0) == active {
                self.order.push(*v)?;
            }
        }
        Ok(())
    }

    /// The literal to decide next, if a variable in focus has no value.
    pub(crate) fn next(&mut self, trail: &Trail) -> Option<Lit>
        ensures in_range { IfSome result (λ l. variable_of l ≤ trail.now.room) }
        ensures free { IfSome result (IsFree (literals_of trail.now.steps)) }
    {
        for place in self.next..self.order.len() {
            let v = self.order[place];
            if let Some(l) = free_literal(trail, v, self.phase(v)) {
                self.note(trail.len(), place);
                return Some(l);
            }
        }
        self.next = self.order.len();
        None
    }

    // Notes a decision.
    fn note(&mut self, literals: usize, place: usize) {
        self.next = place;
        if self.decided.push(Decided { literals, place }).is_err() {
            self.next = self.order.len();
        }
    }

    /// Goes back to where so many literals are true.
    pub(crate) fn back(&mut self, literals: usize) {
        for _ in 0..self.decided.len() {
            match self.decided.last() {
                Some(last) if last.literals >= literals => self.next = last.place,
                _ => return,
            }
            self.decided.pop();
        }
    }

    /// A search has ended: no variables.
    pub(crate) fn end(&mut self) {
        self.members.clear();
    }

    /// Keeps the values that were found.
    pub(crate) fn keep(&mut self, trail: &Trail) {
        for v in &self.members {
            let is_true = has_value(trail, *v, TruthValue::True);
            if let Some(phase) = self.phases.get_mut(v.wrapping_sub(1) as usize) {
                *phase = is_true;
            }
        }
    }

    fn phase(&self, v: u64) -> bool {
        match self.phases.get(v.wrapping_sub(1) as usize) {
            Some(phase) => *phase,
            None => false,
        }
    }
}

// A variable's literal with a sign, where it has no value.
fn free_literal(trail: &Trail, v: u64, is_true: bool) -> Option<Lit>
    ensures in_range { IfSome result (λ l. variable_of l ≤ trail.now.room) }
    ensures free { IfSome result (IsFree (literals_of trail.now.steps)) }
{
    if v == 0 || v >= FIRST_TOO_LARGE || v as usize > trail.room() {
        return None;
    }
    let l = if is_true { Lit::pos(v) } else { Lit::neg(v) };
    match trail.value(l) {
        TruthValue::Unassigned => Some(l),
        _ => None,
    }
}

fn has_value(trail: &Trail, v: u64, value: TruthValue) -> bool {
    if v == 0 || v >= FIRST_TOO_LARGE {
        return false;
    }
    trail.value(Lit::pos(v)) == value
}
