//! In which searches clauses wait that are watched second at a false literal: a policy that no
//! contract speaks of.
//!
//! A leaf of a circuit may stand in the faults of very many clauses. Where it is false, each of them
//! makes a `bad` false, and next to nothing comes of that, while the gates' clauses show a conflict
//! or make more literals true. So faults are watched second at their leaves, and wait in a search
//! that has them: else n clauses on one leaf would take a time that grows with n^2.
//!
//! The clauses of gates that are watched second wait with them. So none waits for long: where gates
//! stand in a chain of n, a conflict would else be found up to n gates away from a nearer one, and a
//! learned clause would need as many hints.

use hint_log::Origin;
use oracle::Group;

// For so many literals' clauses a clause waits at most.
const LONGEST_WAIT: usize = 32;

/// The newest group of faults, and whether a search has it.
#[derive(Clone, Copy)]
pub(crate) struct Delays {
    // The variable of its selector; 0, where there is none.
    faults: u64,
    is_on: bool,
}

impl Delays {
    /// No group, and no search.
    pub(crate) fn new() -> Delays {
        Delays {
            faults: 0,
            is_on: false,
        }
    }

    /// A clause is given in a group.
    pub(crate) fn note(&mut self, g: &Group, origin: &Origin) {
        if is_fault(origin) {
            self.faults = g.selector.var();
        }
    }

    /// A search begins that has these groups.
    pub(crate) fn begin(&mut self, active: &[Group]) {
        self.is_on = has_group(active, self.faults);
    }

    /// Whether clauses wait in this search.
    pub(crate) fn are_on(&self) -> bool {
        self.is_on
    }
}

/// Whether, in a search in which clauses wait or don't, those still wait that are watched second at
/// the literal of one place of the trail, where those were visited that are watched first at the
/// literals before another place.
pub(crate) fn still_waits(waits: bool, second_at: usize, at: usize) -> bool {
    waits && at.saturating_sub(second_at) < LONGEST_WAIT
}

/// Whether a clause says that a literal is false where a clause of the matrix is.
pub(crate) fn is_fault(origin: &Origin) -> bool {
    match origin {
        Origin::Fault { clause, .. } => *clause > 0,
        _ => false,
    }
}

fn has_group(active: &[Group], selector: u64) -> bool {
    active.iter().any(|g| g.selector.var() == selector)
}
