//! In which groups gates are, and which of these a search has: a policy. Contracts say no more than
//! that the groups are the checker's gates'.
//!
//! Each gate is given once, and propagation passes it wherever its group is active. Of all gates that
//! candidates had, few are in the present one: so each turn's new gates get a group of their own, and
//! a search has the groups in which gates of the outputs are. Where one group is for all gates,
//! searches with many rounds take a third more time, up to twice as much. While few gates are dead it
//! has all groups: more is learned that later searches have, too, and long chains of boxes need it.

ghost use Rattle.std.specs.Prelude.{◌≡◌, true, IfOk};
ghost use Rattle.circuit_cnf.specs.Turning.{AreActive};

use crate::checkers::Checker;
use crate::gates::Gates;
use dq_lits::{Lit, Memory};
use oracle::Group;

impl Checker {
    // Whether the group that gates go to has some.
    pub(crate) fn has_batch(&self) -> bool {
        self.gates.variables.len() > self.batched
    }

    // Whether a search has an earlier group.
    fn is_active(&self, place: usize, are_all: bool) -> bool
        ensures { are_all ≡ true → result ≡ true }
    {
        are_all || is_marked(&self.live, place)
    }

    // The groups that a search has: those of gates that are live, or all, and that of the faults.
    pub(crate) fn active_groups(&self, faults: &Group, are_all: bool) -> Result<Vec<Group>, Memory>
        ensures { IfOk result (λ active. AreActive self.now faults.now are_all active.items) }
    {
        let earlier = &self.gates.earlier;
        let mut active = Vec::new(self.alloc);
        for place in 0..earlier.len() {
            if self.is_active(place, are_all) {
                active.push(earlier[place])?;
            }
        }
        active.push(self.gates.group)?;
        active.push(*faults)?;
        Ok(active)
    }
}

// Marks the earlier groups that have gates among these; all, where at most a third of the gates
// isn't among them.
pub(crate) fn mark_live(
    live: &mut Vec<bool>,
    gates: &Gates,
    literals: &[Lit],
) -> Result<(), Memory> {
    live.clear();
    live.resize(gates.earlier.len(), are_mostly_live(gates, literals))?;
    for l in literals {
        mark_group(live, gates, l.var());
    }
    Ok(())
}

// Whether at most a third of all gates isn't among these. What is no gate's literal is the present
// group's selector there.
fn are_mostly_live(gates: &Gates, literals: &[Lit]) -> bool {
    let none = gates.group.selector.var();
    let count = literals.iter().filter(|l| l.var() != none).count();
    gates.variables.len() <= count.saturating_add(count / 2)
}

// Marks the group of a gate, if it is an earlier one: the last that was made before the gate was
// named.
fn mark_group(live: &mut [bool], gates: &Gates, v: u64) {
    if v >= gates.group.selector.var() {
        return;
    }
    let place = match gates.earlier.binary_search_by_key(&v, |g| g.selector.var()) {
        Ok(place) => place,
        Err(next) => next.saturating_sub(1),
    };
    if place < live.len() {
        live[place] = true;
    }
}

fn is_marked(marks: &[bool], place: usize) -> bool {
    place < marks.len() && marks[place]
}
