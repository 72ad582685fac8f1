//! Which clauses have their faults given first: a policy, of which contracts say no more than that
//! each clause has a bit.
//!
//! Where candidates fail, a clause mostly does that comes no later than the last one that failed. One
//! that a definition makes true by itself never does: to show that anew at each turn would cost more
//! than all else. So the faults of the others come first, wherever they stand in the text.

ghost use Rattle.std.specs.Prelude.{◌≡◌, ◌≤◌, length, IfOk};

use crate::checkers::Checker;
use dq_formula::Formula;
use dq_lits::{Memory, Row};
use hint_log::Leaf;

// So many clauses have their faults given first, beside those that the last failure needed.
const FEW: usize = 64;

// So few clauses have their faults given at once.
const SMALL: usize = 48;

impl Checker {
    // A bit for each clause, set where its faults are given first: where it is among the first of
    // the suspects, or of all clauses, where there are none or only few clauses.
    pub(crate) fn first_clauses(
        &self,
        f: &Formula,
        leaves: &[Leaf],
        suspects: &[usize],
    ) -> Result<Row, Memory>
        ensures { IfOk result (λ first. length first ≡ length f.now.matrix) }
    {
        let all = f.clauses();
        let mut first = Row::new(self.alloc, all)?;
        if suspects.is_empty() || all <= SMALL {
            let count = self.first_count(all, self.last_false as usize, leaves);
            mark_first(&mut first, count);
        } else {
            let before = suspects.iter().filter(|j| self.is_before_last(**j)).count();
            let count = self.first_count(suspects.len(), before, leaves);
            mark_each(&mut first, &suspects[..count]);
        }
        Ok(first)
    }

    // Whether a clause comes no later than the one that was false last.
    fn is_before_last(&self, j: usize) -> bool {
        (j as u64) < self.last_false
    }

    // How many of so many clauses come first: twice as many as were needed at the last failure, and
    // a few; all, where these are the greater part, and where nothing failed yet and no output is a
    // constant, as where each has a definition.
    fn first_count(&self, all: usize, needed: usize, leaves: &[Leaf]) -> usize
        ensures { result ≤ all }
    {
        if self.last_false == 0 && !has_constant(leaves) {
            return all;
        }
        let few = needed.saturating_mul(2).saturating_add(FEW);
        if few > all / 2 { all } else { few }
    }
}

// Marks so many of the first clauses.
fn mark_first(first: &mut Row, count: usize)
    ensures { length first.new ≡ length first.old }
{
    for j in 0..count {
        mark(first, j);
    }
}

// Marks the clauses of these numbers, from 0 on.
fn mark_each(first: &mut Row, numbers: &[usize])
    ensures { length first.new ≡ length first.old }
{
    for j in numbers {
        mark(first, *j);
    }
}

fn mark(first: &mut Row, j: usize)
    ensures { length first.new ≡ length first.old }
{
    if j < first.len() {
        first.set(j, true);
    }
}

fn has_constant(leaves: &[Leaf]) -> bool {
    leaves.iter().any(|leaf| is_constant(*leaf))
}

fn is_constant(leaf: Leaf) -> bool {
    match leaf {
        Leaf::Constant(_) => true,
        Leaf::Literal(_) => false,
    }
}
