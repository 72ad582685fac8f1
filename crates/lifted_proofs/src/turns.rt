//! The order in which goals are derived: those for which fewer units had been taken come first.

ghost use Rattle.std.specs.Prelude.{length, IfOk};
ghost use Rattle.lifted_proofs.specs.Turns.{AreTurns, TurnAll};

use crate::goals::Goal;
use dq_lits::Memory;
use std::alloc::Global;

/// A goal's turn, by how many units had been taken.
#[derive(Clone, Copy)]
pub(crate) struct Turn {
    pub taken: usize,
    /// The place of the goal.
    pub goal: usize,
}

/// The turns of all goals, in order.
pub(crate) fn turns(alloc: Global, goals: &[Goal]) -> Result<Vec<Turn>, Memory>
    ensures { IfOk result (λ turns. AreTurns goals.now turns.items) }
{
    let mut turns = unordered(alloc, goals)?;
    turns.sort_unstable_by_key(|turn| turn.taken);
    Ok(turns)
}

fn unordered(alloc: Global, goals: &[Goal]) -> Result<Vec<Turn>, Memory>
    ensures { IfOk result (λ turns. TurnAll goals.now (length goals.now) turns.items) }
{
    let mut turns = Vec::new(alloc);
    for goal in 0..goals.len() {
        let taken = goals[goal].source.taken;
        turns.push(Turn { taken, goal })?;
    }
    Ok(turns)
}
