//! The rounds of the instances among some ids.

ghost use Rattle.std.specs.Prelude.{◌≡◌, ◌≤◌, ℕ, false, Some, map, length, replicate, IfOk};
ghost use Rattle.std.specs.List.{range_with_len};
ghost use Rattle.hint_log.specs.Entries.{rounds_of};
ghost use Rattle.hint_log.specs.declared.origins.Origin.TheVariants.{Instance};
ghost use Rattle.cert_export.specs.Expansion.{has_instance, used_rounds};
ghost use Rattle.cert_export.specs.Exportable.{HaveRounds, with_mark};

use dq_lits::Memory;
use hint_log::{Log, Origin};
use std::alloc::Global;

/// The rounds that have an instance among some ids, ascending. It takes time for the rounds and the
/// ids.
pub(crate) fn used_rounds(alloc: Global, log: &Log, ids: &[u64]) -> Result<Vec<u64>, Memory>
    requires { HaveRounds log.now.entries ids.now }
    ensures { IfOk result (λ rounds. rounds.items ≡ used_rounds log.now.entries ids.now) }
{
    let marks = marked_rounds(alloc, log, ids)?;
    let mut rounds = Vec::new(alloc);
    for k in 0..marks.len() {
        if marks[k] {
            rounds.push(k as u64 + 1)?;
        }
    }
    Ok(rounds)
}

// Whether each round has such an instance.
fn marked_rounds(alloc: Global, log: &Log, ids: &[u64]) -> Result<Vec<bool>, Memory>
    requires { HaveRounds log.now.entries ids.now }
    ensures { IfOk result (λ marks. marks.items ≡ map (has_instance log.now.entries ids.now)
        (range_with_len 1 (rounds_of log.now.entries))) }
{
    let mut marks = no_marks(alloc, log.rounds() as usize)?;
    for id in ids {
        mark_round(&mut marks, log.origin(*id));
    }
    Ok(marks)
}

fn no_marks(alloc: Global, n: usize) -> Result<Vec<bool>, Memory>
    ensures { IfOk result (λ marks. marks.items ≡ replicate n false) }
{
    Ok(vec![in alloc; false; n]?)
}

// Marks the round of an instance.
fn mark_round(marks: &mut Vec<bool>, origin: Option<Origin>)
    requires { (k j : ℕ) → origin ≡ Some (Instance k j)
        → (1 ≤ k) × (k ≤ length marks.old.items) }
    ensures { marks.new.items ≡ with_mark marks.old.items origin }
{
    if let Some(Origin::Instance { round, .. }) = origin {
        marks[round as usize - 1] = true;
    }
}
