//! The copies that a search state begins with.

ghost use Rattle.std.specs.Prelude.{◌≡◌, ℕ, true, length, replicate, None, All, IfOk};
ghost use Rattle.dq_lits.specs.Formula.{IsWellFormed};
ghost use Rattle.hint_log.specs.Entries.{name_of};
ghost use Rattle.hint_log.specs.Growth.{Grew};
ghost use Rattle.log_laws.specs.Engines.{copies, HasNone, IsAddedBy};
ghost use Rattle.definability.specs.Copies.{groups_of};
ghost use Rattle.definability.specs.Growing.{HasFewFaults};
ghost use Rattle.definability.specs.Store.{IsCopyStore, copy_groups};

use copied_prefixes::copy_prefix;
use definability::Definability;
use definability::laws::added_clauses_leave_stores;
use dq_formula::Formula;
use dq_lits::Memory;
use hint_log::Log;
use oracle::Oracle;
use std::alloc::Global;

/// Copies of the existentials alone: what clauses need is given with their copies, where a question
/// is left.
pub(crate) fn first_copies<O: Oracle>(
    alloc: Global,
    oracle: &mut O,
    f: &Formula,
    log: &mut Log,
) -> Result<Definability, Memory>
    requires fit { O.Fits oracle.old log.old }
    requires formula { IsWellFormed f.now }
    requires none { HasNone copies log.old.entries }
    requires few { HasFewFaults log.old.entries }
    ensures fit { O.Fits oracle.new log.new }
    ensures grew { (group : ℕ)
        → Grew (IsAddedBy f.now copies group true log.old.entries) log.old log.new }
    ensures fresh { IfOk result
        (λ p. All (λ g. name_of log.old.entries g ≡ None) (groups_of p)) }
    ensures all_active { IfOk result (λ p. copy_groups p ≡ groups_of p) }
    ensures store { IfOk result (λ p.
        IsCopyStore f.now (replicate (length f.now.matrix) 0) p log.new.entries) }
{
    added_clauses_leave_stores();
    let prefix = copy_prefix(alloc, f)?;
    Definability::new(alloc, oracle, &prefix, log)
}
