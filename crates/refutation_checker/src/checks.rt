//! The check of a refutation.

ghost use Rattle.std.specs.Prelude.{length, map, IfOk, OnOk, false, ◌≡◌};
ghost use Rattle.dq_lits.specs.Expansion.{instance_at};
ghost use Rattle.dq_lits.specs.Formula.{IsWellFormed};
ghost use Rattle.cert_text.specs.Grammar.{AreItems, IsDqrOf};
ghost use Rattle.cert_text.specs.Numbering.{numbered_from};
ghost use Rattle.cert_text.specs.Pairs.{is_pair_number};
ghost use Rattle.cert_text.specs.Scan.{first_id};
ghost use Rattle.rup_core.specs.Items.{items_fault};
ghost use Rattle.rup_core.specs.ProofVerdict.{proof_fault_in};
ghost use Rattle.rup_core.specs.Runs.{start};
ghost use Rattle.refutation_checker.specs.Answer.{IsAnswer};
ghost use Rattle.refutation_checker.specs.Proving.{AreRows, HasFaultOf, IsJudging};
ghost use Rattle.refutation_checker.specs.Refutation.{normal_item, refutation_fault};

use crate::faults::RefFault;
use crate::proving::RefutationProving;
use cert_text::{Dqr, ItemList};
use dq_formula::Formula;
use dq_lits::{Memory, Row};
use rup_core::ProofFault;
use std::alloc::Global;

/// Whether a refutation shows that a formula is false: every line is derived, in order, from the
/// instances of the clauses under the rows and from the lines before it that weren't deleted, and
/// the last line is the empty clause. Else it answers the first line that isn't derived, or that
/// the empty clause is missing. A pair may stand in a line by the number of any row that agrees on what its existential
/// sees.
pub fn check(alloc: Global, f: &Formula, d: &Dqr) -> Result<(), RefFault>
    requires well_formed { IsWellFormed f.now }
    requires lawful { IsDqrOf f.now d.now }
    ensures { IsAnswer (refutation_fault f.now d.now) result }
{
    let fault = items_fault(alloc, f, d.rows.items(), &d.items)?;
    answer(fault)
}

fn answer(fault: Option<ProofFault>) -> Result<(), RefFault>
    ensures { IsAnswer (proof_fault_in fault) result }
{
    match fault {
        Some(ProofFault::Underived(id)) => Err(RefFault::Step(id)),
        Some(ProofFault::Unfinished) => Err(RefFault::NoEmptyClause),
        None => Ok(()),
    }
}

// The first fault of a refutation's items.
fn items_fault(
    alloc: Global,
    f: &Formula,
    rows: &[Row],
    items: &ItemList,
) -> Result<Option<ProofFault>, Memory>
    requires rows { AreRows f.now rows.now }
    requires numbered { AreItems (is_pair_number f.now (length rows.now))
        (numbered_from (first_id f.now (length rows.now))) items.now }
    ensures { IfOk result (λ fault. proof_fault_in fault
        ≡ items_fault false (instance_at f.now rows.now)
        (map (normal_item f.now rows.now) items.now)) }
{
    let mut proving = RefutationProving::new(alloc, f, rows)?;
    judge_all(f, rows, items, &mut proving)?;
    Ok(proving.fault())
}

// Judges items up to the first line that isn't derived.
fn judge_all(
    f: &Formula,
    rows: &[Row],
    items: &ItemList,
    proving: &mut RefutationProving,
) -> Result<(), Memory>
    requires first { IsJudging f.now rows.now proving.old
        (numbered_from (first_id f.now (length rows.now)))
        (start (instance_at f.now rows.now)) }
    requires numbered { AreItems (is_pair_number f.now (length rows.now))
        (numbered_from (first_id f.now (length rows.now))) items.now }
    ensures { OnOk result (HasFaultOf f.now rows.now items.now proving.new) }
{
    for k in 0..items.len() {
        proving.item(f, rows, items.get(k))?;
        if proving.is_settled() {
            return Ok(());
        }
    }
    Ok(())
}
