//! How a verdict is written.

ghost use Rattle.std.specs.Prelude.{◌≡◌, IfOk};
ghost use Rattle.proof_deletions.specs.Deletions.{AreNumberedLines};
ghost use Rattle.verdict_texts.specs.Forms.{written_items};

use cert_text::ItemList;
use dq_lits::Memory;
use proof_deletions::with_deletions;
use std::alloc::Global;

/// How a verdict is written.
#[derive(Clone, Copy)]
pub struct Form {
    /// Without the line that names it.
    pub bare: bool,
    /// With a deletion behind the last line of the proof that hints a derived clause.
    pub deletes: bool,
    /// A circuit in AIGER's binary form.
    pub binary: bool,
}

/// A proof's lines as they are written.
pub(crate) fn written_items(alloc: Global, items: ItemList, form: Form) -> Result<ItemList, Memory>
    requires { AreNumberedLines items }
    ensures { IfOk result (λ written. written ≡ written_items form items) }
{
    if form.deletes {
        with_deletions(alloc, &items)
    } else {
        Ok(items)
    }
}
