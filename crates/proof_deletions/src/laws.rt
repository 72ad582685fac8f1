//! What deletions keep. Each law is a public function that does nothing: who calls it may use what
//! it ensures.

ghost use Rattle.proof_deletions.specs.Laws.{AllowedLinesAreNumbered, DeletionsChangeNoFault, DeletionsAreAllowed, ChangedLinesDeleteAlike};

use rup_core::laws::unused_ids_may_go;

/// Lines that a text can hold are numbered one after the other.
pub fn allowed_lines_are_numbered()
    ensures { AllowedLinesAreNumbered }
{}

/// A proof's first fault is the same with deletions, over any clauses.
pub fn deletions_change_no_fault()
    ensures { DeletionsChangeNoFault }
{
    unused_ids_may_go();
}

/// What a text can hold, it can hold with deletions, but for the number of items.
pub fn deletions_are_allowed()
    ensures { DeletionsAreAllowed }
{}

/// Which clauses the lines have makes no difference to what is deleted.
pub fn changed_lines_delete_alike()
    ensures { ChangedLinesDeleteAlike }
{}
