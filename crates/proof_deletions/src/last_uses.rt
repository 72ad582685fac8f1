//! The line that hints each line last.

ghost use Rattle.std.specs.Prelude.{◌≡◌, ◌≤◌, ◌<◌, Some, length, map, IfOk};
ghost use Rattle.std.specs.List.{slice_get};
ghost use Rattle.rup_core.specs.Items.{derived};
ghost use Rattle.cert_text.specs.Steps.{step_seen};
ghost use Rattle.proof_deletions.specs.Deletions.{lines_of};
ghost use Rattle.proof_deletions.specs.LastUses.{AreLastUses, AreNoted};

use cert_text::{Item, ItemList, Step};
use dq_lits::Memory;
use std::alloc::Global;

/// By place, one more than the place of the last line that hints this one, which has the number
/// `first` or a later one; 0 where none does.
pub(crate) fn last_uses(alloc: Global, lines: &ItemList, first: u64) -> Result<Vec<usize>, Memory>
    requires { lines.now ≡ map derived (lines_of lines.now) }
    ensures { IfOk result
        (λ table. AreLastUses first (lines_of lines.now) (length lines.now) table.items) }
{
    let mut table = vec![in alloc; 0usize; lines.len()]?;
    for place in 0..lines.len() {
        note_hints(&mut table, first, place, line_at(lines, place).hints);
    }
    Ok(table)
}

/// The line at a place.
pub(crate) fn line_at(lines: &ItemList, place: usize) -> Step<'_>
    requires there { place < length lines.now }
    requires lines { lines.now ≡ map derived (lines_of lines.now) }
    ensures { slice_get (lines_of lines.now) place ≡ Some (step_seen result) }
{
    match lines.get(place) {
        Item::Line(step) => step,
        Item::Gone(_) => unreachable!(),
    }
}

// Notes that the line at a place is the last one so far that hints these.
fn note_hints(table: &mut Vec<usize>, first: u64, place: usize, hints: &[u64])
    requires { place < length table.old.items }
    ensures { AreNoted first place hints.now table.old.items table.new.items }
{
    for hint in hints {
        if first <= *hint && *hint - first < place as u64 {
            table[(*hint - first) as usize] = place + 1;
        }
    }
}
