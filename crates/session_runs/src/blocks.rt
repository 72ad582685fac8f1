//! A search's block.

ghost use Rattle.std.specs.Prelude.{◌≡◌, ◌++◌, length, OnOk};
ghost use Rattle.session_runs.specs.Blocks.{block_head};

use dq_lits::Memory;
use std::alloc::Global;

/// Writes what `solve` would write, behind a line with the search's number and how many bytes these
/// are.
pub(crate) fn write_block(
    alloc: Global,
    text: &mut Vec<u8>,
    number: u64,
    found: &[u8],
) -> Result<(), Memory>
    ensures { OnOk result (text.new.items
        ≡ text.old.items ++ (block_head number (length found.now) ++ found.now)) }
{
    let bytes = found.len();
    let head = format!(in alloc; "solve {number} {bytes}\n")?;
    text.extend_from_slice(head.as_bytes())?;
    text.extend_from_slice(found)?;
    Ok(())
}
