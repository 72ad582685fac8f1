//! Lists of items.
//!
//! A list of items is a list of steps of which some have the id 0: these are deletions, and their
//! hints are the ids. So a list of lines becomes one of items as it is.

ghost use Rattle.std.specs.Prelude.{◌≡◌, ◌+◌, ◌≤◌, ◌<◌, ◌^◌, [], ◌∷◌, ◌++◌, IsTrue, OnOk};
ghost use Rattle.cert_text.specs.ItemLine.{item_lines};
ghost use Rattle.cert_text.specs.Items.{HasLineId};
ghost use Rattle.cert_text.specs.LineIds.{numbering};
ghost use Rattle.cert_text.specs.Lines.{IsReadingUpTo, IsReadInto, put_behind, read_from};
ghost use Rattle.cert_text.specs.Numbering.{numbered_from};
ghost use Rattle.cert_text.specs.ReadItem.{read_item};
ghost use Rattle.cert_text.specs.Variables.{is_variable};

use crate::faults::{CertFault, CertStop, at_line, refused};
use crate::item_lines::{ItemRead, ProofLines, read_item};
use crate::items::{Item, ItemList};
use crate::line_ids::LineIds;
use crate::step_lines::StepBuffers;
use crate::steps::Step;
use dq_lits::Memory;
use dq_text::Lines;
use std::alloc::Global;

/// The items that are to come, as a header announces them.
#[derive(Clone, Copy)]
pub struct Announced<'a> {
    pub lines: ProofLines<'a>,
    /// The id of the first line; each further one has the next id.
    pub first_id: u128,
    pub count: u64,
}

/// Reads the next lines as the items that are announced.
pub fn read_items(
    alloc: Global,
    announced: &Announced,
    lines: &mut Lines,
) -> Result<ItemList, CertStop>
    requires from_one { 1 ≤ announced.now.first_id }
    requires small { announced.now.first_id < 2 ^ 127 }
    ensures { IsReadingUpTo (read_from (item_lines announced.now.lines.version
        (is_variable announced.now.lines.variables)) (numbered_from announced.now.first_id)
        announced.now.count lines.old) result lines.new }
{
    let mut items = ItemList::new(alloc);
    let mut ids = LineIds::new(alloc, announced.first_id);
    let mut buffers = StepBuffers::new(alloc);
    take_items(announced, lines, &mut ids, &mut buffers, &mut items)?;
    Ok(items)
}

// Puts the items behind those that were read.
fn take_items(
    announced: &Announced,
    lines: &mut Lines,
    ids: &mut LineIds,
    buffers: &mut StepBuffers,
    items: &mut ItemList,
) -> Result<(), CertStop>
    requires from_one { 1 ≤ ids.old.first }
    requires small { ids.old.first < 2 ^ 127 }
    ensures { IsReadInto (put_behind items.old (read_from (item_lines announced.now.lines.version
        (is_variable announced.now.lines.variables)) (numbering ids.old) announced.now.count
        lines.old)) result items.new lines.new }
{
    for k in 0..announced.count {
        let Some(line) = lines.next() else {
            return Err(refused(lines.number(), CertFault::Truncated));
        };
        match read_item(announced.lines, line.text, ids, buffers) {
            Ok(read) => push_item(read, buffers, items)?,
            Err(stop) => return Err(at_line(line.number, stop)),
        }
    }
    Ok(())
}

fn push_item(read: ItemRead, buffers: &StepBuffers, items: &mut ItemList) -> Result<(), Memory>
    requires { HasLineId (read_item read buffers.now.literals.items buffers.now.hints.items) }
    ensures { OnOk result
        (items.new
        ≡ items.old ++ read_item read buffers.now.literals.items buffers.now.hints.items ∷ []) }
{
    items.push(match read {
        ItemRead::Line(id) => Item::Line(Step {
            id,
            lits: &buffers.literals,
            hints: &buffers.hints,
        }),
        ItemRead::Gone => Item::Gone(&buffers.hints),
    })
}
