//! The instances that a refutation's lines hint at.

ghost use Rattle.std.specs.Prelude.{◌≡◌, ℕ, IfOk, OnOk};
ghost use Rattle.lifted_proofs.specs.Carried.{lines_of, AreWanted};
ghost use Rattle.lifted_proofs.specs.Hinted.{AddsHints, AddsItem};
ghost use Rattle.cert_text.specs.Items.{item_seen};

use cert_text::{Item, ItemList};
use dq_lits::Memory;
use number_tables::NumberSet;
use std::alloc::Global;

/// The ids up to the last one of instances that lines hint at, each once.
pub(crate) fn hinted_instances(
    alloc: Global,
    items: &ItemList,
    last: u64,
) -> Result<NumberSet, Memory>
    ensures { IfOk result (AreWanted (lines_of items.now) last) }
{
    let mut wanted = NumberSet::new(alloc);
    for k in 0..items.len() {
        add_item(&mut wanted, items.get(k), last)?;
    }
    Ok(wanted)
}

// Adds the hints of an item, if it is a line.
fn add_item(wanted: &mut NumberSet, item: Item, last: u64) -> Result<(), Memory>
    ensures { OnOk result (AddsItem last (item_seen item.entry) wanted.old wanted.new) }
{
    match item {
        Item::Line(step) => add_hints(wanted, step.hints, last),
        Item::Gone(_) => Ok(()),
    }
}

fn add_hints(wanted: &mut NumberSet, hints: &[u64], last: u64) -> Result<(), Memory>
    ensures { OnOk result (AddsHints last hints.now wanted.old wanted.new) }
{
    for h in hints {
        if *h <= last {
            wanted.insert(*h)?;
        }
    }
    Ok(())
}
