//! A proof over a circuit whose gates are ordered.

ghost use Rattle.std.specs.Prelude.{◌≡◌, ◌++◌, ◌∷◌, [], map, All, IfOk, OnOk};
ghost use Rattle.cert_text.specs.Items.{item_seen, HasLineId};
ghost use Rattle.ordered_gates.specs.Circuits.{ordered_item};

use crate::ids::push_turned;
use cert_text::{Item, ItemList, Step};
use circuit_plain::Circuit;
use dq_lits::Memory;
use std::alloc::Global;

/// The items of a proof over a circuit, with the hints that they have where its gates are ordered. It
/// takes time for the items and their hints. No line has the id 0.
pub fn ordered_items(alloc: Global, circuit: &Circuit, items: &ItemList) -> Result<ItemList, Memory>
    requires { All HasLineId items.now }
    ensures { IfOk result (λ written. written ≡ map (ordered_item circuit.now.gates) items.now) }
{
    let mut written = ItemList::new(alloc);
    let mut hints = Vec::new(alloc);
    for place in 0..items.len() {
        push_ordered(circuit, items.get(place), &mut hints, &mut written)?;
    }
    Ok(written)
}

// Adds an item, over a buffer for its hints.
fn push_ordered(
    circuit: &Circuit,
    item: Item,
    hints: &mut Vec<u64>,
    written: &mut ItemList,
) -> Result<(), Memory>
    requires { HasLineId (item_seen item) }
    ensures { OnOk result (written.new
        ≡ written.old ++ ordered_item circuit.now.gates (item_seen item.entry) ∷ []) }
{
    match item {
        Item::Gone(ids) => written.push(Item::Gone(ids)),
        Item::Line(step) => {
            hints.clear();
            push_turned(circuit, step.hints, hints)?;
            written.push(Item::Line(Step { hints, ..step }))
        }
    }
}
