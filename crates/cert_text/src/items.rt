//! The items of a proof: lines, and ids that are deleted.

ghost use Rattle.std.specs.Prelude.{◌≡◌, ◌≤◌, ◌<◌, ◌^◌, [], ◌∷◌, ◌++◌, map, length, All, Some, OnOk, OnErr};
ghost use Rattle.std.specs.List.{list_any, slice_get};
ghost use Rattle.rup_core.specs.Items.{derived};
ghost use Rattle.cert_text.specs.Items.{item_seen, HasLineId};
ghost use Rattle.cert_text.specs.KeptItems.{kept_item, is_deletion};

use crate::steps::{Step, StepList};
use dq_lits::Memory;
use std::alloc::Global;
use std::marker::Model;

/// An item of a proof.
#[derive(Clone, Copy)]
pub enum Item<'a> {
    /// A line, whose clause has its id from then on.
    Line(Step<'a>),
    /// Ids that have no clause from then on.
    Gone(&'a [u64]),
}

/// A list of items, which takes no block of memory an item.
#[derive(Drop)]
pub struct ItemList {
    // A deletion has the id 0, and its ids as hints.
    lines: StepList,
}

impl Model for ItemList {
    ghost use Rattle.std.specs.Prelude.{List, map};
    ghost use Rattle.rup_core.specs.Items.{ProofItem};
    ghost use Rattle.cert_text.specs.KeptItems.{kept_item};

    ghost Value = { List ProofItem };

    ghost view = { λ l. map kept_item l.lines };
}

impl ItemList {
    /// No items. It takes no memory.
    pub fn new(alloc: Global) -> ItemList
        ensures { result ≡ [] }
    {
        ItemList {
            lines: StepList::new(alloc),
        }
    }

    /// Lines alone, whose ids aren't 0.
    pub fn of_lines(lines: StepList) -> ItemList
        requires { All (λ step. 1 ≤ step.id) lines }
        ensures { result ≡ map derived lines }
    {
        ItemList { lines }
    }

    /// How many items there are.
    pub fn len(&self) -> usize
        ensures value { result ≡ length self.now }
        ensures small { result < 2 ^ 63 }
    {
        self.lines.len()
    }

    /// The item at a place, from 0.
    pub fn get(&self, place: usize) -> Item<'_>
        requires { place < length self.now }
        ensures { slice_get self.now place ≡ Some (item_seen result) }
    {
        let step = self.lines.get(place);
        if step.id == 0 {
            Item::Gone(step.hints)
        } else {
            Item::Line(step)
        }
    }

    /// Adds an item at the end; a line's id isn't 0. An item that there is no memory for is
    /// dropped.
    pub fn push(&mut self, item: Item) -> Result<(), Memory>
        requires { HasLineId (item_seen item) }
        ensures ok { OnOk result (self.new ≡ self.old ++ item_seen item.entry ∷ []) }
        ensures err { OnErr result (self.new ≡ self.old) }
    {
        match item {
            Item::Line(step) => self.lines.push(step),
            Item::Gone(ids) => self.lines.push(Step {
                id: 0,
                lits: &[],
                hints: ids,
            }),
        }
    }

    /// Whether something is deleted.
    pub fn deletes(&self) -> bool
        ensures { result ≡ list_any is_deletion self.now }
    {
        for k in 0..self.len() {
            if let Item::Gone(_) = self.get(k) {
                return true;
            }
        }
        false
    }
}
