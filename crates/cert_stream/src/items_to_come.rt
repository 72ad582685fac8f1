//! The lines of a proof that are still to come.

ghost use Rattle.std.specs.Prelude.{◌≡◌, ◌<◌, ◌^◌, None};
ghost use Rattle.dq_text.specs.Line.{line_tokens};
ghost use Rattle.cert_text.specs.ItemLine.{item_line};
ghost use Rattle.cert_text.specs.LineIds.{numbering};
ghost use Rattle.cert_text.specs.Numbering.{numbered_from};
ghost use Rattle.cert_text.specs.Variables.{is_variable};
ghost use Rattle.cert_stream.specs.ItemsToCome.{item_in, item_of, IsItemTaken};

use cert_text::{
    Item, ItemRead, LineIds, LineStop, ProofLines, Step, StepBuffers, Variables, Version, read_item,
};
use std::alloc::Global;

/// The lines of a proof that are to come, and the item that the last line was.
#[derive(Drop)]
pub(crate) struct ItemsToCome {
    pub version: Version,
    /// How many are to come.
    pub left: u64,
    pub ids: LineIds,
    /// What the last line was, if it is one of the proof's; the rest of it stands in the buffers.
    pub read: Option<ItemRead>,
    pub buffers: StepBuffers,
}

impl ItemsToCome {
    /// No line came yet, and the first step has this id. It takes no memory.
    pub(crate) fn new(alloc: Global, version: Version, first_id: u128, count: u64) -> ItemsToCome
        ensures version { result.version ≡ version }
        ensures left { result.left ≡ count }
        ensures numbering { numbering result.ids ≡ numbered_from first_id }
        ensures first { result.ids.first ≡ first_id }
        ensures item { result.read ≡ None }
    {
        ItemsToCome {
            version,
            left: count,
            ids: LineIds::new(alloc, first_id),
            read: None,
            buffers: StepBuffers::new(alloc),
        }
    }

    /// Reads the next line of the proof, over these variables.
    #[inline(always)]
    pub(crate) fn take(&mut self, variables: Variables, line: &[u8]) -> Result<(), LineStop>
        requires some { 0 < self.old.left }
        requires small { self.old.ids.first < 2 ^ 127 }
        ensures item { IsItemTaken (item_line self.old.version (is_variable variables.entry)
            (numbering self.old.ids) (line_tokens line.now)) result self.old self.new }
        ensures first { self.new.ids.first ≡ self.old.ids.first }
    {
        let kind = ProofLines {
            version: self.version,
            variables,
        };
        let read = read_item(kind, line, &mut self.ids, &mut self.buffers)?;
        self.left -= 1;
        self.read = Some(read);
        Ok(())
    }

    /// The item that the last line was.
    pub(crate) fn item(&self) -> Option<Item<'_>>
        ensures { item_of result ≡ item_in self.now }
    {
        match self.read {
            Some(ItemRead::Line(id)) => Some(Item::Line(Step {
                id,
                lits: &self.buffers.literals,
                hints: &self.buffers.hints,
            })),
            Some(ItemRead::Gone) => Some(Item::Gone(&self.buffers.hints)),
            None => None,
        }
    }
}
