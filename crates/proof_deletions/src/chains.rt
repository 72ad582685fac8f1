//! For each line the lines that it is the last to hint.

ghost use Rattle.std.specs.Prelude.{◌≡◌, ◌+◌, ◌≤◌, ◌<◌, length, map, IfOk, OnOk};
ghost use Rattle.std.specs.List.{All};
ghost use Rattle.proof_deletions.specs.Chains.{AreChained, AreChains, used_at};
ghost use Rattle.proof_deletions.specs.Deletions.{AreNumberedLines, lines_of, first_number};

use crate::last_uses::line_at;
use cert_text::ItemList;
use dq_lits::Memory;
use std::alloc::Global;

/// For each line the places of the lines that it is the last to hint, ascending, as linked lists:
/// where each one begins, and which place stands behind each. The number of lines ends a list.
#[derive(Drop)]
pub(crate) struct Chains {
    // One more than the place of each line's last use, or 0.
    pub table: Vec<usize>,
    pub heads: Vec<usize>,
    pub nexts: Vec<usize>,
}

impl Chains {
    /// The lists of a table with one more than the place of each line's last use, or 0.
    pub(crate) fn new(alloc: Global, table: Vec<usize>) -> Result<Chains, Memory>
        requires { All (λ place. place ≤ length table.items) table.items }
        ensures { IfOk result (λ c. AreChains c × (c.table.items ≡ table.items)) }
    {
        let mut heads = vec![in alloc; table.len(); table.len()]?;
        let mut nexts = vec![in alloc; table.len(); table.len()]?;
        link(&table, &mut heads, &mut nexts);
        Ok(Chains {
            table,
            heads,
            nexts,
        })
    }

    /// Puts the numbers of a line's list in the place of others, of lines that are as many.
    pub(crate) fn numbers(
        &self,
        lines: &ItemList,
        place: usize,
        numbers: &mut Vec<u64>,
    ) -> Result<(), Memory>
        requires chains { AreChains self.now }
        requires lines { AreNumberedLines lines.now }
        requires as_many { length self.now.table.items ≡ length lines.now }
        requires there { place < length lines.now }
        ensures { OnOk result
            (numbers.new.items
            ≡ map (λ k. first_number (lines_of lines.now) + k)
            (used_at self.now.table.items 0 place)) }
    {
        numbers.clear();
        let mut at = self.heads[place];
        while at < self.nexts.len() {
            numbers.push(line_at(lines, at).id)?;
            at = self.nexts[at];
        }
        Ok(())
    }
}

// Links the places to their lists, from the last one on.
fn link(table: &[usize], heads: &mut Vec<usize>, nexts: &mut Vec<usize>)
    requires uses { All (λ place. place ≤ length table.now) table.now }
    requires none { AreChained table.now (length table.now) heads.old.items nexts.old.items }
    ensures { AreChained table.now 0 heads.new.items nexts.new.items }
{
    let mut place = table.len();
    while place > 0 {
        place -= 1;
        link_place(table, place, heads, nexts);
    }
}

// Puts a place in front of the list of the line where it is used last, if it is.
fn link_place(table: &[usize], place: usize, heads: &mut Vec<usize>, nexts: &mut Vec<usize>)
    requires there { place < length table.now }
    requires uses { All (λ place. place ≤ length table.now) table.now }
    requires behind { AreChained table.now (place + 1) heads.old.items nexts.old.items }
    ensures { AreChained table.now place heads.new.items nexts.new.items }
{
    if table[place] > 0 {
        let last = table[place] - 1;
        nexts[place] = heads[last];
        heads[last] = place;
    }
}
