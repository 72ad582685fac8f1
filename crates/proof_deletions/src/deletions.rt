//! A proof with deletions.

ghost use Rattle.std.specs.Prelude.{◌≡◌, ◌++◌, length, IfOk, OnOk};
ghost use Rattle.proof_deletions.specs.Chains.{AreChains};
ghost use Rattle.proof_deletions.specs.Deletions.{AreNumberedLines, lines_of, first_number, deletion, with_deletions};
ghost use Rattle.proof_deletions.specs.LastUses.{AreLastUses};

use crate::chains::Chains;
use crate::last_uses::{last_uses, line_at};
use cert_text::{Item, ItemList};
use dq_lits::Memory;
use std::alloc::Global;

/// The lines of a proof, and behind each but the last one a deletion of the lines before that it
/// hints and no later line does, where there are such. It takes time for the lines and their hints,
/// and besides the items three words a line.
pub fn with_deletions(alloc: Global, lines: &ItemList) -> Result<ItemList, Memory>
    requires { AreNumberedLines lines.now }
    ensures { IfOk result (λ items. items ≡ with_deletions lines.now) }
{
    let first = first_number(lines);
    let chains = chains_of(alloc, lines, first)?;
    write_items(alloc, lines, &chains)
}

// The number of the first line, 0 where there is none.
fn first_number(lines: &ItemList) -> u64
    requires { AreNumberedLines lines.now }
    ensures { result ≡ first_number (lines_of lines.now) }
{
    if lines.len() == 0 {
        return 0;
    }
    line_at(lines, 0).id
}

// For each line those that it is the last to hint.
fn chains_of(alloc: Global, lines: &ItemList, first: u64) -> Result<Chains, Memory>
    requires { AreNumberedLines lines.now }
    ensures { IfOk result (λ c. AreChains c
        × AreLastUses first (lines_of lines.now) (length lines.now) c.table.items) }
{
    let table = last_uses(alloc, lines, first)?;
    Chains::new(alloc, table)
}

// The lines with the deletions that their lists give.
fn write_items(alloc: Global, lines: &ItemList, chains: &Chains) -> Result<ItemList, Memory>
    requires lines { AreNumberedLines lines.now }
    requires chains { AreChains chains.now }
    requires uses { AreLastUses (first_number (lines_of lines.now)) (lines_of lines.now)
        (length lines.now) chains.now.table.items }
    ensures { IfOk result (λ items. items ≡ with_deletions lines.now) }
{
    let mut items = ItemList::new(alloc);
    let mut numbers = Vec::new(alloc);
    for place in 0..lines.len() {
        items.push(Item::Line(line_at(lines, place)))?;
        if place + 1 < lines.len() {
            chains.numbers(lines, place, &mut numbers)?;
            push_deletion(&mut items, &numbers)?;
        }
    }
    Ok(items)
}

// Adds a deletion of these, where there are any.
fn push_deletion(items: &mut ItemList, ids: &[u64]) -> Result<(), Memory>
    ensures { OnOk result (items.new ≡ items.old ++ deletion ids.now) }
{
    if ids.is_empty() {
        return Ok(());
    }
    items.push(Item::Gone(ids))
}
