//! Lists that lie end to end in one vector: a list costs its elements and 8 bytes, and no block of
//! its own.
#![tactic(auto)]

ghost use Rattle.std.specs.Prelude.{◌≡◌, ◌-◌, ◌<◌, ◌∷◌, ◌++◌, [], length, take, slice_index_or, OnOk, OnErr};
ghost use Rattle.flat_lists.specs.Layout.{lists_at, start_of, AreEnds};

use std::alloc::{AllocError, Global};
use std::marker::Model;

/// Lists, which a contract sees as a list of lists.
#[derive(Drop)]
pub struct FlatLists<T> {
    // Where each list ends in `items`.
    ends: Vec<usize>,
    items: Vec<T>,
}

impl<T> Model for FlatLists<T> {
    ghost use Rattle.std.specs.Prelude.{List, length};
    ghost use Rattle.std.specs.Coded.{coded_list};
    ghost use Rattle.flat_lists.specs.Layout.{lists_at, AreEnds};

    ghost Value = { List (List T) };

    ghost coded = { coded_list (coded_list T.code) };

    ghost view = { λ l. lists_at 0 l.ends.items l.items.items };

    ghost invariant = { λ l. AreEnds 0 l.ends.items (length l.items.items) };
}

// Where the list at a place begins.
fn start_of(ends: &[usize], place: usize) -> usize
    requires { place < length ends.now }
    ensures { result ≡ start_of 0 ends.now place }
{
    if place == 0 { 0 } else { ends[place - 1] }
}

// The list at a place of those that lie end to end.
#[tactic(auto, using(crate::proofs::Lists::list_bounds))]
fn list_at<'a, T: Copy>(ends: &[usize], items: &'a [T], place: usize) -> &'a [T]
    requires within { place < length ends.now }
    requires bounds { AreEnds 0 ends.now (length items.now) }
    ensures { result.now ≡ slice_index_or (lists_at 0 ends.now items.now) place [] }
{
    let start = start_of(ends, place);
    let end = ends[place];
    &items[start..end]
}

// Adds a list behind those that lie end to end.
fn append<T: Copy>(ends: &mut Vec<usize>, items: &mut Vec<T>, list: &[T]) -> Result<(), AllocError>
    ensures end { OnOk result (ends.new.items ≡ ends.old.items ++ length items.new.items ∷ []) }
    ensures items { OnOk result (items.new.items ≡ items.old.items ++ list.now) }
    ensures err { OnErr result
        ((ends.new.items ≡ ends.old.items) × (items.new.items ≡ items.old.items)) }
{
    ends.reserve(1)?;
    items.extend_from_slice(list)?;
    ends.push(items.len()).unwrap();
    Ok(())
}

impl<T: Copy> FlatLists<T> {
    /// No lists. It takes no memory.
    pub fn new(alloc: Global) -> FlatLists<T>
        ensures { result ≡ [] }
    {
        FlatLists {
            ends: Vec::new(alloc),
            items: Vec::new(alloc),
        }
    }

    /// How many lists there are.
    pub fn len(&self) -> usize
        ensures { result ≡ length self.now }
    {
        self.ends.len()
    }

    /// The list at a place, from 0.
    pub fn get(&self, place: usize) -> &[T]
        requires { place < length self.now }
        ensures { result.now ≡ slice_index_or self.now place [] }
    {
        let ends: &[usize] = &self.ends;
        list_at(ends, &self.items, place)
    }

    /// Adds a list behind the others.
    pub fn push(&mut self, list: &[T]) -> Result<(), AllocError>
        ensures ok { OnOk result (self.new ≡ self.old ++ list.now ∷ []) }
        ensures err { OnErr result (self.new ≡ self.old) }
    {
        append(&mut self.ends, &mut self.items, list)?;
        Ok(())
    }

    /// Takes the last list away, where there is one.
    pub fn pop(&mut self)
        ensures { self.new ≡ take (length self.old - 1) self.old }
    {
        if self.ends.is_empty() {
            return;
        }
        let rest = self.ends.len() - 1;
        let start = start_of(&self.ends, rest);
        self.items.truncate(start);
        self.ends.truncate(rest);
    }

    /// Takes all lists away.
    pub fn clear(&mut self)
        ensures { self.new ≡ [] }
    {
        self.ends.clear();
        self.items.clear();
    }
}
