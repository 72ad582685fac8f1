//! Groups that rest: a policy, but for which ones do.
//!
//! A search may leave a group behind that none assumes any more: its clauses, and what was learned
//! from them, would be passed for ever. So a group rests that no search had for long, and wakes where
//! one has it. Which groups rest is looked at again after four times as many searches as the root of the
//! number of clauses: so what the searches between two looks pass and the look itself cost about the
//! same, and N searches that leave a group each take a time that grows with N to the power of 1.5.

ghost use Rattle.std.specs.Prelude.{◌≡◌, []};

use dq_lits::Memory;
use oracle::Group;
use std::alloc::Global;
use std::collections::BTreeMap;

// The fewest searches between two looks.
const FEWEST: u64 = 1024;

// In so many searches a group isn't idle that was active in one of them, at first.
const PATIENCE: u64 = 256;

/// Which groups rest, and when each was active.
#[derive(Drop)]
pub(crate) struct Resting {
    /// Whether the group with selector v rests, at place v; it doesn't, where there is no place.
    pub(crate) flags: Vec<bool>,
    // The number of the search in which a group was active last, by its selector.
    last: BTreeMap<u64, u64>,
    // How many searches there were.
    searches: u64,
    // How many there are when groups are looked at next.
    next: u64,
    patience: u64,
    // The root of the number of clauses, as it was looked at.
    root: u64,
}

impl Resting {
    /// No groups. It takes no memory.
    pub(crate) fn new(alloc: Global) -> Resting
        ensures { result.flags.items ≡ [] }
    {
        Resting {
            flags: Vec::new(alloc),
            last: BTreeMap::new(alloc),
            searches: 0,
            next: FEWEST,
            patience: PATIENCE,
            root: 0,
        }
    }

    /// A group was made.
    pub(crate) fn made(&mut self, selector: u64) -> Result<(), Memory>
        ensures { self.new.flags.items ≡ self.old.flags.items }
    {
        self.last.insert(selector, self.searches)?;
        Ok(())
    }

    /// A search begins that has these groups.
    pub(crate) fn note(&mut self, active: &[Group])
        ensures { self.new.flags.items ≡ self.old.flags.items }
    {
        self.searches = self.searches.saturating_add(1);
        note_all(&mut self.last, active, self.searches);
    }

    /// Whether groups are to be looked at, and if so, when next, where there are so many clauses.
    pub(crate) fn is_due(&mut self, clauses: u64) -> bool
        ensures { self.new.flags.items ≡ self.old.flags.items }
    {
        if self.searches < self.next {
            return false;
        }
        self.root = root_from(self.root, clauses);
        self.next = self
            .searches
            .saturating_add(self.root.saturating_mul(4).max(FEWEST));
        true
    }

    /// Whether a group is idle.
    pub(crate) fn is_idle(&self, selector: u64) -> bool {
        match self.last.get(&selector) {
            Some(last) => last.saturating_add(self.patience) < self.searches,
            None => false,
        }
    }

    /// Whether a group rests among these that doesn't yet.
    pub(crate) fn is_more(&self, flags: &[bool]) -> bool {
        for v in 0..flags.len() {
            if flags[v] && !is_flagged(&self.flags, v) {
                return true;
            }
        }
        false
    }

    /// All groups are awake, for a search had one that wasn't: they get more time from now on.
    pub(crate) fn wake(&mut self)
        ensures { self.new.flags.items ≡ [] }
    {
        self.flags.clear();
        self.patience = self.patience.saturating_mul(2);
    }
}

fn note_all(last: &mut BTreeMap<u64, u64>, active: &[Group], search: u64) {
    for g in active {
        note_active(last, g.selector.var(), search);
    }
}

fn note_active(last: &mut BTreeMap<u64, u64>, selector: u64, search: u64) {
    if let Some(place) = last.get_mut(&selector) {
        *place = search;
    }
}

fn is_flagged(flags: &[bool], v: usize) -> bool {
    match flags.get(v) {
        Some(flag) => *flag,
        None => false,
    }
}

// The least number whose square is so large, from one on.
fn root_from(root: u64, square: u64) -> u64 {
    let mut root = root;
    for _ in root..square {
        if root.saturating_mul(root) >= square {
            return root;
        }
        root = root.saturating_add(1);
    }
    root
}
