//! Names of pairs of a row and an existential, given when the pairs first occur.
//!
//! Names are numbers from 1 on. A dependency set and a row get as many as there are existentials
//! with the set, one after another in order of declaration; rows that agree on the set get them
//! once. So names are dense in what occurs, and the existentials of one set stand side by side.
//!
//! Numbers are consecutive for the existentials of a dependency set under rows that agree on it, so
//! that they are dense in what occurs, and nothing is learnt before the first line.

ghost use Rattle.std.specs.Prelude.{[], ◌≡◌, ◌<◌, ◌≤◌, ◌^◌, replicate, length, Some, IfOk, OnOk, IsSome};
ghost use Rattle.refutation_checker.specs.Rows.{row_of};
ghost use Rattle.refutation_checker.specs.Bindings.{set_at};
ghost use Rattle.refutation_checker.specs.Namings.{base_of, Extends};
ghost use Rattle.refutation_checker.specs.PairNames.{frame, names_in, IsFrame, AreNames};

use crate::bindings::Bindings;
use crate::known_bases::{BLOCK_ROWS, KnownBases};
use crate::row_trees::RowTree;
use dq_formula::Formula;
use dq_lits::{Memory, Row};
use std::alloc::Global;

// No name is given behind this one, so that all stand for variables of literals.
const LAST_NAME: u64 = 1 << 60;

/// A formula and some rows.
#[derive(Clone, Copy)]
pub(crate) struct Expansion<'a> {
    pub formula: &'a Formula,
    pub rows: &'a [Row],
    pub bindings: &'a Bindings,
}

/// The names that were given.
#[derive(Drop)]
pub(crate) struct PairNames {
    // By dependency set, the name of its first existential's pair for each row.
    trees: Vec<RowTree>,
    known: KnownBases,
    last: LastBase,
    next: u64,
}

/// What was asked for last: the base of a set under a row. None was where there is no such set.
#[derive(Clone, Copy)]
pub(crate) struct LastBase {
    set: usize,
    row: usize,
    base: u64,
}

impl PairNames {
    /// No pair has a name. It takes memory for the dependency sets.
    pub(crate) fn new(alloc: Global, e: &Expansion) -> Result<PairNames, Memory>
        requires { IsFrame (frame e.now) }
        ensures { IfOk result (λ names. AreNames (frame e.now) names) }
    {
        let count = e.bindings.sets.len();
        let trees = no_trees(alloc, count)?;
        let known = KnownBases::new(alloc);
        let last = LastBase {
            set: count,
            row: 0,
            base: 0,
        };
        Ok(PairNames {
            trees,
            known,
            last,
            next: 1,
        })
    }

    /// How many names were given.
    pub(crate) fn count(&self) -> usize {
        self.next as usize
    }

    /// The name of the pair of a set's first existential and the row at `k`; others with the set
    /// follow. Where it has none it gets one. A line's literals often have one set and one row.
    #[inline(always)]
    pub(crate) fn base(&mut self, e: &Expansion, set: usize, k: usize) -> Result<u64, Memory>
        requires frame { IsFrame (frame e.now) }
        requires names { AreNames (frame e.now) self.old }
        requires set { set < length (frame e.now).sets }
        requires row { k < length (frame e.now).rows }
        ensures names { AreNames (frame e.now) self.new }
        ensures extends { Extends (frame e.now) (names_in self.old) (names_in self.new) }
        ensures base { IfOk result (λ base. base_of (frame e.now) (names_in self.new) set
            (row_of (frame e.now).rows k) ≡ Some base) }
    {
        if self.last.set == set && self.last.row == k {
            return Ok(self.last.base);
        }
        let base = self.look_up(e, set, k)?;
        self.last = LastBase { set, row: k, base };
        Ok(base)
    }

    // The same, by the names that are kept.
    #[inline(always)]
    fn look_up(&mut self, e: &Expansion, set: usize, k: usize) -> Result<u64, Memory>
        requires frame { IsFrame (frame e.now) }
        requires names { AreNames (frame e.now) self.old }
        requires set { set < length (frame e.now).sets }
        requires row { k < length (frame e.now).rows }
        ensures names { AreNames (frame e.now) self.new }
        ensures extends { Extends (frame e.now) (names_in self.old) (names_in self.new) }
        ensures base { IfOk result (λ base. base_of (frame e.now) (names_in self.new) set
            (row_of (frame e.now).rows k) ≡ Some base) }
    {
        let blocks = (e.rows.len() / BLOCK_ROWS + 1) as u64;
        let number = set as u64 * blocks + (k / BLOCK_ROWS) as u64;
        let kept = self.known.get(number, k % BLOCK_ROWS);
        if kept != 0 {
            return Ok(kept);
        }
        let base = self.name(e, set, k)?;
        self.known.put(number, k % BLOCK_ROWS, base)?;
        Ok(base)
    }

    // The same, by the set's tree.
    #[inline(never)]
    fn name(&mut self, e: &Expansion, set: usize, k: usize) -> Result<u64, Memory>
        requires frame { IsFrame (frame e.now) }
        requires names { AreNames (frame e.now) self.old }
        requires set { set < length (frame e.now).sets }
        requires row { k < length (frame e.now).rows }
        ensures names { AreNames (frame e.now) self.new }
        ensures extends { Extends (frame e.now) (names_in self.old) (names_in self.new) }
        ensures base { IfOk result (λ base. base_of (frame e.now) (names_in self.new) set
            (row_of (frame e.now).rows k) ≡ Some base) }
    {
        if self.next > LAST_NAME {
            return Err(Memory);
        }
        let named = e.bindings.sets[set];
        let base = self.trees[set].number_of(e.formula, e.rows, named.leader, k, self.next)?;
        if base == self.next {
            self.next += named.size;
        }
        Ok(base)
    }
}

fn no_trees(alloc: Global, count: usize) -> Result<Vec<RowTree>, Memory>
    ensures { IfOk result (λ trees. trees.items ≡ replicate count []) }
{
    let mut trees = Vec::new(alloc);
    for _ in 0..count {
        trees.push(RowTree::new(alloc))?;
    }
    Ok(trees)
}
