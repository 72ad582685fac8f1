//! Which arbiters a search for a model decides first. No contract speaks of it: every model of the
//! instances will do.
//!
//! Most formulas want a model near the last one: the arbiters are decided by activity, each with the
//! value that it had, so that candidates change little. Where boxes stand in a chain between gates,
//! that mends some box at each row, and a chain of 8 takes 269 rounds; without it the solver makes
//! the newest open clause true, which mends the boxes in the order of the clauses: by turns 13
//! rounds, and 12 for a chain of 32. So both take turns at first, each twice as many rounds long as
//! the one before, where the newest row looks like that of boxes between gates: most of its arbiters
//! are new, as those of gates are, which see all universals, and some aren't. Where few boxes stand
//! among many gates, turns go on: chains of 16, 24, 40 or 56 aren't mended by the first two of the
//! other kind, and by a later one in 49 to 186 rounds. Elsewhere later ones never mended any.

use crate::tables::Table;
use dq_lits::Memory;

// The first four turns have so many rounds.
const FIRST_TURNS: usize = 14;

// So many new arbiters for each old one are many.
const MANY: usize = 8;

impl Table {
    // The arbiters that are to be decided before all others; none, where the newest open clause is to
    // be made true first.
    pub(crate) fn focus(&self) -> Result<Vec<u64>, Memory> {
        if self.is_other_turn() {
            return Ok(Vec::new(self.alloc));
        }
        self.newest_first()
    }

    // The arbiters, those of the newest row first: what an old one has stays more likely, so that
    // candidates change little.
    fn newest_first(&self) -> Result<Vec<u64>, Memory> {
        let mut variables = Vec::new(self.alloc);
        for place in (0..self.pairs.len()).rev() {
            variables.extend_from_slice(self.pairs.get(place))?;
        }
        Ok(variables)
    }

    // Whether it is the other one's turn: at first where most arbiters of the newest row are new, and
    // some aren't, or there is no row before it; later on where few aren't.
    fn is_other_turn(&self) -> bool {
        let rows = self.pairs.len();
        if rows < 2 {
            return rows == 1;
        }
        let all = self.pairs.get(rows - 1);
        let new = count_above(all, greatest(self.pairs.get(rows - 2)));
        let old = all.len().saturating_sub(new);
        let times = if rows <= FIRST_TURNS { 1 } else { MANY };
        is_in_other_turn(rows) && old > 0 && new > old.saturating_mul(times)
    }
}

// Whether so many rows are in a turn of the other kind: turns are of 1, 2, 4, 8 .. rounds, so that
// the turn's number is that of the highest bit of the next row's number.
fn is_in_other_turn(rows: usize) -> bool {
    rows.saturating_add(1).leading_zeros() % 2 == 0
}

// The greatest of some variables, or 0.
fn greatest(variables: &[u64]) -> u64 {
    let mut most = 0;
    for v in variables {
        most = most.max(*v);
    }
    most
}

// How many variables are greater than this one: later ones have greater numbers.
fn count_above(variables: &[u64], least: u64) -> usize {
    variables.iter().filter(|v| **v > least).count()
}
