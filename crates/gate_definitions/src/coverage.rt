//! How many rows of an existential's table are decided by its clauses, as far as their other
//! variables come before it.
//!
//! No contract speaks of these numbers: they tell when it is worth while to look for a table.

ghost use Rattle.std.specs.Prelude.{◌<◌, length};

use crate::tables::{MOST_ROWS, rows_of};
use dq_formula::Formula;
use dq_lits::{Lit, Memory};
use std::alloc::Global;

// A clause can only decide a bit of those of its existentials that see most, which tie: the leader
// of their dependency set, and how many of them aren't placed yet.
#[derive(Clone, Copy)]
struct Ties {
    leader: usize,
    count: usize,
}

// How often a table is looked for though fewer than twice as many rows are decided as before.
const MOST_TRIES: usize = 4;

/// For each existential, by place, the rows that are decided, each counted for each clause that
/// decides it, how many they were when a table was looked for last, and the tries that are left.
#[derive(Drop)]
pub(crate) struct Coverage {
    // For each existential, by place, that of one with the same dependency set.
    leaders: Vec<usize>,
    ties: Vec<Ties>,
    rows: Vec<usize>,
    tried: Vec<usize>,
    tries: Vec<usize>,
}

impl Coverage {
    /// No row is counted yet; existentials of the same leader have the same dependency set.
    pub(crate) fn none(alloc: Global, leaders: Vec<usize>) -> Coverage {
        Coverage {
            leaders,
            ties: Vec::new(alloc),
            rows: Vec::new(alloc),
            tried: Vec::new(alloc),
            tries: Vec::new(alloc),
        }
    }

    /// Counts the rows that are decided before any existential is placed.
    pub(crate) fn count_all(&mut self, alloc: Global, f: &Formula) -> Result<(), Memory> {
        let count = self.leaders.len();
        self.rows.resize(count, 0)?;
        self.tried.resize(count, 0)?;
        self.tries.resize(count, MOST_TRIES)?;
        self.put_ties(alloc, f)?;
        for number in 0..f.clauses() {
            self.count_last(f, number, &[]);
        }
        Ok(())
    }

    fn put_ties(&mut self, alloc: Global, f: &Formula) -> Result<(), Memory> {
        let sights = sights(alloc, f)?;
        for number in 0..f.clauses() {
            let ties = ties_of(f, f.clause(number), &self.leaders, &sights);
            self.ties.push(ties)?;
        }
        Ok(())
    }

    /// Notes that an existential of a clause was placed, and answers the one that is left, if all
    /// others are placed: the rows that the clause decides are counted for it.
    pub(crate) fn close(
        &mut self,
        f: &Formula,
        number: usize,
        place: usize,
        is_placed: &[bool],
    ) -> Option<usize> {
        if number >= self.ties.len() {
            return None;
        }
        let mut ties = self.ties[number];
        if self.leaders.get(place) != Some(&ties.leader) || ties.count == 0 {
            return None;
        }
        ties.count = ties.count - 1;
        self.ties[number] = ties;
        self.count_last(f, number, is_placed)
    }

    /// Whether a table is worth looking for: as many rows are decided as there are, and twice as
    /// many as when it was looked for before.
    pub(crate) fn is_due(&mut self, place: usize) -> bool {
        if place >= self.rows.len() || place >= self.tried.len() {
            return false;
        }
        let rows = self.rows[place];
        if rows < MOST_ROWS || rows < self.tried[place].saturating_mul(2) {
            return false;
        }
        self.tried[place] = rows;
        true
    }

    /// Whether a table may be worth looking for once nothing else is left to do, since more rows
    /// are decided than when it was looked for before; that is so only a few times.
    pub(crate) fn is_late(&mut self, place: usize) -> bool {
        if place >= self.rows.len() || place >= self.tried.len() || place >= self.tries.len() {
            return false;
        }
        let rows = self.rows[place];
        if rows < MOST_ROWS || rows <= self.tried[place] || self.tries[place] == 0 {
            return false;
        }
        self.tried[place] = rows;
        self.tries[place] = self.tries[place] - 1;
        true
    }

    // Counts the rows that a clause decides of its last existential that isn't placed.
    fn count_last(&mut self, f: &Formula, number: usize, is_placed: &[bool]) -> Option<usize> {
        let ties = *self.ties.get(number)?;
        if ties.count != 1 || number >= f.clauses() {
            return None;
        }
        let clause = f.clause(number);
        let place = self.last(f, clause, ties.leader, is_placed)?;
        let rows = self.rows.get_mut(place)?;
        *rows = rows.saturating_add(rows_of(clause.len().saturating_sub(1)));
        Some(place)
    }

    fn last(
        &self,
        f: &Formula,
        clause: &[Lit],
        leader: usize,
        is_placed: &[bool],
    ) -> Option<usize> {
        for l in clause {
            if let Some(place) = f.existential_place(l.var()) {
                let is_open = is_placed.get(place) != Some(&true);
                if is_open && self.leaders.get(place) == Some(&leader) {
                    return Some(place);
                }
            }
        }
        None
    }
}

// How many universals each existential sees, by its place.
fn sights(alloc: Global, f: &Formula) -> Result<Vec<usize>, Memory> {
    let mut sights = Vec::new(alloc);
    for place in 0..f.existentials().len() {
        sights.push(sight(f, place))?;
    }
    Ok(sights)
}

fn sight(f: &Formula, place: usize) -> usize
    requires { place < length f.now.existentials }
{
    f.every_formula_is_lawful();
    f.seen(f.existentials()[place]).len()
}

fn ties_of(f: &Formula, clause: &[Lit], leaders: &[usize], sights: &[usize]) -> Ties {
    let mut most = 0usize;
    let mut ties = Ties {
        leader: 0,
        count: 0,
    };
    for l in clause {
        if let Some(place) = f.existential_place(l.var()) {
            let (leader, sight) = (number_at(leaders, place), number_at(sights, place));
            if ties.count == 0 || sight > most {
                most = sight;
                ties = Ties { leader, count: 1 };
            } else if leader == ties.leader {
                ties.count = ties.count.saturating_add(1);
            }
        }
    }
    ties
}

fn number_at(numbers: &[usize], place: usize) -> usize {
    match numbers.get(place) {
        Some(number) => *number,
        None => 0,
    }
}
