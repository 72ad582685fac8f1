//! Decision trees over the inputs of a table (C. E. Shannon, "The synthesis of two-terminal
//! switching circuits", 1949).
//!
//! No contract speaks of what a tree says: whoever takes a leaf's clause reads it.
//!
//! A tree tests what decides most of the rows that are left: with all tests in one order hashing
//! finds no more to share, and the check learns a quarter more clauses where clauses leave inputs
//! out.

use crate::outputs::Output;
use crate::tables::{Line, MOST_INPUTS, Table, bit, may_have_table, rows_of};
use dq_lits::{Lit, Memory};
use std::alloc::Global;

// Each line is looked at so many times at most, counted over all of them: a tree of more work isn't
// made. A table with a line for each row of ten inputs takes eleven looks a line.
const MOST_LOOKS: usize = 64;

/// What is done at a place of a tree: the clause of a number decides the bit, or an input is tested.
#[derive(Clone, Copy)]
pub(crate) enum Branch {
    Leaf(u32),
    Test(Test),
}

/// A literal on an input, and where the branches stand for when it is true and when not.
#[derive(Clone, Copy)]
pub(crate) struct Test {
    pub(crate) input: Lit,
    pub(crate) yes: usize,
    pub(crate) no: usize,
}

// The lines that are left at a branch by the tests above it, and the inputs that these are on.
#[derive(Drop)]
struct OpenBranch {
    at: usize,
    tested: u64,
    lines: Vec<Line>,
}

#[derive(Drop)]
struct Growth<'t> {
    alloc: Global,
    table: &'t Table,
    branches: Vec<Branch>,
    parts: Vec<OpenBranch>,
    looks: usize,
}

/// The tree of the table that an output's clauses make, if they decide each row. Its root stands
/// first.
pub(crate) fn find_tree(alloc: Global, output: &Output) -> Result<Option<Vec<Branch>>, Memory> {
    if !may_have_table(output) {
        return Ok(None);
    }
    let table = Table::new(alloc, output)?;
    if table.may_be_whole() {
        grow(alloc, &table)
    } else {
        Ok(None)
    }
}

fn grow(alloc: Global, table: &Table) -> Result<Option<Vec<Branch>>, Memory> {
    let mut growth = Growth {
        alloc,
        table,
        branches: Vec::new(alloc),
        parts: Vec::new(alloc),
        looks: table.lines.len().saturating_mul(MOST_LOOKS),
    };
    if growth.is_whole()? {
        Ok(Some(growth.branches))
    } else {
        Ok(None)
    }
}

impl<'t> Growth<'t> {
    // Makes all branches, if the lines decide each row.
    fn is_whole(&mut self) -> Result<bool, Memory> {
        let lines = self.table.lines.to_vec(self.alloc)?;
        self.put(0, lines)?;
        for _ in 0..u64::MAX {
            let Some(part) = self.parts.pop() else {
                return Ok(true);
            };
            if !self.visit(&part)? {
                return Ok(false);
            }
        }
        Ok(false)
    }

    // A branch that is made later.
    fn put(&mut self, tested: u64, lines: Vec<Line>) -> Result<usize, Memory> {
        let at = self.branches.len();
        self.branches.push(Branch::Leaf(0))?;
        self.parts.push(OpenBranch { at, tested, lines })?;
        Ok(at)
    }

    // Makes a branch. Where no line is left, or no look, there is no tree.
    fn visit(&mut self, part: &OpenBranch) -> Result<bool, Memory> {
        if part.lines.is_empty() || part.lines.len() > self.looks {
            return Ok(false);
        }
        self.looks = self.looks - part.lines.len();
        let branch = match decided(part) {
            Some(number) => Branch::Leaf(number),
            None => self.test(part)?,
        };
        if part.at < self.branches.len() {
            self.branches[part.at] = branch;
        }
        Ok(true)
    }

    fn test(&mut self, part: &OpenBranch) -> Result<Branch, Memory> {
        let place = heaviest(part);
        let Some(input) = self.table.inputs.get(place) else {
            return Ok(Branch::Leaf(0));
        };
        let input = *input;
        let yes = self.put_where(part, place, true)?;
        let no = self.put_where(part, place, false)?;
        Ok(Branch::Test(Test { input, yes, no }))
    }

    // The branch for a value of an input, made later.
    fn put_where(&mut self, part: &OpenBranch, place: usize, value: bool) -> Result<usize, Memory> {
        let lines = lines_where(self.alloc, &part.lines, place, value)?;
        self.put(part.tested | bit(place), lines)
    }
}

// The clause of a line that reads no input that isn't tested yet.
fn decided(part: &OpenBranch) -> Option<u32> {
    for line in &part.lines {
        if line.read & !part.tested == 0 {
            return Some(line.number);
        }
    }
    None
}

// The input whose lines decide most rows of those that are left, each line counted alone; of equal
// ones the first.
fn heaviest(part: &OpenBranch) -> usize {
    let mut best = 0usize;
    let mut most = 0usize;
    for place in 0..MOST_INPUTS {
        let weight = weight(part, place);
        if weight > most {
            best = place;
            most = weight;
        }
    }
    best
}

fn weight(part: &OpenBranch, place: usize) -> usize {
    let mut weight = 0usize;
    for line in &part.lines {
        let open = line.read & !part.tested;
        if open & bit(place) != 0 {
            weight = weight.saturating_add(rows_of(open.count_ones() as usize));
        }
    }
    weight
}

// The lines that have no true literal where an input has this value.
fn lines_where(
    alloc: Global,
    lines: &[Line],
    place: usize,
    value: bool,
) -> Result<Vec<Line>, Memory> {
    let mut left = Vec::new(alloc);
    for line in lines {
        let is_negated = line.negated & bit(place) != 0;
        if line.read & bit(place) == 0 || is_negated == value {
            left.push(*line)?;
        }
    }
    Ok(left)
}
