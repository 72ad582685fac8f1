//! Ranks by which the gates that the clauses state can be read: behind a gate's inputs its output.
//!
//! What could be a gate is collected, and outputs are placed as soon as their inputs are; where
//! nothing is ready the first existential by declaration, one that could be turned into an input
//! before the output of a gate that can't. An existential whose clauses decide as many rows as a
//! table has is looked at for one, again when they decide twice as many.

use crate::coverage::Coverage;
use crate::index::{Index, add_up};
use crate::outputs::output_at;
use crate::trees::find_tree;
use crate::wires::{Wired, Wires};
use dq_formula::Formula;
use dq_lits::Memory;
use std::alloc::Global;

/// The existentials that are placed one after another, by their places in order of declaration.
#[derive(Drop)]
pub(crate) struct Placing<'f> {
    alloc: Global,
    f: &'f Formula,
    index: &'f Index,
    gates: Vec<Wired>,
    // The inputs that tie with their gates' outputs, in order, each with the gate; and where those
    // of each existential end.
    uses: Vec<(usize, usize)>,
    ends: Vec<usize>,
    is_fixed: Vec<bool>,
    coverage: Coverage,
    is_placed: Vec<bool>,
    order: Vec<usize>,
    // Of each existential that is placed, its number in that order; the greatest number of others.
    pub(crate) ranks: Vec<usize>,
    // Existentials that may have a table since more of their clauses' variables are placed.
    late: Vec<usize>,
    // All before it are placed or fixed, and all before the other one are placed.
    next: usize,
    next_fixed: usize,
}

impl<'f> Placing<'f> {
    /// None is placed yet.
    pub(crate) fn new(
        alloc: Global,
        f: &'f Formula,
        index: &'f Index,
        wires: Wires,
    ) -> Placing<'f> {
        Placing {
            alloc,
            f,
            index,
            gates: wires.gates,
            uses: wires.uses,
            ends: Vec::new(alloc),
            is_fixed: wires.is_fixed,
            coverage: Coverage::none(alloc, wires.leaders),
            is_placed: Vec::new(alloc),
            order: Vec::new(alloc),
            ranks: Vec::new(alloc),
            late: Vec::new(alloc),
            next: 0,
            next_fixed: 0,
        }
    }

    /// Places all existentials: the output of a gate as soon as all its inputs are placed, or it has
    /// a table over what is placed, and where no gate has that, the first one by declaration that
    /// isn't fixed, else the first one. The rank of each is its number in that order.
    pub(crate) fn place_all(&mut self) -> Result<(), Memory> {
        self.prepare()?;
        self.place_ready()?;
        self.place_tables()?;
        for at in 0..self.is_placed.len() {
            self.place_one(at)?;
            self.release(at)?;
        }
        Ok(())
    }

    // Places one more, where so many have been placed before.
    fn place_one(&mut self, at: usize) -> Result<(), Memory> {
        if at >= self.order.len() {
            self.place_late()?;
        }
        if at >= self.order.len() {
            self.place_next()?;
        }
        Ok(())
    }

    fn prepare(&mut self) -> Result<(), Memory> {
        let count = self.is_fixed.len();
        self.uses.sort_unstable();
        self.ends.resize(count, 0)?;
        count_all(&self.uses, &mut self.ends);
        add_up(&mut self.ends);
        self.is_placed.resize(count, false)?;
        self.ranks.resize(count, usize::MAX)?;
        self.coverage.count_all(self.alloc, self.f)
    }

    // Places the outputs of gates all of whose inputs come before them whichever way ties go.
    fn place_ready(&mut self) -> Result<(), Memory> {
        for number in 0..self.gates.len() {
            if let Some(output) = self.ready_output(number) {
                self.place(output)?;
            }
        }
        Ok(())
    }

    fn ready_output(&self, number: usize) -> Option<usize> {
        let gate = self.gates.get(number)?;
        if gate.missing == 0 {
            Some(gate.output)
        } else {
            None
        }
    }

    fn place_next(&mut self) -> Result<(), Memory> {
        if let Some(place) = self.first_open(self.next, false) {
            self.next = place;
            return self.place(place);
        }
        self.next = self.is_placed.len();
        if let Some(place) = self.first_open(self.next_fixed, true) {
            self.next_fixed = place;
            return self.place(place);
        }
        Ok(())
    }

    // The first existential from a place on that isn't placed; the fixed ones count where they are
    // asked for.
    fn first_open(&self, from: usize, with_fixed: bool) -> Option<usize> {
        for place in from..self.is_placed.len() {
            if !self.is_placed[place] && (with_fixed || !self.is_fixed_at(place)) {
                return Some(place);
            }
        }
        None
    }

    fn is_fixed_at(&self, place: usize) -> bool {
        place < self.is_fixed.len() && self.is_fixed[place]
    }

    fn place(&mut self, place: usize) -> Result<(), Memory> {
        if place < self.is_placed.len() && !self.is_placed[place] {
            if place < self.ranks.len() {
                self.ranks[place] = self.order.len();
            }
            self.order.push(place)?;
            self.is_placed[place] = true;
        }
        Ok(())
    }

    // Places the outputs of gates of which the existential was the last input to be placed.
    fn release(&mut self, at: usize) -> Result<(), Memory> {
        let Some(place) = self.order.get(at) else {
            return Ok(());
        };
        let place = *place;
        let (start, end) = self.range(place);
        for number in start..end {
            self.count_down(number)?;
        }
        self.close_all(place)
    }

    // Places the existentials whose tables are whole with one that was placed.
    fn close_all(&mut self, place: usize) -> Result<(), Memory> {
        let f = self.f;
        if place >= f.existentials().len() {
            return Ok(());
        }
        let index = self.index;
        for number in index.on(f, f.existentials()[place]) {
            let left = self
                .coverage
                .close(f, *number as usize, place, &self.is_placed);
            if let Some(left) = left {
                self.place_due(left)?;
            }
        }
        Ok(())
    }

    // Places the existentials that have a table over what comes before them whichever way ties go.
    fn place_tables(&mut self) -> Result<(), Memory> {
        for place in 0..self.is_placed.len() {
            self.place_due(place)?;
        }
        Ok(())
    }

    // Places an existential if many more rows of it are decided now, and it has a table.
    fn place_due(&mut self, place: usize) -> Result<(), Memory> {
        if self.is_placed.get(place) != Some(&false) {
            return Ok(());
        }
        if self.coverage.is_due(place) {
            return self.place_table(place);
        }
        self.late.push(place)?;
        Ok(())
    }

    // Places the existentials that have a table by now.
    fn place_late(&mut self) -> Result<(), Memory> {
        for _ in 0..self.late.len() {
            if let Some(place) = self.late.pop() {
                if self.is_placed.get(place) == Some(&false) && self.coverage.is_late(place) {
                    self.place_table(place)?;
                }
            }
        }
        Ok(())
    }

    // Places an existential if it has a table over those that are placed.
    fn place_table(&mut self, place: usize) -> Result<(), Memory> {
        if place >= self.ranks.len() || place >= self.f.existentials().len() {
            return Ok(());
        }
        self.ranks[place] = self.order.len();
        let output = output_at(self.f, &self.ranks, self.index, place);
        if find_tree(self.alloc, &output)?.is_some() {
            return self.place(place);
        }
        self.ranks[place] = usize::MAX;
        Ok(())
    }

    fn count_down(&mut self, number: usize) -> Result<(), Memory> {
        if number >= self.uses.len() {
            return Ok(());
        }
        let (_, used) = self.uses[number];
        if used >= self.gates.len() {
            return Ok(());
        }
        let mut gate = self.gates[used];
        gate.missing = gate.missing.saturating_sub(1);
        self.gates[used] = gate;
        if gate.missing == 0 {
            self.place(gate.output)?;
        }
        Ok(())
    }

    // Where the uses of an existential stand.
    fn range(&self, place: usize) -> (usize, usize) {
        let start = if place == 0 { 0 } else { self.end(place - 1) };
        (start, self.end(place))
    }

    fn end(&self, place: usize) -> usize {
        match self.ends.get(place) {
            Some(end) => *end,
            None => self.uses.len(),
        }
    }
}

// Counts how many gates use each existential.
fn count_all(uses: &[(usize, usize)], counts: &mut [usize]) {
    for (input, _) in uses {
        if *input < counts.len() {
            counts[*input] = counts[*input].saturating_add(1);
        }
    }
}
