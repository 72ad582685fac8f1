//! Lines that are written one after the other.

ghost use Rattle.std.specs.Prelude.{◌≡◌, ◌+◌, ◌≤◌, ◌<◌, ◌^◌, false, All, Contains, map, take, length, IfOk, OnOk};
ghost use Rattle.std.specs.List.Sorted.{IsStrictlyIncreasing};
ghost use Rattle.dq_lits.specs.Derivation.{is_tautology};
ghost use Rattle.cert_export.specs.Lines.{derived_ids, line_number, line_steps};
ghost use Rattle.cert_export.specs.Names.{renaming};
ghost use Rattle.cert_export.specs.Written.{place_in, with_given, with_line, no_lines, IsWritten, CanBeWritten};

use crate::bases::Ground;
use crate::lines::{needed, numbers_at};
use crate::new_names::Names;
use cert_text::{Step, StepList};
use dq_lits::{Lit, Memory};
use flat_lists::FlatLists;
use hint_log::Log;
use rup_core::Marks;
use std::alloc::Global;
use std::marker::Model;

/// Lines, and by their places the clauses and the new ids of all ids so far.
#[derive(Drop)]
pub(crate) struct Written {
    clauses: FlatLists<Lit>,
    numbers: Vec<u64>,
    steps: StepList,
}

impl Model for Written {
    ghost use Rattle.cert_export.specs.Written.{WrittenLines};

    ghost Value = { WrittenLines };

    ghost view = { λ w.
        record { clauses = w.clauses; numbers = w.numbers.items; steps = w.steps } };
}

/// What lines are written from: some ids of a log, names for the variables of their clauses, and
/// the base behind whose last id the lines are numbered.
#[derive(Drop)]
pub struct LineSource<'l, 'i, 'n, 'b, B> {
    pub log: &'l Log,
    pub ids: &'i [u64],
    pub names: &'n Names,
    pub base: &'b B,
    /// The last id of the base.
    pub last: u64,
}

/// The lines of the derived clauses among the source's ids. It takes time for the clauses that are
/// reached and their hints, and for each hint the logarithm of the ids; memory for these clauses.
pub fn write_lines<B: Ground>(alloc: Global, source: &LineSource<B>) -> Result<StepList, Memory>
    requires can { CanBeWritten (renaming source.now.names.now) (B.Knows source.now.base.now)
        source.now.log.now.entries source.now.ids.now }
    requires few { source.now.last < 2 ^ 63 }
    ensures lines { IfOk result (λ steps. steps
        ≡ line_steps (renaming source.now.names.now) (B.ids source.now.base.now)
        source.now.log.now.entries
        (line_number source.now.last (derived_ids source.now.log.now.entries source.now.ids.now))
        (derived_ids source.now.log.now.entries source.now.ids.now)) }
    ensures from_one { IfOk result (λ steps. All (λ step. 1 ≤ step.id) steps) }
{
    let mut written = Written::new(alloc);
    let mut marks = Marks::new(alloc, source.ids.len())?;
    for place in 0..source.ids.len() {
        written.add(alloc, &mut marks, source, place)?;
    }
    Ok(written.into_steps())
}

impl Written {
    fn new(alloc: Global) -> Written
        ensures { result ≡ no_lines }
    {
        Written {
            clauses: FlatLists::new(alloc),
            numbers: Vec::new(alloc),
            steps: StepList::new(alloc),
        }
    }

    fn into_steps(self) -> StepList
        ensures { result ≡ self.steps }
    {
        self.steps
    }

    // Writes what stands at the next place.
    fn add<B: Ground>(
        &mut self,
        alloc: Global,
        marks: &mut Marks,
        source: &LineSource<B>,
        place: usize,
    ) -> Result<(), Memory>
        requires can { CanBeWritten (renaming source.now.names.now) (B.Knows source.now.base.now)
            source.now.log.now.entries source.now.ids.now }
        requires few { source.now.last < 2 ^ 63 }
        requires place { place < length source.now.ids.now }
        requires so_far { IsWritten (renaming source.now.names.now) (B.ids source.now.base.now)
            source.now.log.now.entries
            (line_number source.now.last
            (derived_ids source.now.log.now.entries source.now.ids.now))
            (take place source.now.ids.now) self.old }
        ensures { OnOk result (IsWritten (renaming source.now.names.now) (B.ids source.now.base.now)
            source.now.log.now.entries
            (line_number source.now.last
            (derived_ids source.now.log.now.entries source.now.ids.now))
            (take (place + 1) source.now.ids.now) self.new) }
    {
        let log = source.log;
        let id = source.ids[place];
        let clause = source.names.clause(alloc, log.clause(id))?;
        match log.origin(id) {
            Some(origin) => self.add_given(&clause, source.base.id(origin)),
            None => {
                let line = Step {
                    id: source.last + self.steps.len() as u64 + 1,
                    lits: &clause,
                    hints: log.hints(id),
                };
                self.add_line(alloc, marks, source.ids, line)
            }
        }
    }

    // Notes a clause of the base.
    fn add_given(&mut self, clause: &[Lit], number: u64) -> Result<(), Memory>
        ensures { OnOk result (self.new ≡ with_given self.old clause.now number) }
    {
        self.clauses.push(clause)?;
        self.numbers.push(number)?;
        Ok(())
    }

    // Writes a line whose hints are among these ids, with the hints that it needs.
    fn add_line(
        &mut self,
        alloc: Global,
        marks: &mut Marks,
        ids: &[u64],
        line: Step,
    ) -> Result<(), Memory>
        requires ascending { IsStrictlyIncreasing ids.now }
        requires there { All (Contains ids.now) line.hints.now }
        requires earlier { All (λ place. place < length self.old.numbers)
            (map (place_in ids.now) line.hints.now) }
        requires consistent { is_tautology line.lits.now ≡ false }
        ensures { OnOk result (self.new
            ≡ with_line self.old ids.now line.entry.lits.now line.entry.hints.now line.entry.id) }
    {
        let places = needed(alloc, marks, &self.clauses, ids, line)?;
        let hints = numbers_at(alloc, &self.numbers, &places)?;
        self.steps.push(Step {
            id: line.id,
            lits: line.lits,
            hints: &hints,
        })?;
        self.clauses.push(line.lits)?;
        self.numbers.push(line.id)?;
        Ok(())
    }
}
