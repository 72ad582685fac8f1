//! The instances of clauses that were added, in their frames' groups, and searches over them.
//!
//! `solve_with` says what its values and its answer are, and not what they show of a formula: a
//! database's formula is not its table's. A search costs a look at each live clause that was added and
//! at each open frame, and an instance for each clause and row that lacks one.

ghost use Rattle.std.specs.Prelude.{◌≡◌, ◌≤◌, ◌<◌, ◌+◌, ◌++◌, [], ℕ, List, length, slice_get, slice_index_or, Ok, IfOk, OnOk, IsErrOf, Some, None};
ghost use Rattle.std.specs.List.{cons_option};
ghost use Rattle.dq_lits.specs.Formula.{Dqbf};
ghost use Rattle.dq_lits.specs.Expansion.{IsExpansionUnsatisfiable};
ghost use Rattle.hint_log.specs.Entries.{Entry};
ghost use Rattle.hint_log.specs.Growth.{Grew};
ghost use Rattle.hint_log.specs.ProductiveLog.{fault_groups, fault_room};
ghost use Rattle.log_laws.specs.Engines.{instances};
ghost use Rattle.log_laws.specs.Sessions.{IsAddedLive};
ghost use Rattle.oracle.specs.Limits.{IsAtLimit};
ghost use Rattle.expansion.specs.Searches.{switches};
ghost use Rattle.expansion.specs.Silence.{is_silent};
ghost use Rattle.expansion.specs.Table.{PointState, ArePoints, point_bits};
ghost use Rattle.dq_session.specs.Databases.{now_of, frame_at, given_at, HasGroup, IsFullDatabase};
ghost use Rattle.dq_session.specs.Changes.{open_groups};
ghost use Rattle.dq_session.specs.Giving.{IsGiving, IsWhole};
ghost use Rattle.dq_session.specs.Shown.{IsRefutedLive};
ghost use Rattle.oracle.specs.declared.groups.Group.{Group};

use crate::databases::ClauseDatabase;
use crate::live::OpenFrame;
use dq_lits::Memory;
use dq_lits::laws::derived_line_is_implied;
use expansion::{Exp, NumberedClause};
use hint_log::{Log, Stop};
use oracle::{Group, Oracle};

impl<'f> ClauseDatabase<'f> {
    // Gives each live clause that was added its instances under the rows that it lacks.
    pub(crate) fn give_live<O: Oracle>(
        &mut self,
        oracle: &mut O,
        log: &mut Log,
    ) -> Result<(), Memory>
        requires fit { O.Fits oracle.old log.old }
        requires database { IsFullDatabase self.old log.old.entries }
        requires few { length (fault_groups log.old.entries) ≤ fault_room log.old.entries }
        ensures fit { O.Fits oracle.new log.new }
        ensures giving { IsGiving self.old log.old self.new log.new }
        ensures whole { OnOk result (IsWhole self.new) }
    {
        for at in self.file.clauses()..self.live.len() {
            let place = self.live[at].clause as usize - 1 - self.file.clauses();
            self.give_clause(oracle, place, log)?;
        }
        Ok(())
    }

    // Gives the clause at a place of those that were added its instances under the rows that it
    // lacks.
    fn give_clause<O: Oracle>(
        &mut self,
        oracle: &mut O,
        place: usize,
        log: &mut Log,
    ) -> Result<(), Memory>
        requires fit { O.Fits oracle.old log.old }
        requires place { place < length self.old.added }
        requires database { IsFullDatabase self.old log.old.entries }
        requires few { length (fault_groups log.old.entries) ≤ fault_room log.old.entries }
        ensures fit { O.Fits oracle.new log.new }
        ensures giving { IsGiving self.old log.old self.new log.new }
        ensures done { OnOk result (given_at self.new place ≡ length self.new.table.rows) }
    {
        let rows = self.table.rows();
        let done = self.given[place];
        if done == rows {
            return Ok(());
        }
        let frame = self.frames[place];
        self.make_group(oracle, frame, log)?;
        for k in done..rows {
            self.give_under(oracle, place, k + 1, log)?;
        }
        Ok(())
    }

    // Makes a frame's group, where it has none.
    fn make_group<O: Oracle>(
        &mut self,
        oracle: &mut O,
        frame: u64,
        log: &mut Log,
    ) -> Result<(), Memory>
        requires fit { O.Fits oracle.old log.old }
        requires from_one { 1 ≤ frame }
        requires frame { frame < length self.old.groups }
        requires database { IsFullDatabase self.old log.old.entries }
        requires few { length (fault_groups log.old.entries) ≤ fault_room log.old.entries }
        ensures fit { O.Fits oracle.new log.new }
        ensures giving { IsGiving self.old log.old self.new log.new }
        ensures given { self.new.given ≡ self.old.given }
        ensures group { OnOk result ((g : Group) × HasGroup self.new frame g) }
    {
        let place = frame as usize;
        if self.groups[place].is_some() {
            return Ok(());
        }
        let who = oracle.tenant()?;
        let group = oracle.group(&who, log)?;
        self.groups[place] = Some(group);
        Ok(())
    }

    // Gives an added clause its instance under the next row.
    fn give_under<O: Oracle>(
        &mut self,
        oracle: &mut O,
        place: usize,
        k: u64,
        log: &mut Log,
    ) -> Result<(), Memory>
        requires fit { O.Fits oracle.old log.old }
        requires place { place < length self.old.added }
        requires next { k ≡ given_at self.old place + 1 }
        requires last { k ≤ length self.old.table.rows }
        requires group { (g : Group) × HasGroup self.old (frame_at self.old place) g }
        requires database { IsFullDatabase self.old log.old.entries }
        requires few { length (fault_groups log.old.entries) ≤ fault_room log.old.entries }
        ensures fit { O.Fits oracle.new log.new }
        ensures giving { IsGiving self.old log.old self.new log.new }
        ensures given { OnOk result (given_at self.new place ≡ k) }
    {
        let frame = self.frames[place] as usize;
        let Some(group) = self.groups[frame] else {
            unreachable!();
        };
        let clause = NumberedClause {
            number: (self.file.clauses() + place) as u64 + 1,
            literals: self.added.get(place),
        };
        self.table.give(oracle, &group, self.file, &clause, k, log)?;
        self.given[place] = k;
        Ok(())
    }

    // Searches for a model of the instances of all live clauses, where these were given.
    pub(crate) fn search<O: Oracle>(&mut self, oracle: &mut O, log: &mut Log) -> Result<Exp, Stop>
        requires fit { O.Fits oracle.old log.old }
        requires database { IsFullDatabase self.old log.old.entries }
        requires whole { IsWhole self.old }
        ensures fit { O.Fits oracle.new log.new }
        ensures same { self.new ≡ self.old }
        ensures grew { (all : Dqbf) (groups : List ℕ) (first : List Entry)
            → Grew (IsAddedLive all instances groups (is_silent result) first) log.old log.new }
        ensures database { IsFullDatabase self.new log.new.entries }
        ensures point_variables { (points : PointState) → result ≡ Ok (Exp.Model points)
            → points.variables ≡ self.old.table.existentials }
        ensures point_rows { (points : PointState) → result ≡ Ok (Exp.Model points)
            → length points.rows ≡ length self.old.table.rows }
        ensures model { (points : PointState) → result ≡ Ok (Exp.Model points)
            → ArePoints (now_of self.old) self.old.table.rows (point_bits points) }
        ensures refuted { (id : ℕ) → result ≡ Ok (Exp.Refuted id)
            → IsExpansionUnsatisfiable (now_of self.old) self.old.table.rows }
        ensures shown { (id : ℕ) → result ≡ Ok (Exp.Refuted id)
            → IsRefutedLive self.old log.new.entries id }
        ensures limit { IsErrOf result Stop.Limit
            → IsAtLimit log.new (switches self.old.table (open_groups self.old)) }
    {
        derived_line_is_implied();
        let groups = self.open_groups()?;
        self.table.solve_with(oracle, &groups, log)
    }

    // The groups of the open frames, of those that have one.
    fn open_groups(&self) -> Result<Vec<Group>, Memory>
        requires { (i : ℕ) (o : OpenFrame) → slice_get self.now.open_frames i ≡ Some o
            → o.number < length self.now.groups }
        ensures { IfOk result (λ groups. groups.items ≡ open_groups self.now) }
    {
        let mut groups = Vec::new(self.alloc);
        for frame in &self.open {
            self.push_group(frame, &mut groups)?;
        }
        Ok(groups)
    }

    // Adds a frame's group, where it has one.
    fn push_group(&self, frame: &OpenFrame, groups: &mut Vec<Group>) -> Result<(), Memory>
        requires { frame.now.number < length self.now.groups }
        ensures { OnOk result (groups.new.items ≡ groups.old.items
            ++ cons_option (slice_index_or self.now.groups frame.now.number None) []) }
    {
        if let Some(group) = self.groups[frame.number as usize] {
            groups.push(group)?;
        }
        Ok(())
    }
}
