//! Copies that follow a session, in which clauses come and go in frames.

ghost use Rattle.std.specs.Prelude.{◌≡◌, ◌⊎◌, ◌+◌, ◌-◌, ℕ, List, true, OnOk, length, slice_index_or};
ghost use Rattle.dq_lits.specs.Formula.{Dqbf, IsWellFormed};
ghost use Rattle.hint_log.specs.Growth.{Grew};
ghost use Rattle.hint_log.specs.ProductiveLog.{fault_groups, fault_room};
ghost use Rattle.log_laws.specs.Engines.{copies};
ghost use Rattle.log_laws.specs.Sessions.{IsAddedLive};
ghost use Rattle.definability.specs.Copies.{IsDefinability};
ghost use Rattle.definability.specs.Following.{AreGiven, AreOldOrNew, CanReceive, IsLiveFormula, IsPrepared, Receives, FollowsLive};
ghost use Rattle.definability.specs.Growing.{HasFewFaults};
ghost use Rattle.definability.specs.Store.{HasGiven, IsCopyStore, copy_groups, store_of};

use crate::copies::{MatrixCopy, copied_clause};
use crate::definability::Definability;
use dq_formula::Formula;
use dq_lits::Memory;
use hint_log::{Log, Origin};
use oracle::Oracle;

/// A clause of a formula: its place there, its number among all that were numbered, and its frame.
#[derive(Clone, Copy)]
pub(crate) struct LiveClause {
    pub place: usize,
    pub number: u64,
    pub frame: u64,
}

impl Definability {
    /// Gives the copies not yet given of the clauses of a formula, whose numbers these are, each in
    /// its frame's group of its side, and makes the groups of these frames the active ones. Where
    /// memory is wanting, what was given stands, and a further call goes on there.
    pub fn set_live<O: Oracle>(
        &mut self,
        oracle: &mut O,
        f: &Formula,
        live: &[u64],
        frames: &[u64],
        log: &mut Log,
    ) -> Result<(), Memory>
        requires fit { O.Fits oracle.old log.old }
        requires formula { IsWellFormed f.now }
        requires store { (all : Dqbf) × (numbered : List ℕ)
            × IsCopyStore all numbered self.old log.old.entries
            × IsLiveFormula all numbered f.now live.now frames.now }
        requires few { HasFewFaults log.old.entries }
        ensures fit { O.Fits oracle.new log.new }
        ensures grew { (all : Dqbf) (numbered : List ℕ)
            → IsCopyStore all numbered self.old log.old.entries
            → IsLiveFormula all numbered f.now live.now frames.now
            → Grew (IsAddedLive all copies (copy_groups self.old) true log.old.entries) log.old
            log.new }
        ensures store { (all : Dqbf) (numbered : List ℕ)
            → IsCopyStore all numbered self.old log.old.entries
            → IsLiveFormula all numbered f.now live.now frames.now
            → IsCopyStore all numbered self.new log.new.entries }
        ensures ready { OnOk result (IsDefinability f.now self.new log.new.entries) }
        ensures given { OnOk result (AreGiven (store_of self.new) live.now) }
        ensures fresh { AreOldOrNew (store_of self.old) (store_of self.new) log.old.entries }
        ensures faults { fault_groups log.new.entries ≡ fault_groups log.old.entries }
        ensures room { fault_room log.new.entries ≡ fault_room log.old.entries }
        ensures nothing { AreGiven (store_of self.old) live.now → log.new ≡ log.old }
    {
        self.follow_live(oracle, f, live, frames, log)
    }

    // Gives the copies that these clauses lack, and makes the groups of their frames the active ones.
    fn follow_live<O: Oracle>(
        &mut self,
        oracle: &mut O,
        f: &Formula,
        live: &[u64],
        frames: &[u64],
        log: &mut Log,
    ) -> Result<(), Memory>
        requires fit { O.Fits oracle.old log.old }
        requires formula { IsWellFormed f.now }
        requires store { (all : Dqbf) × (numbered : List ℕ)
            × IsCopyStore all numbered self.old log.old.entries
            × IsLiveFormula all numbered f.now live.now frames.now }
        requires few { HasFewFaults log.old.entries }
        ensures fit { O.Fits oracle.new log.new }
        ensures following { FollowsLive f.now live.now frames.now self.old log.old self.new log.new }
        ensures ready { OnOk result (IsDefinability f.now self.new log.new.entries) }
        ensures given { OnOk result (AreGiven (store_of self.new) live.now) }
        ensures nothing { AreGiven (store_of self.old) live.now → log.new ≡ log.old }
    {
        self.give_live(oracle, f, live, frames, log)?;
        self.activate(frames)?;
        Ok(())
    }

    // Gives the copies that these clauses lack.
    fn give_live<O: Oracle>(
        &mut self,
        oracle: &mut O,
        f: &Formula,
        live: &[u64],
        frames: &[u64],
        log: &mut Log,
    ) -> Result<(), Memory>
        requires fit { O.Fits oracle.old log.old }
        requires formula { IsWellFormed f.now }
        requires store { (all : Dqbf) × (numbered : List ℕ)
            × IsCopyStore all numbered self.old log.old.entries
            × IsLiveFormula all numbered f.now live.now frames.now }
        requires few { HasFewFaults log.old.entries }
        ensures fit { O.Fits oracle.new log.new }
        ensures following { FollowsLive f.now live.now frames.now self.old log.old self.new log.new }
        ensures given { OnOk result (AreGiven (store_of self.new) live.now) }
        ensures nothing { AreGiven (store_of self.old) live.now → log.new ≡ log.old }
    {
        for i in 0..live.len() {
            let clause = LiveClause {
                place: i,
                number: live[i],
                frame: frames[i],
            };
            self.follow(oracle, f, clause, log)?;
        }
        Ok(())
    }

    // Gives the copies that a clause lacks.
    fn follow<O: Oracle>(
        &mut self,
        oracle: &mut O,
        f: &Formula,
        clause: LiveClause,
        log: &mut Log,
    ) -> Result<(), Memory>
        requires fit { O.Fits oracle.old log.old }
        requires formula { IsWellFormed f.now }
        requires standing { CanReceive f.now self.old clause log.old.entries }
        ensures fit { O.Fits oracle.new log.new }
        ensures following { Receives f.now self.old log.old clause self.new log.new }
        ensures given { OnOk result (HasGiven (store_of self.new) 2 clause.number) }
        ensures nothing { HasGiven (store_of self.old) 2 clause.number → log.new ≡ log.old }
    {
        if self.sides_of(clause.number) >= 2 {
            return Ok(());
        }
        self.complete(oracle, f, clause, log)
    }

    // Gives the copies that a clause lacks, with what they need.
    fn complete<O: Oracle>(
        &mut self,
        oracle: &mut O,
        f: &Formula,
        clause: LiveClause,
        log: &mut Log,
    ) -> Result<(), Memory>
        requires fit { O.Fits oracle.old log.old }
        requires formula { IsWellFormed f.now }
        requires standing { CanReceive f.now self.old clause log.old.entries }
        ensures fit { O.Fits oracle.new log.new }
        ensures following { Receives f.now self.old log.old clause self.new log.new }
        ensures given { OnOk result (HasGiven (store_of self.new) 2 clause.number) }
    {
        f.every_formula_is_lawful();
        self.copy_variables(oracle, f, f.clause(clause.place), log)?;
        self.make_room(clause.number, clause.frame)?;
        self.open_frame(oracle, clause.frame, log)?;
        self.give_sides(oracle, f, clause, log)
    }

    /// Gives the copies that a clause lacks, where its variables have copies and its frame groups.
    pub(crate) fn give_sides<O: Oracle>(
        &mut self,
        oracle: &mut O,
        f: &Formula,
        clause: LiveClause,
        log: &mut Log,
    ) -> Result<(), Memory>
        requires fit { O.Fits oracle.old log.old }
        requires formula { IsWellFormed f.now }
        requires standing { CanReceive f.now self.old clause log.old.entries }
        requires prepared { IsPrepared f.now self.old clause }
        ensures fit { O.Fits oracle.new log.new }
        ensures following { Receives f.now self.old log.old clause self.new log.new }
        ensures same { self.new ≡ record self.old { given = self.new.given } }
        ensures long { length self.new.given.items ≡ length self.old.given.items }
        ensures given { OnOk result (HasGiven (store_of self.new) 2 clause.number) }
    {
        for side in self.sides_of(clause.number)..2 {
            self.give_copy(oracle, f, clause, side + 1, log)?;
        }
        Ok(())
    }

    // Gives a clause on the next side.
    fn give_copy<O: Oracle>(
        &mut self,
        oracle: &mut O,
        f: &Formula,
        clause: LiveClause,
        side: u8,
        log: &mut Log,
    ) -> Result<(), Memory>
        requires fit { O.Fits oracle.old log.old }
        requires formula { IsWellFormed f.now }
        requires standing { CanReceive f.now self.old clause log.old.entries }
        requires prepared { IsPrepared f.now self.old clause }
        requires side { (side ≡ 1) ⊎ (side ≡ 2) }
        requires next { slice_index_or self.old.given.items (clause.number - 1) 0 + 1 ≡ side }
        ensures fit { O.Fits oracle.new log.new }
        ensures following { Receives f.now self.old log.old clause self.new log.new }
        ensures same { self.new ≡ record self.old { given = self.new.given } }
        ensures long { length self.new.given.items ≡ length self.old.given.items }
        ensures given { OnOk result
            (slice_index_or self.new.given.items (clause.number - 1) 0 ≡ side) }
    {
        f.every_formula_is_lawful();
        let lits = copied_clause(self.alloc, self.side(side), f, f.clause(clause.place))?;
        let group = self.frame_group(clause.frame, side);
        let origin = Origin::Copy {
            side: side as u64,
            clause: clause.number,
        };
        oracle.add(&group, &lits, origin, log)?;
        self.given[clause.number as usize - 1] = side;
        Ok(())
    }

    // The copy of the matrix on a side.
    fn side(&self, side: u8) -> &MatrixCopy
        requires { (side ≡ 1) ⊎ (side ≡ 2) }
        ensures first { side ≡ 1 → result.now ≡ self.now.first }
        ensures second { side ≡ 2 → result.now ≡ self.now.second }
    {
        if side == 1 { &self.first } else { &self.second }
    }
}
