//! The two copies of the matrix, as they were given to the oracle.
//!
//! A universal that stands in no clause has no copies and no equation: it takes a flag and three
//! words. Whether the matrix is true doesn't depend on it, and so no question needs it.
//!
//! The copies of a file are made as those of a session: places for all variables, then names and
//! equations part by part, then the clauses in the frame 0. That the copies stand is said without
//! clauses' numbers (`IsDefinability`), so it may be said of any formula whose clauses are some of those
//! that the log numbers.

ghost use Rattle.std.specs.Prelude.{◌≡◌, ◌≤◌, ◌<◌, ◌+◌, ◌∷◌, [], ℕ, true, false, All, IfOk, OnOk, None, Some, length, replicate, slice_get};
ghost use Rattle.std.specs.List.{range_with_len};
ghost use Rattle.dq_lits.specs.Formula.{IsWellFormed};
ghost use Rattle.hint_log.specs.Entries.{name_of};
ghost use Rattle.hint_log.specs.Growth.{Grew};
ghost use Rattle.log_laws.specs.Engines.{copies, IsAddedBy, HasNone};
ghost use Rattle.definability.specs.Copies.{IsDefinability, IsWhole, groups_of};
ghost use Rattle.definability.specs.Following.{AreGiven, IsFollowing, CanGiveCopies};
ghost use Rattle.definability.specs.Growing.{HasCopied, HasFewFaults};
ghost use Rattle.definability.specs.Making.{AreFileCopies, AreGivenBefore, HasMoreGiven, HasNoCopies, HasNothing, IsAllGiven, IsFileActive, IsFileMade, CanGiveFile};
ghost use Rattle.definability.specs.Store.{HasGiven, IsCopyStore, copy_groups, store_of};
ghost use Rattle.definability.specs.declared.frames.Sides.{Sides as SidesValue};

use crate::copies::MatrixCopy;
use crate::following::LiveClause;
use crate::frames::Sides;
use crate::seeing::declared_count;
use dq_formula::Formula;
use dq_lits::Memory;
use hint_log::Log;
use oracle::{Group, Oracle};
use std::alloc::Global;

/// What was given to the oracle once: two copies of the matrix, and an equation for each declared
/// variable that has copies.
#[derive(Drop)]
pub struct Definability {
    pub(crate) alloc: Global,
    /// The first copy of the matrix.
    pub first: MatrixCopy,
    pub(crate) second: MatrixCopy,
    /// Which universals have copies.
    pub(crate) copied: Vec<bool>,
    /// The groups of the equations, universals first.
    pub(crate) links: Vec<Group>,
    // How many parts of a variable's copies were made: the first copy, the second, the group of
    // their equation, and the equation's two clauses. Where memory was wanting between two of them,
    // the next call goes on there.
    pub(crate) parts: Vec<u8>,
    // On how many sides each clause was given, at the place before its number, and the groups of
    // each frame, by its number. The file is frame 0.
    pub(crate) given: Vec<u8>,
    pub(crate) frames: Vec<Option<Sides>>,
}

impl Definability {
    /// Gives the copies, of the variables that stand in clauses and of all existentials, and the
    /// equations, each to a group of its own.
    pub fn new<O: Oracle>(
        alloc: Global,
        oracle: &mut O,
        f: &Formula,
        log: &mut Log,
    ) -> Result<Definability, Memory>
        requires fit { O.Fits oracle.old log.old }
        requires formula { IsWellFormed f.now }
        requires none { HasNone copies log.old.entries }
        requires few { HasFewFaults log.old.entries }
        ensures fit { O.Fits oracle.new log.new }
        ensures grew { (group : ℕ)
            → Grew (IsAddedBy f.now copies group true log.old.entries) log.old log.new }
        ensures copied { OnOk result (HasCopied log.old.entries log.new.entries) }
        ensures made { IfOk result (λ p. IsDefinability f.now p log.new.entries) }
        ensures fresh { IfOk result
            (λ p. All (λ g. name_of log.old.entries g ≡ None) (groups_of p)) }
        ensures all_active { IfOk result (λ p. copy_groups p ≡ groups_of p) }
        ensures store { IfOk result (λ p.
            IsCopyStore f.now (replicate (length f.now.matrix) 0) p log.new.entries) }
        ensures given { IfOk result
            (λ p. AreGiven (store_of p) (range_with_len 1 (length f.now.matrix))) }
    {
        f.every_formula_is_lawful();
        let definability = Definability::with_copies(alloc, oracle, f, f.universals().len(), log)?;
        Ok(definability)
    }

    /// The same with copies of all variables, for questions on functions that may read them.
    pub fn whole<O: Oracle>(
        alloc: Global,
        oracle: &mut O,
        f: &Formula,
        log: &mut Log,
    ) -> Result<Definability, Memory>
        requires fit { O.Fits oracle.old log.old }
        requires formula { IsWellFormed f.now }
        requires none { HasNone copies log.old.entries }
        requires few { HasFewFaults log.old.entries }
        ensures fit { O.Fits oracle.new log.new }
        ensures grew { (group : ℕ)
            → Grew (IsAddedBy f.now copies group true log.old.entries) log.old log.new }
        ensures copied { OnOk result (HasCopied log.old.entries log.new.entries) }
        ensures made { IfOk result (λ p. IsDefinability f.now p log.new.entries) }
        ensures fresh { IfOk result
            (λ p. All (λ g. name_of log.old.entries g ≡ None) (groups_of p)) }
        ensures all_active { IfOk result (λ p. copy_groups p ≡ groups_of p) }
        ensures store { IfOk result (λ p.
            IsCopyStore f.now (replicate (length f.now.matrix) 0) p log.new.entries) }
        ensures given { IfOk result
            (λ p. AreGiven (store_of p) (range_with_len 1 (length f.now.matrix))) }
        ensures whole { IfOk result (IsWhole f.now) }
    {
        let definability = Definability::with_copies(alloc, oracle, f, 0, log)?;
        Ok(definability)
    }

    // Gives the copies, of the variables that stand in clauses, and of those from a place on.
    fn with_copies<O: Oracle>(
        alloc: Global,
        oracle: &mut O,
        f: &Formula,
        from: usize,
        log: &mut Log,
    ) -> Result<Definability, Memory>
        requires fit { O.Fits oracle.old log.old }
        requires formula { IsWellFormed f.now }
        requires none { HasNone copies log.old.entries }
        requires few { HasFewFaults log.old.entries }
        requires from { from ≤ length f.now.universals }
        ensures fit { O.Fits oracle.new log.new }
        ensures made { IsFileMade f.now log.old log.new }
        ensures copies { IfOk result (AreFileCopies f.now from log.old log.new) }
    {
        let mut definability = Definability {
            alloc,
            first: MatrixCopy::new(alloc),
            second: MatrixCopy::new(alloc),
            copied: Vec::new(alloc),
            links: Vec::new(alloc),
            parts: Vec::new(alloc),
            given: Vec::new(alloc),
            frames: Vec::new(alloc),
        };
        definability.copy_file(oracle, f, from, log)?;
        Ok(definability)
    }

    // Makes the copies of a file, where there are none.
    fn copy_file<O: Oracle>(
        &mut self,
        oracle: &mut O,
        f: &Formula,
        from: usize,
        log: &mut Log,
    ) -> Result<(), Memory>
        requires fit { O.Fits oracle.old log.old }
        requires formula { IsWellFormed f.now }
        requires none { HasNone copies log.old.entries }
        requires few { HasFewFaults log.old.entries }
        requires from { from ≤ length f.now.universals }
        requires nothing { HasNothing self.old }
        ensures fit { O.Fits oracle.new log.new }
        ensures made { IsFileMade f.now log.old log.new }
        ensures copies { OnOk result (AreFileCopies f.now from log.old log.new self.new) }
    {
        let who = oracle.tenant()?;
        let spare = oracle.group(&who, log)?;
        self.make_places(f, &spare)?;
        self.give_file(oracle, f, from, log)?;
        self.activate_file()?;
        Ok(())
    }

    // Makes places for the copies of all variables and for all clauses.
    fn make_places(&mut self, f: &Formula, spare: &Group) -> Result<(), Memory>
        requires nothing { HasNothing self.old }
        ensures { OnOk result (HasNoCopies f.now spare.now self.new) }
    {
        let declared = declared_count(f);
        self.first.make_places(self.alloc, f)?;
        self.second.make_places(self.alloc, f)?;
        self.copied = no_flags(self.alloc, f.universals().len())?;
        self.parts = zeros(self.alloc, declared)?;
        self.given = zeros(self.alloc, f.clauses())?;
        self.links = same_groups(self.alloc, spare, declared)?;
        self.frames = no_frame(self.alloc)?;
        Ok(())
    }

    // Makes the groups of the frame 0, the copies of variables, and then those of all clauses.
    fn give_file<O: Oracle>(
        &mut self,
        oracle: &mut O,
        f: &Formula,
        from: usize,
        log: &mut Log,
    ) -> Result<(), Memory>
        requires fit { O.Fits oracle.old log.old }
        requires formula { IsWellFormed f.now }
        requires standing { CanGiveCopies f.now (replicate (length f.now.matrix) 0) f.now
            (store_of self.old) log.old.entries }
        requires from { from ≤ length f.now.universals }
        requires given { length self.old.given.items ≡ length f.now.matrix }
        requires frames { length self.old.frames.items ≡ 1 }
        ensures fit { O.Fits oracle.new log.new }
        ensures following { IsFollowing f.now (replicate (length f.now.matrix) 0)
            (store_of self.old) log.old (store_of self.new) log.new }
        ensures given { OnOk result (IsAllGiven f.now from self.new) }
        ensures first_groups { self.new.first.groups ≡ self.old.first.groups }
        ensures second_groups { self.new.second.groups ≡ self.old.second.groups }
    {
        self.open_frame(oracle, 0, log)?;
        self.copy_places(oracle, f, from, log)?;
        self.give_matrix(oracle, f, log)
    }

    // Gives the copies of all clauses, in the frame 0.
    fn give_matrix<O: Oracle>(
        &mut self,
        oracle: &mut O,
        f: &Formula,
        log: &mut Log,
    ) -> Result<(), Memory>
        requires fit { O.Fits oracle.old log.old }
        requires formula { IsWellFormed f.now }
        requires open_file { CanGiveFile f.now self.old log.old.entries }
        ensures fit { O.Fits oracle.new log.new }
        ensures more { HasMoreGiven f.now self.old log.old self.new log.new }
        ensures given { OnOk result (AreGivenBefore (store_of self.new) (length f.now.matrix)) }
    {
        for place in 0..f.clauses() {
            self.give_clause(oracle, f, place, log)?;
        }
        Ok(())
    }

    // Gives the copies of a clause, by its place, in the frame 0.
    fn give_clause<O: Oracle>(
        &mut self,
        oracle: &mut O,
        f: &Formula,
        place: usize,
        log: &mut Log,
    ) -> Result<(), Memory>
        requires fit { O.Fits oracle.old log.old }
        requires formula { IsWellFormed f.now }
        requires open_file { CanGiveFile f.now self.old log.old.entries }
        requires place { place < length f.now.matrix }
        ensures fit { O.Fits oracle.new log.new }
        ensures more { HasMoreGiven f.now self.old log.old self.new log.new }
        ensures given { OnOk result (HasGiven (store_of self.new) 2 (place + 1)) }
    {
        f.every_formula_is_lawful();
        let clause = LiveClause {
            place,
            number: place as u64 + 1,
            frame: 0,
        };
        self.copy_variables(oracle, f, f.clause(place), log)?;
        self.give_sides(oracle, f, clause, log)
    }

    // Makes the groups of the frame 0 the active ones.
    fn activate_file(&mut self) -> Result<(), Memory>
        requires opened { (sides : SidesValue)
            × (slice_get self.old.frames.items 0 ≡ Some (Some sides)) }
        requires first { self.old.first.groups.items ≡ [] }
        requires second { self.old.second.groups.items ≡ [] }
        ensures { OnOk result (IsFileActive self.old self.new) }
    {
        let first = self.frame_group(0, 1);
        let second = self.frame_group(0, 2);
        self.first.groups.push(first)?;
        self.second.groups.push(second)?;
        Ok(())
    }
}

// So many flags, and none is set.
fn no_flags(alloc: Global, count: usize) -> Result<Vec<bool>, Memory>
    ensures { IfOk result (λ flags. flags.items ≡ replicate count false) }
{
    Ok(vec![in alloc; false; count]?)
}

// So many zeros.
fn zeros(alloc: Global, count: usize) -> Result<Vec<u8>, Memory>
    ensures { IfOk result (λ zeros. zeros.items ≡ replicate count 0) }
{
    Ok(vec![in alloc; 0; count]?)
}

// A group so many times.
fn same_groups(alloc: Global, group: &Group, count: usize) -> Result<Vec<Group>, Memory>
    ensures { IfOk result (λ groups. groups.items ≡ replicate count group.now) }
{
    let mut groups = Vec::new(alloc);
    for _ in 0..count {
        groups.push(*group)?;
    }
    Ok(groups)
}

// A frame without groups.
fn no_frame(alloc: Global) -> Result<Vec<Option<Sides>>, Memory>
    ensures { IfOk result (λ frames. frames.items ≡ None ∷ []) }
{
    let mut frames = Vec::new(alloc);
    frames.push(None)?;
    Ok(frames)
}
