//! The clauses of a session, and their instances.
//!
//! A database borrows its file: only added clauses have a copy. A frame's group lies at the frame's
//! number and stays there when it is closed, so that no two frames share one. How many rows a
//! clause's instances were given under is kept for each clause; a refused growth half-way leaves a
//! database that stands, and the next search goes on where it ended.

ghost use Rattle.std.specs.Prelude.{◌≡◌, ◌⊎◌, ◌≤◌, ◌<◌, ◌-◌, ◌+◌, ◌++◌, ◌∷◌, [], ℕ, true, map, length, slice_index_or, None, Ok, All, IfOk, OnOk, OnErr, IsErrOf, Contains};
ghost use Rattle.std.specs.List.{range_with_len};
ghost use Rattle.dq_lits.specs.Literal.{variable_of};
ghost use Rattle.dq_lits.specs.Formula.{IsWellFormed, declared};
ghost use Rattle.dq_lits.specs.Expansion.{IsExpansionUnsatisfiable};
ghost use Rattle.dq_formula.specs.declared.formula.TheConstants.{MAX_CLAUSES};
ghost use Rattle.hint_log.specs.Entries.{name_of};
ghost use Rattle.hint_log.specs.Growth.{Grew};
ghost use Rattle.hint_log.specs.Naming.{rows_of};
ghost use Rattle.hint_log.specs.ProductiveLog.{fault_groups, fault_room};
ghost use Rattle.log_laws.specs.Engines.{instances, HasNone};
ghost use Rattle.log_laws.specs.Sessions.{IsAddedLive};
ghost use Rattle.oracle.specs.Limits.{IsAtLimit};
ghost use Rattle.expansion.specs.Searches.{switches};
ghost use Rattle.expansion.specs.Silence.{is_silent};
ghost use Rattle.expansion.specs.Table.{PointState, ArePoints, point_bits};
ghost use Rattle.dq_session.specs.Databases.{all_of, now_of, IsDatabase, IsFullDatabase};
ghost use Rattle.dq_session.specs.Changes.{begun, file_live, with_frame, with_clause, without_frame, groups_of, open_groups, IsCaughtUp};
ghost use Rattle.dq_session.specs.Shown.{IsRefutedLive};

use crate::live::{Live, OpenFrame};
use dq_formula::Formula;
use dq_lits::{Lit, Memory, Row};
use expansion::{Exp, Table};
use flat_lists::FlatLists;
use hint_log::{Log, Stop};
use oracle::{Group, Oracle};
use std::alloc::Global;
use std::marker::Model;

/// A file's clauses and those that were added to open frames, with the instances of all of them
/// under the rounds' rows.
///
/// Clauses are numbered from 1 on, those of frames that were closed too. A frame's instances are
/// given at the next search, into a group of its own that is made there.
#[derive(Drop)]
pub struct ClauseDatabase<'f> {
    pub(crate) alloc: Global,
    pub(crate) file: &'f Formula,
    pub(crate) table: Table,
    // The clauses that were added, in order; the frame of each, and under how many rows its
    // instances were given.
    pub(crate) added: FlatLists<Lit>,
    pub(crate) frames: Vec<u64>,
    pub(crate) given: Vec<u64>,
    // By the frame's number. The file, frame 0, has none, since its instances are the table's.
    pub(crate) groups: Vec<Option<Group>>,
    pub(crate) open: Vec<OpenFrame>,
    pub(crate) live: Vec<Live>,
}

impl<'f> Model for ClauseDatabase<'f> {
    ghost use Rattle.dq_session.specs.Databases.{DatabaseState};

    ghost Value = { DatabaseState };

    ghost view = { λ b.
        record {
          file = b.file.now;
          table = b.table;
          added = b.added;
          frames = b.frames.items;
          given = b.given.items;
          groups = b.groups.items;
          open_frames = b.open.items;
          live = b.live.items;
        } };
}

impl<'f> ClauseDatabase<'f> {
    /// A database of the file's clauses.
    pub fn new<O: Oracle>(
        alloc: Global,
        oracle: &mut O,
        f: &'f Formula,
        log: &mut Log,
    ) -> Result<ClauseDatabase<'f>, Memory>
        requires fit { O.Fits oracle.old log.old }
        requires formula { IsWellFormed f.now }
        requires none { HasNone instances log.old.entries }
        ensures fit { O.Fits oracle.new log.new }
        ensures grew { Grew (IsAddedLive f.now instances [] true log.old.entries) log.old log.new }
        ensures begun { IfOk result (λ b. b ≡ begun f.now b.table) }
        ensures rows { IfOk result (λ b. b.table.rows ≡ []) }
        ensures database { IfOk result (λ b. IsDatabase b log.new.entries) }
    {
        let table = Table::new(alloc, oracle, f, log)?;
        let live = file_clauses(alloc, f)?;
        let groups = no_groups(alloc)?;
        Ok(ClauseDatabase {
            alloc,
            file: f,
            table,
            added: FlatLists::new(alloc),
            frames: Vec::new(alloc),
            given: Vec::new(alloc),
            groups,
            open: Vec::new(alloc),
            live,
        })
    }

    /// Opens a frame. Where memory is wanting the database stays as it was.
    pub fn push(&mut self) -> Result<(), Memory>
        ensures ok { OnOk result (self.new ≡ with_frame self.old) }
        ensures err { OnErr result (self.new ≡ self.old) }
    {
        let frame = OpenFrame {
            number: self.groups.len() as u64,
            start: self.live.len(),
        };
        self.groups.reserve(1)?;
        self.open.push(frame)?;
        self.groups.push(None).unwrap();
        Ok(())
    }

    /// Adds a clause to the frame that was opened last. Where memory is wanting the database stays as
    /// it was.
    pub fn add(&mut self, literals: &[Lit]) -> Result<(), Memory>
        requires frame { 1 ≤ length self.old.open_frames }
        requires bound { All (λ l. Contains (declared self.old.file) (variable_of l)) literals.now }
        requires few { length self.old.file.matrix + length self.old.added < MAX_CLAUSES }
        ensures ok { OnOk result (self.new ≡ with_clause self.old literals.now) }
        ensures err { OnErr result (self.new ≡ self.old) }
    {
        let frame = self.open[self.open.len() - 1].number;
        let clause = (self.file.clauses() + self.added.len()) as u64 + 1;
        self.frames.reserve(1)?;
        self.given.reserve(1)?;
        self.live.reserve(1)?;
        self.added.push(literals)?;
        self.frames.push(frame).unwrap();
        self.given.push(0).unwrap();
        self.live.push(Live { clause, frame }).unwrap();
        Ok(())
    }

    /// Closes the frame that was opened last. Its clauses are live no more, and keep their numbers.
    pub fn pop(&mut self)
        requires frame { 1 ≤ length self.old.open_frames }
        ensures popped { self.new ≡ without_frame self.old }
    {
        let rest = self.open.len() - 1;
        self.live.truncate(self.open[rest].start);
        self.open.truncate(rest);
    }

    /// The table of the file's instances, which has all rows.
    pub fn table(&self) -> &Table
        ensures { result.now ≡ self.now.table }
    {
        &self.table
    }

    /// The live clauses, ascending.
    pub fn live(&self) -> &[Live]
        ensures { result.now ≡ self.now.live }
    {
        &self.live
    }

    /// The literals of a clause, by its number.
    pub fn clause(&self, j: u64) -> &[Lit]
        requires from_one { 1 ≤ j }
        requires last { j ≤ length (all_of self.now).matrix }
        ensures { result.now ≡ slice_index_or (all_of self.now).matrix (j - 1) [] }
    {
        let place = j as usize - 1;
        let of_file = self.file.clauses();
        if place < of_file {
            self.file.clause(place)
        } else {
            self.added.get(place - of_file)
        }
    }

    /// Adds the row of the newest round, and gives the oracle the instances of the file's clauses
    /// under it; those of other clauses follow at the next search. Where memory is wanting the database
    /// stays as it was, but for what its table knows of the order of its rows.
    pub fn add_row<O: Oracle>(
        &mut self,
        oracle: &mut O,
        row: &Row,
        log: &mut Log,
    ) -> Result<(), Memory>
        requires fit { O.Fits oracle.old log.old }
        requires database { IsDatabase self.old log.old.entries }
        requires rows { rows_of log.old.entries ≡ self.old.table.rows ++ row.now ∷ [] }
        requires row_length { length row.now ≡ length self.old.file.universals }
        requires few { length (fault_groups log.old.entries) ≤ fault_room log.old.entries }
        ensures fit { O.Fits oracle.new log.new }
        ensures grew { Grew (IsAddedLive (all_of self.old) instances (groups_of self.old) true
            log.old.entries) log.old log.new }
        ensures same { self.new ≡ record self.old { table = self.new.table } }
        ensures group { self.new.table.group ≡ self.old.table.group }
        ensures database { OnOk result (IsFullDatabase self.new log.new.entries) }
        ensures rows { OnOk result (self.new.table.rows ≡ self.old.table.rows ++ row.now ∷ []) }
        ensures err { OnErr result (self.new ≡ record self.old {
          table = record self.old.table { first_rows = self.new.table.first_rows };
        }) }
    {
        self.table.add_row(oracle, self.file, row, log)
    }

    /// A model of the instances of all live clauses, or an answer that there is none. It stops for
    /// want of memory or at the log's limit, and may be called again then.
    pub fn solve<O: Oracle>(&mut self, oracle: &mut O, log: &mut Log) -> Result<Exp, Stop>
        requires fit { O.Fits oracle.old log.old }
        requires database { IsFullDatabase self.old log.old.entries }
        requires few { length (fault_groups log.old.entries) ≤ fault_room log.old.entries }
        ensures fit { O.Fits oracle.new log.new }
        ensures same { IsCaughtUp self.old self.new }
        ensures grew { Grew (IsAddedLive (all_of self.old) instances (groups_of self.old)
            (is_silent result) log.old.entries) log.old log.new }
        ensures database { IsFullDatabase self.new log.new.entries }
        ensures fresh { (n : ℕ) → Contains (groups_of self.new) n
            → Contains (groups_of self.old) n ⊎ (name_of log.old.entries n ≡ None) }
        ensures point_variables { (points : PointState) → result ≡ Ok (Exp.Model points)
            → points.variables ≡ self.old.table.existentials }
        ensures point_rows { (points : PointState) → result ≡ Ok (Exp.Model points)
            → length points.rows ≡ length self.old.table.rows }
        ensures model { (points : PointState) → result ≡ Ok (Exp.Model points)
            → ArePoints (now_of self.old) self.old.table.rows (point_bits points) }
        ensures refuted { (id : ℕ) → result ≡ Ok (Exp.Refuted id)
            → IsExpansionUnsatisfiable (now_of self.old) self.old.table.rows }
        ensures shown { (id : ℕ) → result ≡ Ok (Exp.Refuted id)
            → IsRefutedLive self.old log.new.entries id }
        ensures limit { IsErrOf result Stop.Limit
            → IsAtLimit log.new (switches self.new.table (open_groups self.new)) }
    {
        self.give_live(oracle, log)?;
        self.search(oracle, log)
    }
}

// The clauses of a file, which are live.
fn file_clauses(alloc: Global, f: &Formula) -> Result<Vec<Live>, Memory>
    ensures { IfOk result (λ live. live.items
        ≡ map file_live (range_with_len 1 (length f.now.matrix))) }
{
    let mut live = Vec::new(alloc);
    for j in 0..f.clauses() {
        live.push(Live {
            clause: j as u64 + 1,
            frame: 0,
        })?;
    }
    Ok(live)
}

// The groups of a database without frames.
fn no_groups(alloc: Global) -> Result<Vec<Option<Group>>, Memory>
    ensures { IfOk result (λ groups. groups.items ≡ None ∷ []) }
{
    let mut groups = Vec::new(alloc);
    groups.push(None)?;
    Ok(groups)
}
