//! The searches of a script's commands, one after another.
//!
//! The formula of now is made anew only where clauses came or went since the search before.

ghost use Rattle.std.specs.Prelude.{◌≡◌, ◌≤◌, ◌<◌, ◌+◌, ◌^◌, [], List, Some, length, IfOk, OnOk, OnErr};
ghost use Rattle.dq_lits.specs.Formula.{IsWellFormed};
ghost use Rattle.dq_formula.specs.declared.formula.TheConstants.{MAX_CLAUSES};
ghost use Rattle.cert_text.specs.Header.{max_count};
ghost use Rattle.hint_log.specs.Entries.{Entry};
ghost use Rattle.hint_log.specs.ProductiveLog.{IsProductiveLog};
ghost use Rattle.dq_session.specs.Databases.{all_of, now_of, IsDatabase};
ghost use Rattle.repair_loop.specs.SearchStates.{CanBeginSearch};
ghost use Rattle.script_text.specs.Commands.{command_seen};
ghost use Rattle.script_text.specs.Lawful.{AreAllowed};
ghost use Rattle.session_runs.specs.Following.{database_behind, MayCome};
ghost use Rattle.session_runs.specs.Followed.{is_search};
ghost use Rattle.session_runs.specs.ScriptFiles.{IsSessionText};
ghost use Rattle.session_runs.specs.SessionFiles.{IsWorkOf};
ghost use Rattle.session_runs.specs.Invariant.{IsSoFar, IsCurrent, IsBegun, IsSessionInvariant, IsSearchedOn};

use crate::blocks::write_block;
use crate::commands::take;
use crate::laws::{
    databases_follow, following_databases_stand, sessions_take_clauses, undecided_takes_clauses,
};
use crate::searches::search_text;
use aig_graph::Graph;
use cdcl_core::Cdcl;
use copied_prefixes::copy_prefix;
use dq_formula::Formula;
use dq_lits::Memory;
use dq_session::ClauseDatabase;
use hint_log::Log;
use oracle::Oracle;
use repair_loop::SearchState;
use repair_loop::laws::{
    added_clauses_leave_search_states, closed_frames_leave_search_states,
    opened_frames_leave_search_states,
};
use script_text::{Command, Script};
use std::alloc::Global;

/// What a session keeps from command to command: the clauses in force, what its searches share, and
/// the blocks so far.
#[derive(Drop)]
pub(crate) struct Session<'f> {
    pub alloc: Global,
    pub file: &'f Formula,
    pub database: ClauseDatabase<'f>,
    pub search_state: SearchState,
    pub graph: Graph,
    // The formula of now, but where clauses came or went since it was made.
    pub current: Option<Formula>,
    pub text: Vec<u8>,
    pub count: u64,
}

/// The blocks of a script's searches, in order. The only error is want of memory.
pub(crate) fn session_text(
    alloc: Global,
    f: &Formula,
    script: &Script,
    log: &mut Log,
) -> Result<Vec<u8>, Memory>
    requires formula { IsWellFormed f.now }
    requires allowed { AreAllowed f.now 0 (length f.now.matrix) script.now }
    requires empty { log.old.entries ≡ [] }
    requires limit { log.old.limit ≤ max_count }
    ensures text { IfOk result (λ text. IsSessionText f.now script.now log.new text.items) }
    ensures log { IsWorkOf f.now script.now log.new }
    ensures limit { log.new.limit ≡ log.old.limit }
{
    let mut oracle = Cdcl::new(alloc);
    session_by(alloc, &mut oracle, f, script, log)
}

fn session_by<O: Oracle>(
    alloc: Global,
    oracle: &mut O,
    f: &Formula,
    script: &Script,
    log: &mut Log,
) -> Result<Vec<u8>, Memory>
    requires fit { O.Fits oracle.old log.old }
    requires formula { IsWellFormed f.now }
    requires allowed { AreAllowed f.now 0 (length f.now.matrix) script.now }
    requires empty { log.old.entries ≡ [] }
    requires limit { log.old.limit ≤ max_count }
    ensures text { IfOk result (λ text. IsSessionText f.now script.now log.new text.items) }
    ensures log { IsWorkOf f.now script.now log.new }
    ensures limit { log.new.limit ≡ log.old.limit }
{
    f.every_formula_is_lawful();
    following_databases_stand();
    sessions_take_clauses();
    let mut session = Session::begin(alloc, oracle, f, log)?;
    session.take_all(oracle, script, log)?;
    Ok(session.text)
}

fn is_search(command: Command) -> bool
    ensures { result ≡ is_search (command_seen command.entry) }
{
    match command {
        Command::Push => false,
        Command::Add(_) => false,
        Command::Pop => false,
        Command::Solve => true,
    }
}

impl<'f> Session<'f> {
    fn begin<O: Oracle>(
        alloc: Global,
        oracle: &mut O,
        f: &'f Formula,
        log: &mut Log,
    ) -> Result<Session<'f>, Memory>
        requires fit { O.Fits oracle.old log.old }
        requires formula { IsWellFormed f.now }
        requires empty { log.old.entries ≡ [] }
        ensures fit { O.Fits oracle.new log.new }
        ensures begun { IfOk result (λ s. IsBegun f.now s log.new) }
        ensures log { IsProductiveLog f.now log.new.entries }
        ensures limit { log.new.limit ≡ log.old.limit }
    {
        let database = ClauseDatabase::new(alloc, oracle, f, log)?;
        let search_state = SearchState::new(alloc, oracle, f, log)?;
        let graph = Graph::new(alloc, f.universals().len() + f.existentials().len());
        Ok(Session {
            alloc,
            file: f,
            database,
            search_state,
            graph,
            current: None,
            text: Vec::new(alloc),
            count: 0,
        })
    }

    // Takes the commands of a script, in order.
    fn take_all<O: Oracle>(
        &mut self,
        oracle: &mut O,
        script: &Script,
        log: &mut Log,
    ) -> Result<(), Memory>
        requires fit { O.Fits oracle.old log.old }
        requires standing { IsSessionInvariant script.now 0 self.old log.old }
        ensures ok { OnOk result (IsSessionInvariant script.now (length script.now) self.new log.new) }
        ensures err { OnErr result (IsWorkOf self.old.file.now script.now log.new) }
        ensures file { self.new.file.now ≡ self.old.file.now }
        ensures limit { log.new.limit ≡ log.old.limit }
    {
        for place in 0..script.len() {
            self.take_at(oracle, script, place, log)?;
        }
        Ok(())
    }

    // Takes the command at a place.
    fn take_at<O: Oracle>(
        &mut self,
        oracle: &mut O,
        script: &Script,
        place: usize,
        log: &mut Log,
    ) -> Result<(), Memory>
        requires fit { O.Fits oracle.old log.old }
        requires within { place < length script.now }
        requires small { length script.now < 2 ^ 64 }
        requires standing { IsSessionInvariant script.now place self.old log.old }
        ensures fit { O.Fits oracle.new log.new }
        ensures ok { OnOk result (IsSessionInvariant script.now (place + 1) self.new log.new) }
        ensures err { OnErr result (IsWorkOf self.old.file.now script.now log.new) }
        ensures file { self.new.file.now ≡ self.old.file.now }
        ensures limit { log.new.limit ≡ log.old.limit }
    {
        databases_follow();
        following_databases_stand();
        undecided_takes_clauses();
        opened_frames_leave_search_states();
        closed_frames_leave_search_states();
        added_clauses_leave_search_states();
        let command = script.get(place);
        if is_search(command) {
            self.search(oracle, log)
        } else {
            self.change(command)
        }
    }

    // Takes a command that is no search.
    fn change(&mut self, command: Command) -> Result<(), Memory>
        requires may_come { MayCome self.old.database (command_seen command) }
        requires current { IsCurrent self.old }
        ensures same { self.new ≡ record self.old { database = self.new.database; current = self.new.current } }
        ensures database { OnOk result
            (self.new.database ≡ database_behind self.old.database (command_seen command.entry)) }
        ensures current { OnOk result (IsCurrent self.new) }
    {
        let before = self.database.live().len();
        take(&mut self.database, command)?;
        if self.database.live().len() != before {
            self.current = None;
        }
        Ok(())
    }

    // Decides the formula of now, and writes the block.
    fn search<O: Oracle>(&mut self, oracle: &mut O, log: &mut Log) -> Result<(), Memory>
        requires fit { O.Fits oracle.old log.old }
        requires ready { CanBeginSearch self.old.database self.old.search_state self.old.graph log.old.entries }
        requires file { self.old.database.file ≡ self.old.file.now }
        requires few { length (all_of self.old.database).matrix ≤ MAX_CLAUSES }
        requires current { IsCurrent self.old }
        requires room { self.old.count + 1 < 2 ^ 64 }
        requires limit { log.old.limit ≤ max_count }
        ensures fit { O.Fits oracle.new log.new }
        ensures ok { OnOk result (IsSearchedOn self.old log.old self.new log.new) }
        ensures err { OnErr result (IsSoFar self.old.database log.new.entries) }
        ensures file { self.new.file.now ≡ self.old.file.now }
        ensures limit { log.new.limit ≡ log.old.limit }
    {
        self.renew()?;
        let Some(f) = &self.current else {
            unreachable!()
        };
        let text = search_text(
            self.alloc,
            oracle,
            &mut self.search_state,
            &mut self.graph,
            &mut self.database,
            f,
            log,
        )?;
        self.count += 1;
        write_block(self.alloc, &mut self.text, self.count, &text)
    }

    // Makes the formula of now, where clauses came or went.
    fn renew(&mut self) -> Result<(), Memory>
        requires database { (entries : List Entry) × IsDatabase self.old.database entries }
        requires file { self.old.database.file ≡ self.old.file.now }
        requires few { length (all_of self.old.database).matrix ≤ MAX_CLAUSES }
        requires current { IsCurrent self.old }
        ensures same { self.new ≡ record self.old { current = self.new.current } }
        ensures now { OnOk result (self.new.current ≡ Some (now_of self.old.database)) }
    {
        if self.current.is_some() {
            return Ok(());
        }
        let mut f = copy_prefix(self.alloc, self.file)?;
        self.database.write_now(&mut f)?;
        self.current = Some(f);
        Ok(())
    }
}
