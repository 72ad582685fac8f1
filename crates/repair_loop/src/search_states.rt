//! The search state of a session: what stays from search to search.

ghost use Rattle.std.specs.Prelude.{◌≡◌, ◌⊎◌, ℕ, true, false, map, take, ◌≤◌, length, None, Some, IfOk, OnOk, OnErr, IsErrOf, Ok, Err};
ghost use Rattle.dq_lits.specs.Formula.{IsWellFormed};
ghost use Rattle.hint_log.specs.Deciding.{IsUndecided, KeepsSelectors};
ghost use Rattle.hint_log.specs.Entries.{Begun, with_entry};
ghost use Rattle.hint_log.specs.Live.{last_live, live_numbers};
ghost use Rattle.hint_log.specs.Naming.{rows_of};
ghost use Rattle.hint_log.specs.ProductiveLog.{IsProductiveLog};
ghost use Rattle.hint_log.specs.ProductiveSession.{IsProductiveSession, IsUndecidedSince};
ghost use Rattle.aig_graph.specs.Graph.{AigGraph};
ghost use Rattle.dq_session.specs.Databases.{DatabaseState, all_of, frames_of, live_of, now_of};
ghost use Rattle.known_functions.specs.Searching.{HasInputs};
ghost use Rattle.repair_loop.specs.SearchStates.{HasBegun, IsAnsweredFalse, IsAnsweredTrue, IsDatabaseAfter, IsFirstDatabase, IsKept, CanBeginSearch};
ghost use Rattle.repair_loop.specs.Beginning.{HasBegunUndecided, HasStarted};
ghost use Rattle.repair_loop.specs.Stopping.{IsStoppedAtLimit};
ghost use Rattle.repair_loop.specs.Turning.{AreFaultsNew, HasEnded, IsSearch, IsStoppedAs, IsUnderWay};
ghost use Rattle.repair_loop.specs.Preservation.{IsLeft};

use crate::decisions::Verdict;
use crate::first_copies::first_copies;
use crate::preservation::search_states_are_grouped;
use crate::searches::Search;
use aig_graph::Graph;
use circuit_cnf::Checker;
use circuit_cnf::laws::checkers_stay;
use definability::Definability;
use definability::laws::{beginnings_leave_stores, engines_leave_stores};
use dq_formula::Formula;
use dq_lits::Memory;
use dq_session::laws::{beginnings_leave_databases, engines_leave_databases};
use dq_session::{ClauseDatabase, Live};
use hint_log::{Log, Stop};
use log_laws::laws::{engines_leave_sessions, engines_leave_the_rest, plain_logs_are_sessions};
use oracle::Oracle;
use std::alloc::Global;

/// What the searches of a session share, beside the database of its clauses: the checker of circuits and
/// the copies of the clauses, so that no gate and no copy is given twice.
#[derive(Drop)]
pub struct SearchState {
    pub(crate) alloc: Global,
    pub(crate) checker: Checker,
    pub(crate) definability: Definability,
    // The clauses' numbers of the last search that began.
    pub(crate) begun: Vec<u64>,
}

impl SearchState {
    /// A search state for a file's database, in a log that has nothing but the database's beginning.
    pub fn new<O: Oracle>(
        alloc: Global,
        oracle: &mut O,
        f: &Formula,
        log: &mut Log,
    ) -> Result<SearchState, Memory>
        requires fit { O.Fits oracle.old log.old }
        requires formula { IsWellFormed f.now }
        requires database { (b : DatabaseState) × IsFirstDatabase f.now b log.old.entries }
        ensures fit { O.Fits oracle.new log.new }
        ensures limit_same { log.new.limit ≡ log.old.limit }
        ensures productive { IsProductiveLog f.now log.new.entries }
        ensures undecided { IsUndecided f.now log.new.entries }
        ensures none { live_numbers log.new.entries ≡ None }
        ensures ready { (b : DatabaseState) (graph : AigGraph) → IsFirstDatabase f.now b log.old.entries
            → HasInputs f.now graph → IfOk result (λ d. CanBeginSearch b d graph log.new.entries) }
    {
        search_states_are_grouped();
        engines_leave_databases();
        engines_leave_sessions();
        engines_leave_stores();
        engines_leave_the_rest();
        plain_logs_are_sessions();
        let definability = first_copies(alloc, oracle, f, log)?;
        let checker = Checker::new(alloc, oracle, f, log)?;
        Ok(SearchState {
            alloc,
            checker,
            definability,
            begun: Vec::new(alloc),
        })
    }

    /// Decides the formula of the live clauses. The log says that a search began over them, and then
    /// what it came to. It stops for want of memory or at the log's limit; a verdict that needs no
    /// further step comes at the limit too. Behind a verdict, and behind the limit, clauses may come
    /// and go, and the next search may begin.
    pub fn decide_now<O: Oracle>(
        &mut self,
        oracle: &mut O,
        graph: &mut Graph,
        database: &mut ClauseDatabase,
        f: &Formula,
        log: &mut Log,
    ) -> Result<Verdict, Stop>
        requires fit { O.Fits oracle.old log.old }
        requires ready { CanBeginSearch database.old self.old graph.old log.old.entries }
        requires now { f.now ≡ now_of database.old }
        ensures fit { O.Fits oracle.new log.new }
        ensures ready { (result ≡ Err Stop.Memory → ⊥)
            → CanBeginSearch database.new self.new graph.new log.new.entries }
        ensures database { IsDatabaseAfter database.old database.new }
        ensures session { (result ≡ Err Stop.Memory → ⊥)
            → IsProductiveSession (all_of database.old) (frames_of database.old) log.new.entries }
        ensures kept { IsKept (all_of database.old) log.new.entries }
        ensures inputs { graph.new.inputs ≡ graph.old.inputs }
        ensures selectors { KeepsSelectors log.new.entries }
        ensures limit_same { log.new.limit ≡ log.old.limit }
        ensures began { HasBegun (live_of database.old) log.old.entries log.new.entries
            ⊎ ((result ≡ Err Stop.Memory) × (log.new ≡ log.old)) }
        ensures shown_true { (nodes : _) (id : ℕ) → result ≡ Ok (Verdict.True nodes id)
            → IsAnsweredTrue f.now graph.new nodes log.new id }
        ensures shown_false { (id : ℕ) → result ≡ Ok (Verdict.False id)
            → IsAnsweredFalse database.old log.new id }
        ensures undecided { HasBegun (live_of database.old) log.old.entries log.new.entries
            → OnErr result (IsUndecidedSince (all_of database.old) log.new.entries) }
        ensures new_faults { HasBegun (live_of database.old) log.old.entries log.new.entries
            → AreFaultsNew log.old.entries log.new.entries }
        ensures limit { IsErrOf result Stop.Limit → IsStoppedAtLimit f.now log.new }
    {
        search_states_are_grouped();
        self.begin(oracle, database, f, log)?;
        self.search(oracle, graph, database, f, log)
    }

    // Logs that a search begins over the live clauses. The oracle is lent for the contract alone.
    fn begin<O: Oracle>(
        &mut self,
        oracle: &O,
        database: &ClauseDatabase,
        f: &Formula,
        log: &mut Log,
    ) -> Result<(), Memory>
        requires fit { O.Fits oracle.now log.old }
        requires ready { (graph : AigGraph) × CanBeginSearch database.now self.old graph log.old.entries }
        requires now { f.now ≡ now_of database.now }
        ensures fit { O.Fits oracle.now log.new }
        ensures started { HasStarted database.now self.new log.old log.new }
        ensures begun { OnOk result (HasBegunUndecided database.now log.old log.new) }
        ensures ready { (graph : AigGraph) → HasInputs f.now graph → OnOk result
            (IsSearch f.now graph database.now self.new.checker self.new.definability false log.new.entries) }
    {
        beginnings_leave_databases();
        beginnings_leave_stores();
        self.log_beginning(database, log)
    }

    // Searches: a round comes before the copies are completed.
    fn search<O: Oracle>(
        &mut self,
        oracle: &mut O,
        graph: &mut Graph,
        database: &mut ClauseDatabase,
        f: &Formula,
        log: &mut Log,
    ) -> Result<Verdict, Stop>
        requires fit { O.Fits oracle.old log.old }
        requires search { IsSearch f.now graph.old database.old self.old.checker self.old.definability false
            log.old.entries }
        requires begun { self.old.begun.items ≡ live_of database.old }
        ensures fit { O.Fits oracle.new log.new }
        ensures inputs { graph.new.inputs ≡ graph.old.inputs }
        ensures ended { HasEnded database.old database.new log.old log.new }
        ensures way { (result ≡ Err Stop.Memory → ⊥) → IsUnderWay f.now database.new self.new.checker
            self.new.definability false log.new.entries }
        ensures rows { (result ≡ Err Stop.Memory → ⊥) → rows_of log.new.entries ≡ database.new.table.rows }
        ensures begun { self.new.begun.items ≡ self.old.begun.items }
        ensures shown_true { (nodes : _) (id : ℕ) → result ≡ Ok (Verdict.True nodes id)
            → IsAnsweredTrue f.now graph.new nodes log.new id }
        ensures shown_false { (id : ℕ) → result ≡ Ok (Verdict.False id)
            → IsAnsweredFalse database.new log.new id }
        ensures stopped { IsStoppedAs f.now database.new log.new result }
    {
        match self.look_first(oracle, graph, database, f, log)? {
            Some(verdict) => Ok(verdict),
            None => self.search_on(oracle, graph, database, f, log),
        }
    }

    // A round without questions, where there are no rows yet: copies would take more memory than all
    // else, and often none are needed.
    fn look_first<O: Oracle>(
        &mut self,
        oracle: &mut O,
        graph: &mut Graph,
        database: &mut ClauseDatabase,
        f: &Formula,
        log: &mut Log,
    ) -> Result<Option<Verdict>, Stop>
        requires fit { O.Fits oracle.old log.old }
        requires search { IsSearch f.now graph.old database.old self.old.checker self.old.definability false
            log.old.entries }
        ensures fit { O.Fits oracle.new log.new }
        ensures inputs { graph.new.inputs ≡ graph.old.inputs }
        ensures went { HasEnded database.old database.new log.old log.new }
        ensures way { (result ≡ Err Stop.Memory → ⊥) → IsUnderWay f.now database.new self.new.checker
            self.new.definability false log.new.entries }
        ensures rows { (result ≡ Err Stop.Memory → ⊥) → rows_of log.new.entries ≡ database.new.table.rows }
        ensures begun { self.new.begun.items ≡ self.old.begun.items }
        ensures shown_true { (nodes : _) (id : ℕ) → result ≡ Ok (Some (Verdict.True nodes id))
            → IsAnsweredTrue f.now graph.new nodes log.new id }
        ensures shown_false { (id : ℕ) → result ≡ Ok (Some (Verdict.False id))
            → IsAnsweredFalse database.new log.new id }
        ensures open { result ≡ Ok None → IsSearch f.now graph.new database.new self.new.checker
            self.new.definability false log.new.entries }
        ensures stopped { IsStoppedAs f.now database.new log.new result }
    {
        if database.table().rows() > 0 {
            return Ok(None);
        }
        let search = Search {
            alloc: self.alloc,
            f,
            definability: &self.definability,
            may_ask: false,
        };
        search.first_round(oracle, graph, database, &mut self.checker, log)
    }

    // Searches, with copies of all live clauses.
    fn search_on<O: Oracle>(
        &mut self,
        oracle: &mut O,
        graph: &mut Graph,
        database: &mut ClauseDatabase,
        f: &Formula,
        log: &mut Log,
    ) -> Result<Verdict, Stop>
        requires fit { O.Fits oracle.old log.old }
        requires search { IsSearch f.now graph.old database.old self.old.checker self.old.definability false
            log.old.entries }
        requires begun { self.old.begun.items ≡ live_of database.old }
        ensures fit { O.Fits oracle.new log.new }
        ensures inputs { graph.new.inputs ≡ graph.old.inputs }
        ensures ended { HasEnded database.old database.new log.old log.new }
        ensures way { (result ≡ Err Stop.Memory → ⊥) → IsUnderWay f.now database.new self.new.checker
            self.new.definability false log.new.entries }
        ensures rows { (result ≡ Err Stop.Memory → ⊥) → rows_of log.new.entries ≡ database.new.table.rows }
        ensures begun { self.new.begun.items ≡ self.old.begun.items }
        ensures shown_true { (nodes : _) (id : ℕ) → result ≡ Ok (Verdict.True nodes id)
            → IsAnsweredTrue f.now graph.new nodes log.new id }
        ensures shown_false { (id : ℕ) → result ≡ Ok (Verdict.False id)
            → IsAnsweredFalse database.new log.new id }
        ensures stopped { IsStoppedAs f.now database.new log.new result }
    {
        self.follow(oracle, database, f, log)?;
        let search = Search {
            alloc: self.alloc,
            f,
            definability: &self.definability,
            may_ask: true,
        };
        search.run(oracle, graph, database, &mut self.checker, log)
    }

    // Lets the copies follow the live clauses.
    fn follow<O: Oracle>(
        &mut self,
        oracle: &mut O,
        database: &ClauseDatabase,
        f: &Formula,
        log: &mut Log,
    ) -> Result<(), Memory>
        requires fit { O.Fits oracle.old log.old }
        requires search { (graph : AigGraph) × IsSearch f.now graph database.now self.old.checker
            self.old.definability false log.old.entries }
        requires begun { self.old.begun.items ≡ live_of database.now }
        ensures fit { O.Fits oracle.new log.new }
        ensures checker { self.new.checker ≡ self.old.checker }
        ensures begun { self.new.begun ≡ self.old.begun }
        ensures left { IsLeft f.now database.now database.now self.new.checker self.new.checker
            self.new.definability false true log.old log.new }
        ensures search { (graph : AigGraph)
            → IsSearch f.now graph database.now self.old.checker self.old.definability false log.old.entries
            → OnOk result (IsSearch f.now graph database.now self.new.checker self.new.definability true
            log.new.entries) }
    {
        engines_leave_databases();
        engines_leave_sessions();
        checkers_stay();
        let frames = live_frames(self.alloc, database.live())?;
        let live = &self.begun;
        self.definability.set_live(oracle, f, live, &frames, log)
    }

    // Logs that a search begins over the live clauses.
    fn log_beginning(&mut self, database: &ClauseDatabase, log: &mut Log) -> Result<(), Memory>
        requires { self.old.begun.items ≡ last_live log.old.entries }
        ensures checker { self.new.checker ≡ self.old.checker }
        ensures definability { self.new.definability ≡ self.old.definability }
        ensures logged { OnOk result (log.new ≡ with_entry log.old (Begun (live_of database.now))) }
        ensures named { self.new.begun.items ≡ last_live log.new.entries }
        ensures err { OnErr result (log.new ≡ log.old) }
    {
        let live = live_numbers(self.alloc, database.live())?;
        let stays = common_length(&self.begun, &live);
        log.begun(stays, &live[stays..])?;
        self.begun = live;
        Ok(())
    }
}

// The numbers of live clauses.
fn live_numbers(alloc: Global, live: &[Live]) -> Result<Vec<u64>, Memory>
    ensures { IfOk result (λ numbers. numbers.items ≡ map (λ l. l.clause) live.now) }
{
    let mut numbers = Vec::new(alloc);
    for l in live {
        numbers.push(l.clause)?;
    }
    Ok(numbers)
}

// Their frames.
fn live_frames(alloc: Global, live: &[Live]) -> Result<Vec<u64>, Memory>
    ensures { IfOk result (λ frames. frames.items ≡ map (λ l. l.frame) live.now) }
{
    let mut frames = Vec::new(alloc);
    for l in live {
        frames.push(l.frame)?;
    }
    Ok(frames)
}

// How many numbers two lists have in common at their beginnings.
fn common_length(xs: &[u64], ys: &[u64]) -> usize
    ensures first { result ≤ length ys.now }
    ensures same { take result xs.now ≡ take result ys.now }
{
    let shorter = xs.len().min(ys.len());
    for at in 0..shorter {
        if xs[at] != ys[at] {
            return at;
        }
    }
    shorter
}
