//! The proof log as a value, and its calls.

ghost use Rattle.std.specs.Prelude.{◌≡◌, ◌+◌, ◌-◌, ◌≤◌, ◌<◌, ◌^◌, ◌↔◌, ℕ, true, false, List, [], length, take, ◌++◌, Contains, All, OnOk, OnErr, IfOk, IsErrOf, Some, None, IfSome, IfNone, IsSome, ◌∷◌, slice_get};
ghost use Rattle.dq_lits.specs.Literal.{variable_of};
ghost use Rattle.hint_log.specs.Conditions.{AreNamed, HasSides, IsId, AreIds, MayFollow, AreLogged};
ghost use Rattle.hint_log.specs.Entries.{Named, Given, Learned, Answer, Round, Begun, with_entry, is_counted, origin_of, last_id, steps_of, rounds_of, clause_at, hints_at, origin_at, row_at, name_of, names_of};
ghost use Rattle.hint_log.specs.Kept.{entry_by, HasNumbers};
ghost use Rattle.hint_log.specs.Live.{last_live};
ghost use Rattle.hint_log.specs.declared.origins.Origin.TheVariants.{Fault, Differ};
ghost use Rattle.hint_log.specs.declared.origins.Leaf.TheVariants.{Literal as LeafLiteral};
ghost use Rattle.hint_log.specs.declared.names.Name.{Name};

use crate::kept_names::Names;
use crate::kinds::{ClauseKind, EntryKind, KeptRound, kept_hints, kept_origin};
use crate::names::Name;
use crate::origins::{Leaf, Origin};
use crate::stops::Stop;
use dq_lits::{Lit, Memory, Row};
use flat_lists::FlatLists;
use std::alloc::Global;
use std::marker::Model;

/// The proof log of a search.
#[derive(Drop)]
pub struct Log {
    alloc: Global,
    limit: u64,
    steps: u64,
    // What each entry is, in order of time.
    entries: Vec<EntryKind>,
    names: Names,
    // The clauses by id.
    kinds: Vec<ClauseKind>,
    literals: FlatLists<Lit>,
    numbers: FlatLists<u64>,
    rounds: Vec<KeptRound>,
    // Of each beginning, how many of the last live clauses stay, and the numbers of those that are
    // added: a search over the clauses of the last one and a few more costs those few.
    stays: Vec<usize>,
    added: FlatLists<u64>,
}

impl Model for Log {
    ghost use Rattle.hint_log.specs.Entries.{ProofLog};
    ghost use Rattle.hint_log.specs.Kept.{log_entries, kept_lives, IsKept};

    ghost Value = { ProofLog };

    ghost view = { λ l.
        record {
          limit = l.limit;
          entries = log_entries l.entries.items l.names l.kinds.items l.literals l.numbers
              l.rounds.items (kept_lives l.stays.items l.added);
        } };

    ghost invariant = { λ l.
        IsKept l.limit l.steps l.entries.items l.names l.kinds.items l.literals l.numbers
        l.rounds.items (kept_lives l.stays.items l.added) };
}

impl Log {
    /// No entries, and room for so many counted ones. It takes no memory.
    pub fn new(alloc: Global, limit: u64) -> Log
        ensures { result ≡ record { limit = limit; entries = [] } }
    {
        Log {
            alloc,
            limit,
            steps: 0,
            entries: Vec::new(alloc),
            names: Names::new(alloc),
            kinds: Vec::new(alloc),
            literals: FlatLists::new(alloc),
            numbers: FlatLists::new(alloc),
            rounds: Vec::new(alloc),
            stays: Vec::new(alloc),
            added: FlatLists::new(alloc),
        }
    }

    /// Takes all entries away, and sets the limit.
    pub fn rewind(&mut self, limit: u64)
        ensures { self.new ≡ record { limit = limit; entries = [] } }
    {
        self.limit = limit;
        self.steps = 0;
        self.entries.clear();
        self.names.clear();
        self.kinds.clear();
        self.literals.clear();
        self.numbers.clear();
        self.rounds.clear();
        self.stays.clear();
        self.added.clear();
    }

    /// Names a variable.
    pub fn named(&mut self, var: u64, name: Name) -> Result<(), Memory>
        requires from_one { 1 ≤ var }
        requires in_range { var < 2 ^ 62 }
        requires unnamed { name_of self.old.entries var ≡ None }
        requires fresh { (v : ℕ) → name_of self.old.entries v ≡ Some name → ⊥ }
        requires sides { HasSides self.old.entries name }
        ensures ok { OnOk result (self.new ≡ with_entry self.old (Named var name)) }
        ensures err { OnErr result (self.new ≡ self.old) }
    {
        self.entries.reserve(1)?;
        self.names.insert(var, name)?;
        self.entries.push(EntryKind::Naming).unwrap();
        Ok(())
    }

    /// Logs a clause that was put to the solver, and answers its id.
    pub fn given(&mut self, origin: Origin, lits: &[Lit]) -> Result<u64, Memory>
        requires { AreNamed self.old.entries lits.now }
        ensures ok { OnOk result (self.new ≡ with_entry self.old (Given origin lits.now)) }
        ensures id { IfOk result (λ id. id ≡ last_id self.new.entries) }
        ensures err { OnErr result (self.new ≡ self.old) }
    {
        match origin {
            Origin::Instance { round, clause } => {
                self.append(ClauseKind::OfInstance, lits, &[round, clause])
            }
            Origin::Gate { variable, part } => {
                self.append(ClauseKind::OfGate, lits, &[variable, part])
            }
            Origin::Fault {
                clause,
                place,
                output,
            } => { self.append_fault(lits, clause, place, output) }
            Origin::Copy { side, clause } => {
                self.append(ClauseKind::OfCopy, lits, &[side, clause])
            }
            Origin::Link { variable, part } => {
                self.append(ClauseKind::OfLink, lits, &[variable, part])
            }
            Origin::TermGate { variable, part } => {
                self.append(ClauseKind::OfTermGate, lits, &[variable, part])
            }
            Origin::Differ {
                existential,
                output,
                part,
            } => { self.append_differ(lits, existential, part, output) }
        }
    }

    /// Logs an answer with its hints, and answers its id.
    pub fn answer(&mut self, lits: &[Lit], hints: &[u64]) -> Result<u64, Memory>
        requires named { AreNamed self.old.entries lits.now }
        requires hints { AreIds self.old.entries hints.now }
        ensures ok { OnOk result (self.new ≡ with_entry self.old (Answer lits.now hints.now)) }
        ensures id { IfOk result (λ id. id ≡ last_id self.new.entries) }
        ensures err { OnErr result (self.new ≡ self.old) }
    {
        self.append(ClauseKind::OfAnswer, lits, hints)
    }

    /// Logs a learned clause with its hints, and answers its id, unless the limit is reached.
    pub fn learned(&mut self, lits: &[Lit], hints: &[u64]) -> Result<u64, Stop>
        requires named { AreNamed self.old.entries lits.now }
        requires hints { AreIds self.old.entries hints.now }
        ensures ok { OnOk result (self.new ≡ with_entry self.old (Learned lits.now hints.now)) }
        ensures id { IfOk result (λ id. id ≡ last_id self.new.entries) }
        ensures err { OnErr result (self.new ≡ self.old) }
        ensures limit { IsErrOf result Stop.Limit ↔ (steps_of self.old.entries ≡ self.old.limit) }
    {
        if self.steps == self.limit {
            return Err(Stop::Limit);
        }
        let id = self.append(ClauseKind::OfLemma, lits, hints)?;
        Ok(id)
    }

    /// Logs that candidates failed, unless the limit is reached: a row, the existentials' values
    /// there, and the number of a clause that is false.
    pub fn round(&mut self, row: &Row, values: &Row, j: u64) -> Result<(), Stop>
        ensures ok { OnOk result (self.new ≡ with_entry self.old (Round row.now values.now j)) }
        ensures err { OnErr result (self.new ≡ self.old) }
        ensures limit { IsErrOf result Stop.Limit ↔ (steps_of self.old.entries ≡ self.old.limit) }
    {
        if self.steps == self.limit {
            return Err(Stop::Limit);
        }
        let row = row.copy()?;
        let values = values.copy()?;
        self.append_round(row, values, j)?;
        Ok(())
    }

    /// Logs that a search begins: over the first so many of the clauses of the last search, and
    /// over these. It costs what is added, and no look at what stays.
    pub fn begun(&mut self, stays: usize, more: &[u64]) -> Result<(), Memory>
        ensures ok { OnOk result
            (self.new
            ≡ with_entry self.old (Begun (take stays (last_live self.old.entries) ++ more.now))) }
        ensures err { OnErr result (self.new ≡ self.old) }
    {
        self.entries.reserve(1)?;
        self.stays.reserve(1)?;
        self.added.push(more)?;
        self.stays.push(stays).unwrap();
        self.entries.push(EntryKind::Beginning).unwrap();
        Ok(())
    }

    /// How many entries count as steps: those learned, and the rounds.
    pub fn steps(&self) -> u64
        ensures value { result ≡ steps_of self.now.entries }
        ensures within { result ≤ self.now.limit }
    {
        self.steps
    }

    /// The most entries that count as steps.
    pub fn limit(&self) -> u64
        ensures { result ≡ self.now.limit }
    {
        self.limit
    }

    /// Sets the most entries that count as steps: no fewer than there are.
    pub fn set_limit(&mut self, limit: u64)
        requires { steps_of self.old.entries ≤ limit }
        ensures { self.new ≡ record self.old { limit = limit } }
    {
        self.limit = limit;
    }

    /// What holds of every log. The call does nothing: its contract is for callers' proofs.
    pub fn every_log_is_lawful(&self)
        ensures { AreLogged self.now.entries }
    {
        // A look at a field shows the invariant.
        let _ = &self.limit;
    }

    /// How many rounds there are.
    pub fn rounds(&self) -> u64
        ensures { result ≡ rounds_of self.now.entries }
    {
        self.rounds.len() as u64
    }

    /// The last id; 0 where no entry has one. Ids run from 1 on without gaps.
    pub fn last_id(&self) -> u64
        ensures value { result ≡ last_id self.now.entries }
        ensures few { result < 2 ^ 63 }
    {
        self.kinds.len() as u64
    }

    /// The literals of the clause with an id.
    pub fn clause(&self, id: u64) -> &[Lit]
        requires { IsId self.now.entries id }
        ensures { clause_at self.now.entries id ≡ Some result.now }
    {
        self.literals.get(id as usize - 1)
    }

    /// The hints of the clause with an id: none, where it was given. Each is an earlier id.
    pub fn hints(&self, id: u64) -> &[u64]
        requires { IsId self.now.entries id }
        ensures value { hints_at self.now.entries id ≡ Some result.now }
        ensures earlier { (hint : ℕ) → Contains result.now hint → (1 ≤ hint) × (hint < id) }
    {
        let place = id as usize - 1;
        kept_hints(self.kinds[place], self.numbers.get(place))
    }

    /// The origin of the clause with an id, where it was given.
    pub fn origin(&self, id: u64) -> Option<Origin>
        requires { IsId self.now.entries id }
        ensures { origin_at self.now.entries id ≡ result }
    {
        let place = id as usize - 1;
        kept_origin(self.kinds[place], self.numbers.get(place))
    }

    /// How many variables have names.
    pub fn names(&self) -> usize
        ensures { result ≡ length (names_of self.now.entries) }
    {
        self.names.len()
    }

    /// The variable that was named at a place, from 0, in order of time, and its name.
    pub fn name_at(&self, place: usize) -> (u64, Name)
        requires { place < length (names_of self.now.entries) }
        ensures { slice_get (names_of self.now.entries) place ≡ Some result }
    {
        match self.names.at(place) {
            Some(named) => named,
            None => unreachable!(),
        }
    }

    /// The place of a variable among those that have names, from 0, in order of time, if it has one.
    pub fn place(&self, var: u64) -> Option<usize>
        ensures some { IfSome result
            (λ place. (name : Name)
            × (slice_get (names_of self.now.entries) place ≡ Some (var, name))) }
        ensures none { IfNone result (name_of self.now.entries var ≡ None) }
    {
        self.names.place(var)
    }

    /// The name of a variable.
    pub fn name(&self, var: u64) -> Name
        requires { IsSome (name_of self.now.entries var) }
        ensures { name_of self.now.entries var ≡ Some result }
    {
        match self.names.get(var) {
            Some(name) => name,
            None => unreachable!(),
        }
    }

    /// The row of a round, by its number from 1 on.
    pub fn row(&self, k: u64) -> &Row
        requires from_one { 1 ≤ k }
        requires last { k ≤ rounds_of self.now.entries }
        ensures { row_at self.now.entries k ≡ Some result.now }
    {
        &self.rounds[k as usize - 1].row
    }

    // What the log's memory is taken from.
    pub(crate) fn alloc(&self) -> Global {
        self.alloc
    }

    fn append_fault(
        &mut self,
        lits: &[Lit],
        clause: u64,
        place: u64,
        output: Leaf,
    ) -> Result<u64, Memory>
        requires { AreNamed self.old.entries lits.now }
        ensures ok { OnOk result
            (self.new ≡ with_entry self.old (Given (Fault clause place output) lits.now)) }
        ensures id { IfOk result (λ id. id ≡ last_id self.new.entries) }
        ensures err { OnErr result (self.new ≡ self.old) }
    {
        match output {
            Leaf::Constant(false) => self.append(ClauseKind::OfFalseFault, lits, &[clause, place]),
            Leaf::Constant(true) => self.append(ClauseKind::OfTrueFault, lits, &[clause, place]),
            Leaf::Literal(l) => self.append_output(lits, clause, place, &l),
        }
    }

    fn append_output(
        &mut self,
        lits: &[Lit],
        clause: u64,
        place: u64,
        output: &Lit,
    ) -> Result<u64, Memory>
        requires { AreNamed self.old.entries lits.now }
        ensures ok { OnOk result
            (self.new
            ≡ with_entry self.old
            (Given (Fault clause place (LeafLiteral output.now)) lits.now)) }
        ensures id { IfOk result (λ id. id ≡ last_id self.new.entries) }
        ensures err { OnErr result (self.new ≡ self.old) }
    {
        let variable = output.var();
        if output.is_neg() {
            self.append(
                ClauseKind::OfNegativeFault,
                lits,
                &[clause, place, variable],
            )
        } else {
            self.append(
                ClauseKind::OfPositiveFault,
                lits,
                &[clause, place, variable],
            )
        }
    }

    fn append_differ(
        &mut self,
        lits: &[Lit],
        existential: u64,
        part: u64,
        output: Leaf,
    ) -> Result<u64, Memory>
        requires { AreNamed self.old.entries lits.now }
        ensures ok { OnOk result
            (self.new ≡ with_entry self.old (Given (Differ existential output part) lits.now)) }
        ensures id { IfOk result (λ id. id ≡ last_id self.new.entries) }
        ensures err { OnErr result (self.new ≡ self.old) }
    {
        match output {
            Leaf::Constant(false) => self.append(
                ClauseKind::OfFalseDiffer,
                lits,
                &[existential, part],
            ),
            Leaf::Constant(true) => self.append(
                ClauseKind::OfTrueDiffer,
                lits,
                &[existential, part],
            ),
            Leaf::Literal(l) => self.append_difference(lits, existential, part, &l),
        }
    }

    fn append_difference(
        &mut self,
        lits: &[Lit],
        existential: u64,
        part: u64,
        output: &Lit,
    ) -> Result<u64, Memory>
        requires { AreNamed self.old.entries lits.now }
        ensures ok { OnOk result
            (self.new
            ≡ with_entry self.old
            (Given (Differ existential (LeafLiteral output.now) part) lits.now)) }
        ensures id { IfOk result (λ id. id ≡ last_id self.new.entries) }
        ensures err { OnErr result (self.new ≡ self.old) }
    {
        let variable = output.var();
        if output.is_neg() {
            self.append(
                ClauseKind::OfNegativeDiffer,
                lits,
                &[existential, part, variable],
            )
        } else {
            self.append(
                ClauseKind::OfPositiveDiffer,
                lits,
                &[existential, part, variable],
            )
        }
    }

    // Adds a clause, and answers its id.
    fn append(&mut self, kind: ClauseKind, lits: &[Lit], numbers: &[u64]) -> Result<u64, Memory>
        requires counted { is_counted (entry_by kind lits.now numbers.now) ≡ true
            → steps_of self.old.entries < self.old.limit }
        requires asked { MayFollow self.old.entries (entry_by kind lits.now numbers.now) }
        requires numbers { HasNumbers kind numbers.now }
        ensures ok { OnOk result
            (self.new ≡ with_entry self.old (entry_by kind lits.now numbers.now)) }
        ensures id { IfOk result (λ id. id ≡ last_id self.new.entries) }
        ensures err { OnErr result (self.new ≡ self.old) }
    {
        self.entries.reserve(1)?;
        self.kinds.reserve(1)?;
        self.numbers.push(numbers)?;
        match self.literals.push(lits) {
            Ok(()) => {}
            Err(_) => {
                self.numbers.pop();
                return Err(Memory);
            }
        }
        self.steps += kind.steps();
        self.entries.push(EntryKind::Clause).unwrap();
        self.kinds.push(kind).unwrap();
        Ok(self.kinds.len() as u64)
    }

    fn append_round(&mut self, row: Row, values: Row, j: u64) -> Result<(), Memory>
        requires { steps_of self.old.entries < self.old.limit }
        ensures ok { OnOk result (self.new ≡ with_entry self.old (Round row values j)) }
        ensures err { OnErr result (self.new ≡ self.old) }
    {
        self.entries.reserve(1)?;
        self.rounds.push(KeptRound {
            row,
            values,
            clause: j,
        })?;
        self.steps += 1;
        self.entries.push(EntryKind::Failure).unwrap();
        Ok(())
    }
}
