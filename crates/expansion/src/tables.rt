//! The instances of a matrix under the rounds' rows.

ghost use Rattle.std.specs.Prelude.{◌≡◌, ◌≢◌, All, map, ◌≤◌, ◌+◌, ◌-◌, ◌++◌, ◌∷◌, [], ℕ, List, length, true, false, OnOk, OnErr, IfOk, IsErrOf, Some, None, Ok, Contains, slice_get};
ghost use Rattle.std.specs.List.{AllPairs};
ghost use Rattle.dq_lits.specs.Literal.{positive};
ghost use Rattle.dq_lits.specs.Formula.{Dqbf, IsWellFormed};
ghost use Rattle.dq_lits.specs.Expansion.{IsExpansionUnsatisfiable};
ghost use Rattle.hint_log.specs.Entries.{Entry, Named, with_entry, name_of};
ghost use Rattle.hint_log.specs.Growth.{Grew};
ghost use Rattle.hint_log.specs.Naming.{rows_of};
ghost use Rattle.hint_log.specs.ProductiveLog.{fault_groups, fault_room};
ghost use Rattle.log_laws.specs.Engines.{instances, IsAddedBy, HasNone};
ghost use Rattle.hint_log.specs.declared.names.Name.TheVariants.{Selector};
ghost use Rattle.oracle.specs.Calls.{IsMade, IsRefutedUnder};
ghost use Rattle.oracle.specs.Limits.{IsAtLimit};
ghost use Rattle.expansion.specs.Table.{PointState, IsTable, IsFullTable, ArePoints, point_bits, IsRefutedBy};
ghost use Rattle.expansion.specs.Adding.{IsRowEntry};
ghost use Rattle.expansion.specs.FirstRows.{IsRowIndex, AreFirstRows};
ghost use Rattle.expansion.specs.Searches.{pair_variable, switches, HoldInstances, IsSearchEntry, AreFound};
ghost use Rattle.expansion.specs.Silence.{is_silent};

use crate::first_rows::FirstRows;
use crate::new_rows::{NewRow, PairedRow};
use crate::points::{Points, place_by_order, places_in_order};
use dq_formula::Formula;
use dq_lits::{Memory, Row, RowList};
use flat_lists::FlatLists;
use hint_log::{Log, Stop};
use log_laws::laws::instances_have_no_model;
use oracle::{Answer, Group, Oracle};
use std::alloc::Global;
use std::marker::Model;

/// Whether the instances have a model.
#[derive(Drop)]
pub enum Exp {
    /// They have: a bit for each pair.
    Model(Points),
    /// They have none; the logged answer of this id shows it.
    Refuted(u64),
}

/// The instances of the matrix under some rows.
#[derive(Drop)]
pub struct Table {
    pub(crate) alloc: Global,
    pub(crate) group: Group,
    pub(crate) existentials: Vec<u64>,
    // Their places, in order of the variables.
    pub(crate) order: Vec<usize>,
    pub(crate) rows: RowList,
    // For each row the variables of its pairs, in order of the existentials.
    pub(crate) pairs: FlatLists<u64>,
    pub(crate) first_rows: FirstRows,
}

impl Model for Table {
    ghost use Rattle.std.specs.Prelude.{◌≡◌, false};
    ghost use Rattle.dq_lits.specs.Literal.{variable_of, is_negative};
    ghost use Rattle.expansion.specs.Table.{TableState};

    ghost Value = { TableState };

    ghost view = { λ t.
        record {
          group = variable_of t.group.selector;
          existentials = t.existentials.items;
          rows = t.rows;
          pairs = t.pairs;
          first_rows = t.first_rows;
        } };

    ghost invariant = { λ t. is_negative t.group.selector ≡ false };
}

impl Table {
    /// A table without rows.
    pub fn new<O: Oracle>(
        alloc: Global,
        oracle: &mut O,
        f: &Formula,
        log: &mut Log,
    ) -> Result<Table, Memory>
        requires fit { O.Fits oracle.old log.old }
        requires none { HasNone instances log.old.entries }
        ensures fit { O.Fits oracle.new log.new }
        ensures grew { (group : ℕ)
            → Grew (IsAddedBy f.now instances group true log.old.entries) log.old log.new }
        ensures unnamed { IfOk result (λ t. name_of log.old.entries t.group ≡ None) }
        ensures named { IfOk result
            (λ t. log.new ≡ with_entry log.old (Named t.group (Selector t.group))) }
        ensures err { OnErr result (log.new ≡ log.old) }
        ensures made { IfOk result (λ t. IsTable f.now t log.new.entries) }
        ensures rows { IfOk result (λ t. t.rows ≡ []) }
    {
        let existentials = Vec::from_slice(alloc, f.existentials())?;
        let order = places_in_order(alloc, &existentials)?;
        let first_rows = FirstRows::new(alloc, f)?;
        let who = oracle.tenant()?;
        let group = oracle.group(&who, log)?;
        Ok(Table {
            alloc,
            group,
            existentials,
            order,
            rows: RowList::new(alloc),
            pairs: FlatLists::new(alloc),
            first_rows,
        })
    }

    /// How many rows there are.
    pub fn rows(&self) -> u64
        ensures { result ≡ length self.now.rows }
    {
        self.rows.items().len() as u64
    }

    /// The row of a round, by its number from 1 on.
    pub fn row(&self, k: u64) -> &Row
        requires from_one { 1 ≤ k }
        requires last { k ≤ length self.now.rows }
        ensures { slice_get self.now.rows (k - 1) ≡ Some result.now }
    {
        &self.rows.items()[k as usize - 1]
    }

    /// Adds the row of the newest round, and gives the oracle the instances of the matrix under it,
    /// each once. Where memory is wanting the table stays as it was, but for what it knows of the
    /// order of its rows.
    pub fn add_row<O: Oracle>(
        &mut self,
        oracle: &mut O,
        f: &Formula,
        row: &Row,
        log: &mut Log,
    ) -> Result<(), Memory>
        requires fit { O.Fits oracle.old log.old }
        requires formula { IsWellFormed f.now }
        requires table { IsTable f.now self.old log.old.entries }
        requires rows { rows_of log.old.entries ≡ self.old.rows ++ row.now ∷ [] }
        requires row_length { length row.now ≡ length f.now.universals }
        requires few { length (fault_groups log.old.entries) ≤ fault_room log.old.entries }
        ensures fit { O.Fits oracle.new log.new }
        ensures grew { (first : List Entry)
            → Grew (IsAddedBy f.now instances self.old.group true first) log.old log.new }
        ensures added { Grew (IsRowEntry f.now self.old.group) log.old log.new }
        ensures group { self.new.group ≡ self.old.group }
        ensures table { OnOk result (IsFullTable f.now self.new log.new.entries) }
        ensures rows { OnOk result (self.new.rows ≡ self.old.rows ++ row.now ∷ []) }
        ensures err { OnErr result
            (self.new ≡ record self.old { first_rows = self.new.first_rows }) }
    {
        let new = NewRow { f, row };
        let firsts = self.find_rows(&new)?;
        self.add_found(oracle, &new, &firsts, log)
    }

    // The same, where the first rows that agree with it are found.
    fn add_found<O: Oracle>(
        &mut self,
        oracle: &mut O,
        new: &NewRow,
        firsts: &[usize],
        log: &mut Log,
    ) -> Result<(), Memory>
        requires fit { O.Fits oracle.old log.old }
        requires formula { IsWellFormed new.now.f.now }
        requires table { IsTable new.now.f.now self.old log.old.entries }
        requires rows { rows_of log.old.entries ≡ self.old.rows ++ new.now.row.now ∷ [] }
        requires few { length (fault_groups log.old.entries) ≤ fault_room log.old.entries }
        requires firsts { AreFirstRows new.now.f.now self.old.rows new.now.row.now
            (length new.now.f.now.existentials) firsts.now }
        ensures fit { O.Fits oracle.new log.new }
        ensures added { Grew (IsRowEntry new.now.f.now self.old.group) log.old log.new }
        ensures group { self.new.group ≡ self.old.group }
        ensures table { OnOk result (IsFullTable new.now.f.now self.new log.new.entries) }
        ensures rows { OnOk result (self.new.rows ≡ self.old.rows ++ new.now.row.now ∷ []) }
        ensures err { OnErr result (self.new ≡ self.old) }
    {
        let copy = new.row.copy()?;
        let variables = self.row_pairs(oracle, new, firsts, log)?;
        let paired = PairedRow {
            f: new.f,
            row: new.row,
            variables: &variables,
        };
        self.give_instances(oracle, &paired, log)?;
        self.push(copy, &variables)
    }

    // For each existential, the place of the first row that agrees with this one on what it sees.
    fn find_rows(&mut self, new: &NewRow) -> Result<Vec<usize>, Memory>
        requires whole { All (λ r. length r ≡ length new.now.f.now.universals) self.old.rows }
        requires index { IsRowIndex new.now.f.now self.old.rows self.old.first_rows }
        ensures same { self.new ≡ record self.old { first_rows = self.new.first_rows } }
        ensures index { IsRowIndex new.now.f.now self.new.rows self.new.first_rows }
        ensures firsts { IfOk result (λ firsts. AreFirstRows new.now.f.now self.new.rows
            new.now.row.now (length new.now.f.now.existentials) firsts.items) }
    {
        self.first_rows.find_all(self.alloc, new, self.rows.items())
    }

    // Adds a row with the variables of its pairs.
    fn push(&mut self, row: Row, variables: &[u64]) -> Result<(), Memory>
        ensures group { self.new.group ≡ self.old.group }
        ensures existentials { self.new.existentials ≡ self.old.existentials }
        ensures first_rows { self.new.first_rows ≡ self.old.first_rows }
        ensures rows { OnOk result (self.new.rows ≡ self.old.rows ++ row ∷ []) }
        ensures pairs { OnOk result (self.new.pairs ≡ self.old.pairs ++ variables.now ∷ []) }
        ensures err { OnErr result (self.new ≡ self.old) }
    {
        self.pairs.push(variables)?;
        if let Err(refused) = self.rows.push(row) {
            self.pairs.pop();
            return Err(refused);
        }
        Ok(())
    }

    /// A model of all instances, or an answer that there is none. It stops for want of memory or at
    /// the log's limit, and may be called again then.
    pub fn solve<O: Oracle>(&mut self, oracle: &mut O, log: &mut Log) -> Result<Exp, Stop>
        requires fit { O.Fits oracle.old log.old }
        requires table { (f : Dqbf) × IsFullTable f self.old log.old.entries }
        ensures fit { O.Fits oracle.new log.new }
        ensures same { self.new ≡ self.old }
        ensures grew { (f : Dqbf) → IsFullTable f self.old log.old.entries
            → Grew (IsAddedBy f instances self.old.group (is_silent result) log.old.entries) log.old
            log.new }
        ensures table { (f : Dqbf) → IsFullTable f self.old log.old.entries
            → IsFullTable f self.new log.new.entries }
        ensures point_variables { (points : PointState) → result ≡ Ok (Exp.Model points)
            → points.variables ≡ self.old.existentials }
        ensures point_rows { (points : PointState) → result ≡ Ok (Exp.Model points)
            → length points.rows ≡ length self.old.rows }
        ensures model { (f : Dqbf) (points : PointState) → IsFullTable f self.old log.old.entries
            → result ≡ Ok (Exp.Model points)
            → ArePoints f self.old.rows (point_bits points) }
        ensures refuted { (f : Dqbf) (id : ℕ) → IsFullTable f self.old log.old.entries
            → result ≡ Ok (Exp.Refuted id) → IsExpansionUnsatisfiable f self.old.rows }
        ensures shown { (id : ℕ) → result ≡ Ok (Exp.Refuted id) → IsRefutedBy log.new.entries id }
        ensures limit { IsErrOf result Stop.Limit → IsAtLimit log.new (positive self.old.group ∷ []) }
    {
        instances_have_no_model();
        self.solve_with(oracle, &[], log)
    }

    /// The same over the table's instances and the clauses of further groups, which hold instances
    /// alone.
    pub fn solve_with<O: Oracle>(
        &mut self,
        oracle: &mut O,
        more: &[Group],
        log: &mut Log,
    ) -> Result<Exp, Stop>
        requires fit { O.Fits oracle.old log.old }
        requires table { (f : Dqbf) × IsFullTable f self.old log.old.entries }
        requires made { All (IsMade log.old.entries) more.now }
        requires instances { HoldInstances more.now log.old.entries }
        ensures fit { O.Fits oracle.new log.new }
        ensures same { self.new ≡ self.old }
        ensures grew { Grew (IsSearchEntry (is_silent result)) log.old log.new }
        ensures table { (f : Dqbf) → IsFullTable f self.old log.old.entries
            → IsFullTable f self.new log.new.entries }
        ensures model { (points : PointState) → result ≡ Ok (Exp.Model points)
            → AreFound self.old log.new.entries (switches self.old more.now) points }
        ensures refuted { (id : ℕ) → result ≡ Ok (Exp.Refuted id)
            → IsRefutedUnder log.old log.new (switches self.old more.now) id }
        ensures shown { (id : ℕ) → result ≡ Ok (Exp.Refuted id) → IsRefutedBy log.new.entries id }
        ensures limit { IsErrOf result Stop.Limit
            → IsAtLimit log.new (switches self.old more.now) }
    {
        oracle.focus(&self.focus()?)?;
        let active = self.with_own(more)?;
        match oracle.solve(&active, &[], log)? {
            Answer::Unsat(id) => Ok(Exp::Refuted(id)),
            Answer::Sat => Ok(Exp::Model(self.points(oracle)?)),
        }
    }

    // The table's group, and further ones.
    fn with_own(&self, more: &[Group]) -> Result<Vec<Group>, Memory>
        ensures switches { IfOk result
            (λ groups. map (λ g. g.selector) groups.items ≡ switches self.now more.now) }
        ensures made { (entries : List Entry)
            → name_of entries self.now.group ≡ Some (Selector self.now.group)
            → All (IsMade entries) more.now
            → IfOk result (λ groups. All (IsMade entries) groups.items) }
    {
        let mut groups = vec![in self.alloc; self.group; 1]?;
        groups.extend_from_slice(more)?;
        Ok(groups)
    }

    /// The variable of the pair of an existential under the row of a round, by its number from 1
    /// on.
    pub fn pair(&self, y: u64, k: u64) -> u64
        requires from_one { 1 ≤ k }
        requires last { k ≤ length self.now.rows }
        requires existential { Contains self.now.existentials y }
        requires table { (f : Dqbf) × (entries : List Entry) × IsWellFormed f
            × IsTable f self.now entries }
        ensures { result ≡ pair_variable self.now y k }
    {
        let variables = self.pairs.get(k as usize - 1);
        variables[place_by_order(&self.existentials, &self.order, y)]
    }

    // The values that a search found, at the pairs.
    fn points<O: Oracle>(&self, oracle: &O) -> Result<Points, Memory>
        requires told { O.is_told oracle.now ≡ true }
        requires made { All (All (O.HasVariable oracle.now)) self.now.pairs }
        requires distinct { AllPairs (λ v w. v ≢ w) self.now.existentials }
        ensures variables { IfOk result (λ points. points.variables ≡ self.now.existentials) }
        ensures bits { IfOk result
            (λ points. points.rows ≡ map (map (O.values oracle.now)) self.now.pairs) }
    {
        let existentials = Vec::from_slice(self.alloc, &self.existentials)?;
        let order = Vec::from_slice(self.alloc, &self.order)?;
        let mut bits = RowList::new(self.alloc);
        for place in 0..self.pairs.len() {
            bits.push(row_of_values(self.alloc, oracle, self.pairs.get(place))?)?;
        }
        Ok(Points {
            existentials,
            order,
            bits,
        })
    }
}

// The values of these variables, in order.
fn row_of_values<O: Oracle>(alloc: Global, oracle: &O, variables: &[u64]) -> Result<Row, Memory>
    requires told { O.is_told oracle.now ≡ true }
    requires made { All (O.HasVariable oracle.now) variables.now }
    ensures { IfOk result (λ row. row ≡ map (O.values oracle.now) variables.now) }
{
    let mut row = Row::new(alloc, variables.len())?;
    for (place, variable) in variables.iter().enumerate() {
        row.set(place, oracle.value(*variable));
    }
    Ok(row)
}
