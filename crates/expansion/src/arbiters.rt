//! The variables of a new row's pairs.

ghost use Rattle.std.specs.Prelude.{◌≡◌, ◌<◌, ◌+◌, ℕ, Bool, List, true, All, length, IfOk, OnOk, OnErr, IsSome, Some};
ghost use Rattle.std.specs.List.{position_or_len};
ghost use Rattle.dq_lits.specs.Formula.{Dqbf, Existential, IsWellFormed, existential_of};
ghost use Rattle.dq_lits.specs.Expansion.{agree_on};
ghost use Rattle.hint_log.specs.Entries.{Entry, name_of};
ghost use Rattle.hint_log.specs.Growth.{Grew};
ghost use Rattle.log_laws.specs.Engines.{instances, part};
ghost use Rattle.expansion.specs.Adding.{IsAdding, IsRowEntry, AreNewArbiters, IsNamedNext};
ghost use Rattle.expansion.specs.FirstRows.{IsFirstRow, AreFirstRows};

use crate::new_rows::NewRow;
use crate::tables::Table;
use dq_lits::Memory;
use hint_log::{Log, Name};
use oracle::Oracle;

impl Table {
    // The variables of a new row's pairs, in order of the existentials, where these are the first
    // rows that agree with it.
    pub(crate) fn row_pairs<O: Oracle>(
        &self,
        oracle: &mut O,
        new: &NewRow,
        firsts: &[usize],
        log: &mut Log,
    ) -> Result<Vec<u64>, Memory>
        requires fit { O.Fits oracle.old log.old }
        requires adding { IsAdding new.now.f.now self.now new.now.row.now 0 0 log.old.entries }
        requires formula { IsWellFormed new.now.f.now }
        requires firsts { AreFirstRows new.now.f.now self.now.rows new.now.row.now
            (length new.now.f.now.existentials) firsts.now }
        ensures fit { O.Fits oracle.new log.new }
        ensures grew { Grew (IsRowEntry new.now.f.now self.now.group) log.old log.new }
        ensures adding { OnOk result (IsAdding new.now.f.now self.now new.now.row.now
            (length new.now.f.now.existentials) 0 log.new.entries) }
        ensures variables { IfOk result (λ vs. AreNewArbiters new.now.f.now self.now
            new.now.row.now log.new.entries vs.items) }
    {
        let mut variables = Vec::new(self.alloc);
        for place in 0..new.f.existentials().len() {
            let v = self.arbiter(oracle, place, firsts[place], log)?;
            variables.push(v)?;
        }
        Ok(variables)
    }

    // The variable of the pair of the existential at a place under the row that is added: that of
    // the first row that agrees with it on what the existential sees, or, where no row does, one of
    // its own.
    fn arbiter<O: Oracle>(
        &self,
        oracle: &mut O,
        place: usize,
        first: usize,
        log: &mut Log,
    ) -> Result<u64, Memory>
        requires fit { O.Fits oracle.old log.old }
        requires place { place < length self.now.existentials }
        requires adding { (f : Dqbf) × (row : List Bool) × IsWellFormed f
            × IsAdding f self.now row place 0 log.old.entries
            × IsFirstRow f self.now.rows row place first }
        ensures fit { O.Fits oracle.new log.new }
        ensures err { OnErr result (log.new ≡ log.old) }
        ensures named { (f : Dqbf) (row : List Bool) → IsWellFormed f
            → IsAdding f self.now row place 0 log.old.entries
            → IsFirstRow f self.now.rows row place first
            → IfOk result (λ v. IsNamedNext f self.now row place v log.old log.new) }
    {
        if first < self.pairs.len() {
            return Ok(self.pairs.get(first)[place]);
        }
        let name = Name::Pair {
            round: self.next_round(),
            existential: self.existentials[place],
        };
        oracle.new_var(name, log)
    }

    // The number of the round whose row is added.
    pub(crate) fn next_round(&self) -> u64
        ensures { result ≡ length self.now.rows + 1 }
    {
        self.rows.items().len() as u64 + 1
    }
}
