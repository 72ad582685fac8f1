//! Instances that are given: those of the matrix under a new row, and one of a further clause.

ghost use Rattle.std.specs.Prelude.{◌≡◌, ◌≤◌, ◌<◌, ◌^◌, ◌+◌, ◌-◌, ℕ, List, Bool, true, All, map, length, Some, slice_get, IfOk, OnOk, OnErr};
ghost use Rattle.std.specs.List.{list_any, filter_map};
ghost use Rattle.dq_lits.specs.Formula.{IsWellFormed};
ghost use Rattle.dq_lits.specs.Literal.{variable_of};
ghost use Rattle.dq_lits.specs.Expansion.{universal_literal_true};
ghost use Rattle.hint_log.specs.Entries.{Entry, name_of};
ghost use Rattle.hint_log.specs.Growth.{Grew};
ghost use Rattle.hint_log.specs.Naming.{AreNamedAs, on_arbiter};
ghost use Rattle.log_laws.specs.Engines.{instances, part};
ghost use Rattle.expansion.specs.Adding.{IsAdding, IsRowEntry, AreNewArbiters, IsGivenNext, AreInRange, signed};
ghost use Rattle.expansion.specs.Giving.{IsGivenInstance};
ghost use Rattle.expansion.specs.Table.{AreArbiters, IsFullTable};
ghost use Rattle.oracle.specs.Calls.{IsMade};

use crate::new_rows::PairedRow;
use crate::tables::Table;
use dq_formula::Formula;
use dq_lits::{Lit, Memory};
use hint_log::{Log, Origin};
use oracle::{Group, Oracle};
use std::alloc::Global;

/// A clause, with its number from 1 on.
#[derive(Clone, Copy)]
pub struct NumberedClause<'c> {
    pub number: u64,
    pub literals: &'c [Lit],
}

impl Table {
    /// Gives a group the instance of a clause under the row of a round: its literals on the
    /// formula's existentials, on the variables of their pairs. Nothing is given where a universal
    /// makes the clause true there.
    pub fn give<O: Oracle>(
        &self,
        oracle: &mut O,
        group: &Group,
        f: &Formula,
        clause: &NumberedClause,
        k: u64,
        log: &mut Log,
    ) -> Result<(), Memory>
        requires fit { O.Fits oracle.old log.old }
        requires made { IsMade log.old.entries group.now }
        requires table { IsFullTable f.now self.now log.old.entries }
        requires from_one { 1 ≤ k }
        requires last { k ≤ length self.now.rows }
        ensures fit { O.Fits oracle.new log.new }
        ensures err { OnErr result (log.new ≡ log.old) }
        ensures given { (row : List Bool) → slice_get self.now.rows (k - 1) ≡ Some row
            → OnOk result
            (IsGivenInstance f.now (variable_of group.now.selector) self.now.rows row k
            clause.now.number clause.now.literals.now log.old log.new) }
    {
        let place = k as usize - 1;
        let paired = PairedRow {
            f,
            row: &self.rows.items()[place],
            variables: self.pairs.get(place),
        };
        self.give_on(oracle, group, &paired, clause, k, log)
    }

    // The same under a row whose pairs have these variables.
    fn give_on<O: Oracle>(
        &self,
        oracle: &mut O,
        group: &Group,
        paired: &PairedRow,
        clause: &NumberedClause,
        k: u64,
        log: &mut Log,
    ) -> Result<(), Memory>
        requires fit { O.Fits oracle.old log.old }
        requires made { IsMade log.old.entries group.now }
        requires row_length { length paired.now.row.now ≡ length paired.now.f.now.universals }
        requires arbiters { (rows : List (List Bool))
            × AreArbiters paired.now.f.now (part instances log.old.entries) rows
            paired.now.row.now paired.now.variables.now }
        ensures fit { O.Fits oracle.new log.new }
        ensures err { OnErr result (log.new ≡ log.old) }
        ensures given { (rows : List (List Bool))
            → AreArbiters paired.now.f.now (part instances log.old.entries) rows
            paired.now.row.now paired.now.variables.now
            → OnOk result
            (IsGivenInstance paired.now.f.now (variable_of group.now.selector) rows
            paired.now.row.now k clause.now.number clause.now.literals.now log.old log.new) }
    {
        if paired.f.has_true_universal(paired.row, clause.literals) {
            return Ok(());
        }
        let literals = on_arbiters(self.alloc, paired.f, paired.variables, clause.literals)?;
        let origin = Origin::Instance {
            round: k,
            clause: clause.number,
        };
        oracle.add(group, &literals, origin, log)?;
        Ok(())
    }

    // Gives the instances of all clauses under the new row, whose pairs have these variables.
    pub(crate) fn give_instances<O: Oracle>(
        &self,
        oracle: &mut O,
        new: &PairedRow,
        log: &mut Log,
    ) -> Result<(), Memory>
        requires fit { O.Fits oracle.old log.old }
        requires adding { IsAdding new.now.f.now self.now new.now.row.now
            (length new.now.f.now.existentials) 0 log.old.entries }
        requires formula { IsWellFormed new.now.f.now }
        requires variables { AreNewArbiters new.now.f.now self.now new.now.row.now
            log.old.entries new.now.variables.now }
        ensures fit { O.Fits oracle.new log.new }
        ensures grew { Grew (IsRowEntry new.now.f.now self.now.group) log.old log.new }
        ensures adding { OnOk result (IsAdding new.now.f.now self.now new.now.row.now
            (length new.now.f.now.existentials) (length new.now.f.now.matrix)
            log.new.entries) }
        ensures variables { OnOk result (AreNewArbiters new.now.f.now self.now new.now.row.now
            log.new.entries new.now.variables.now) }
    {
        for j in 0..new.f.clauses() {
            self.give_instance(oracle, new, j, log)?;
        }
        Ok(())
    }

    // Gives the instance of a clause, unless a universal makes it true.
    fn give_instance<O: Oracle>(
        &self,
        oracle: &mut O,
        new: &PairedRow,
        j: usize,
        log: &mut Log,
    ) -> Result<(), Memory>
        requires fit { O.Fits oracle.old log.old }
        requires clause { j < length new.now.f.now.matrix }
        requires adding { IsAdding new.now.f.now self.now new.now.row.now
            (length new.now.f.now.existentials) j log.old.entries }
        requires variables { AreNewArbiters new.now.f.now self.now new.now.row.now
            log.old.entries new.now.variables.now }
        ensures fit { O.Fits oracle.new log.new }
        ensures err { OnErr result (log.new ≡ log.old) }
        ensures given { OnOk result (IsGivenNext new.now.f.now self.now new.now.row.now j
            log.old log.new) }
    {
        new.f.every_formula_is_lawful();
        let clause = NumberedClause {
            number: j as u64 + 1,
            literals: new.f.clause(j),
        };
        self.give_on(oracle, &self.group, new, &clause, self.next_round(), log)
    }
}

// The existential literals of a clause, on the variables of their pairs.
fn on_arbiters(
    alloc: Global,
    f: &Formula,
    variables: &[u64],
    clause: &[Lit],
) -> Result<Vec<Lit>, Memory>
    requires each { length variables.now ≡ length f.now.existentials }
    requires in_range { AreInRange variables.now }
    ensures { (own : List Entry) (rows : List (List Bool)) (row : List Bool)
        → AreArbiters f.now own rows row variables.now
        → IfOk result
        (λ literals.
        AreNamedAs own literals.items (filter_map (on_arbiter f.now rows row) clause.now)) }
{
    let mut literals = Vec::new(alloc);
    for l in clause {
        if let Some(place) = f.existential_place(l.var()) {
            literals.push(with_sign(variables[place], l.is_neg()))?;
        }
    }
    Ok(literals)
}

fn with_sign(variable: u64, negated: bool) -> Lit
    requires from_one { 1 ≤ variable }
    requires in_range { variable < 2 ^ 62 }
    ensures { result ≡ signed negated variable }
{
    if negated {
        Lit::neg(variable)
    } else {
        Lit::pos(variable)
    }
}
