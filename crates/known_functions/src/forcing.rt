//! The rules that the clauses force, which are asked for at each new row.
//!
//! A rule is asked for where it pays: not where an existential sees at most five universals, nor
//! after eight answers that its bit wasn't forced, nor where its bit can be turned in the model at
//! the newest row; at most 64 in a round. Each answer stays in the solver as a clause of as many
//! literals as the existential sees.

ghost use Rattle.std.specs.Prelude.{◌≡◌, ◌<◌, ◌≤◌, length, All, IfOk, IfSome, IsErrOf};
ghost use Rattle.dq_lits.specs.Formula.{Dqbf, IsWellFormed};
ghost use Rattle.dq_formula.specs.Prefix.{existential_variables};
ghost use Rattle.dq_formula.specs.Rules.{IsRule};
ghost use Rattle.dq_formula.specs.declared.rules.Rule.{Rule as RuleState};
ghost use Rattle.known_functions.specs.Forcing.{HasForced, IsModelOf, MayForce};
ghost use Rattle.oracle.specs.Limits.{IsAtSomeLimit};

use crate::definitions::{Definitions, ExistentialAt};
use crate::samples::Sample;
use crate::stated_rules::stated_rule;
use definability::{Definability, Forced};
use dq_formula::{Formula, Rule};
use dq_lits::Memory;
use expansion::{Points, Table};
use hint_log::{Log, Stop};
use oracle::Oracle;
use std::alloc::Global;

/// A model of the instances of a table's rows.
#[derive(Drop)]
pub struct TableModel<'t, 'p> {
    pub table: &'t Table,
    pub points: &'p Points,
}

impl Definitions {
    /// Asks what the newest row forces, of each existential without a definition at its point's bit.
    /// It stops for want of memory or at the log's limit, and may be called again then.
    pub fn force_all<O: Oracle>(
        &mut self,
        oracle: &mut O,
        definability: &Definability,
        f: &Formula,
        model: &TableModel,
        log: &mut Log,
    ) -> Result<(), Stop>
        requires fit { O.Fits oracle.old log.old }
        requires may { MayForce f.now self.old definability.now log.old.entries }
        requires model { IsModelOf f.now model.now }
        ensures fit { O.Fits oracle.new log.new }
        ensures forced { HasForced f.now definability.now self.old self.new log.old log.new }
        ensures limit { IsErrOf result Stop.Limit → IsAtSomeLimit log.new }
    {
        if model.table.rows() == 0 {
            return Ok(());
        }
        self.questions.begin_round();
        let mut sample = newest_sample(self.questions.alloc, f, model)?;
        for place in 0..f.existentials().len() {
            let existential = ExistentialAt {
                f,
                definability,
                place,
            };
            self.force(oracle, &existential, model, &mut sample, log)?;
        }
        Ok(())
    }

    // Asks the same of an existential, unless it isn't worth it.
    fn force<O: Oracle>(
        &mut self,
        oracle: &mut O,
        existential: &ExistentialAt,
        model: &TableModel,
        sample: &mut Sample,
        log: &mut Log,
    ) -> Result<(), Stop>
        requires fit { O.Fits oracle.old log.old }
        requires may { MayForce existential.now.f.now self.old existential.now.definability.now
            log.old.entries }
        requires place { existential.now.place < length existential.now.f.now.existentials }
        requires some { 1 ≤ length model.now.table.now.rows }
        requires model { IsModelOf existential.now.f.now model.now }
        ensures fit { O.Fits oracle.new log.new }
        ensures forced { HasForced existential.now.f.now existential.now.definability.now self.old
            self.new log.old log.new }
        ensures limit { IsErrOf result Stop.Limit → IsAtSomeLimit log.new }
    {
        if let Some(_) = self.nodes[existential.place] {
            return Ok(());
        }
        if !self
            .questions
            .is_worth_forcing(existential.f, existential.place, sample)
        {
            return Ok(());
        }
        if let Some(rule) = self.find_stated(existential, sample)? {
            self.keep(Forced::Rule(rule))?;
            return Ok(());
        }
        self.force_bit(oracle, existential, model, log)
    }

    // The rule that some clause states of an existential's bit in a sample, of those that need it.
    fn find_stated(
        &self,
        existential: &ExistentialAt,
        sample: &Sample,
    ) -> Result<Option<Rule>, Memory>
        requires place { existential.now.place < length existential.now.f.now.existentials }
        ensures { IfOk result (λ found. IfSome found (IsRule existential.now.f.now)) }
    {
        let f = existential.f;
        f.every_formula_is_lawful();
        let y = f.existentials()[existential.place];
        let bit = sample.bit(existential.place);
        for number in self.questions.occurrences.with(existential.place, bit) {
            let at = *number as usize;
            if sample.count(*number) < 2 && at < f.clauses() {
                if let Some(rule) = stated_rule(self.questions.alloc, f, y, bit, at)? {
                    return Ok(Some(rule));
                }
            }
        }
        Ok(None)
    }

    // Asks for a rule that gives an existential its point's bit at the newest row.
    fn force_bit<O: Oracle>(
        &mut self,
        oracle: &mut O,
        existential: &ExistentialAt,
        model: &TableModel,
        log: &mut Log,
    ) -> Result<(), Stop>
        requires fit { O.Fits oracle.old log.old }
        requires may { MayForce existential.now.f.now self.old existential.now.definability.now
            log.old.entries }
        requires place { existential.now.place < length existential.now.f.now.existentials }
        requires some { 1 ≤ length model.now.table.now.rows }
        requires model { IsModelOf existential.now.f.now model.now }
        ensures fit { O.Fits oracle.new log.new }
        ensures forced { HasForced existential.now.f.now existential.now.definability.now self.old
            self.new log.old log.new }
        ensures limit { IsErrOf result Stop.Limit → IsAtSomeLimit log.new }
    {
        let f = existential.f;
        f.every_formula_is_lawful();
        let y = f.existentials()[existential.place];
        let newest = model.table.rows();
        let bit = model.points.bit(y, newest);
        let forced = existential
            .definability
            .force(oracle, f, y, model.table.row(newest), bit, log)?;
        self.questions.learn_bit(existential.place, &forced);
        self.keep(forced)?;
        Ok(())
    }

    // Keeps a rule.
    fn keep(&mut self, forced: Forced) -> Result<(), Memory>
        ensures nodes { self.new.nodes.items ≡ self.old.nodes.items }
        ensures ranks { self.new.ranks.items ≡ self.old.ranks.items }
        ensures guesses { self.new.guesses.items ≡ self.old.guesses.items }
        ensures rules { (f : Dqbf) → ((r : RuleState) → forced ≡ Forced.Rule r → IsRule f r)
            → All (IsRule f) self.old.rules.items → All (IsRule f) self.new.rules.items }
    {
        match forced {
            Forced::Rule(rule) => {
                self.rules.push(rule)?;
                Ok(())
            }
            Forced::Loose { .. } => Ok(()),
        }
    }
}

// The newest row, and the points' bits there.
fn newest_sample(alloc: Global, f: &Formula, model: &TableModel) -> Result<Sample, Memory>
    requires some { 1 ≤ length model.now.table.now.rows }
    requires model { IsModelOf f.now model.now }
{
    f.every_formula_is_lawful();
    let newest = model.table.rows();
    let mut values = Vec::new(alloc);
    for y in f.existentials() {
        values.push(model.points.bit(*y, newest))?;
    }
    Sample::new(alloc, f, model.table.row(newest), values)
}
