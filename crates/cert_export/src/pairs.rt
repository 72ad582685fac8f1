//! Numbers of pairs, for the variables that stand for them.
//!
//! A pair may be named by any row that agrees on what its existential sees: a variable gets the number
//! by the row of the first instance that it is met in, since the first row that agrees need not be one
//! of those that are kept. Whoever reads the refutation finds the pairs' own numbers.

ghost use Rattle.std.specs.Prelude.{◌≡◌, ◌≤◌, ◌<◌, ℕ, All, IfOk, OnOk, length};
ghost use Rattle.std.specs.List.Sorted.{IsStrictlyIncreasing};
ghost use Rattle.cert_text.specs.Header.{max_count};
ghost use Rattle.dq_lits.specs.Literal.{variable_of};
ghost use Rattle.hint_log.specs.Conditions.{IsId};
ghost use Rattle.cert_export.specs.Exported.{IsPairNaming};
ghost use Rattle.cert_export.specs.Names.{renaming};
ghost use Rattle.cert_export.specs.Pairing.{AreNamedAt, ArePairNames, ArePairsNamed, HasNameAt, HaveNames, IsPairNamed};
ghost use Rattle.cert_export.specs.Renaming.{IsPartOf};

use crate::lines::place;
use crate::new_names::Names;
use dq_formula::Formula;
use dq_lits::{Lit, Memory};
use hint_log::{Log, Name, Origin};
use std::alloc::Global;

/// The pairs of a formula's existentials and the rows of some of a log's rounds.
#[derive(Drop)]
pub(crate) struct Pairs<'l, 'f, 'r> {
    pub(crate) log: &'l Log,
    pub(crate) f: &'f Formula,
    pub(crate) rounds: &'r [u64],
    ghost rising: { IsStrictlyIncreasing rounds.now },
    ghost few: { length rounds.now ≤ max_count },
}

impl<'l, 'f, 'r> Pairs<'l, 'f, 'r> {
    /// Numbers for the variables that the given clauses among some ids stand on, which are instances
    /// under these rows. They take memory for these variables alone.
    pub(crate) fn names(&self, alloc: Global, ids: &[u64]) -> Result<Names, Memory>
        requires ids { All (IsId self.now.log.now.entries) ids.now }
        requires known { HaveNames self.now.f.now self.now.log.now.entries self.now.rounds.now
            ids.now }
        ensures { IfOk result (λ names. IsPairNaming self.now.f.now self.now.log.now.entries
            self.now.rounds.now ids.now (renaming names)) }
    {
        let mut names = Names::new(alloc);
        for id in ids {
            if let Some(origin) = self.log.origin(*id) {
                self.name_instance(origin, self.log.clause(*id), &mut names)?;
            }
        }
        Ok(names)
    }

    // Names the pairs of an instance.
    fn name_instance(&self, origin: Origin, clause: &[Lit], names: &mut Names) -> Result<(), Memory>
        requires known { AreNamedAt self.now.f.now self.now.log.now.entries self.now.rounds.now
            origin clause.now }
        requires right { ArePairNames self.now.f.now self.now.log.now.entries self.now.rounds.now
            (renaming names.old) }
        ensures kept { OnOk result (IsPartOf (renaming names.old) (renaming names.new)) }
        ensures named { OnOk result (ArePairsNamed self.now.f.now self.now.log.now.entries
            self.now.rounds.now (renaming names.new) clause.now) }
    {
        match origin {
            Origin::Instance { round, .. } => {
                self.name_pairs(place(self.rounds, round), clause, names)
            }
            _ => unreachable!(),
        }
    }

    // Names the pairs of the row at a place.
    fn name_pairs(&self, place: usize, clause: &[Lit], names: &mut Names) -> Result<(), Memory>
        requires place { place < length self.now.rounds.now }
        requires known { All (λ l. HasNameAt self.now.f.now self.now.log.now.entries
            self.now.rounds.now place (variable_of l)) clause.now }
        requires right { ArePairNames self.now.f.now self.now.log.now.entries self.now.rounds.now
            (renaming names.old) }
        ensures kept { OnOk result (IsPartOf (renaming names.old) (renaming names.new)) }
        ensures named { OnOk result (ArePairsNamed self.now.f.now self.now.log.now.entries
            self.now.rounds.now (renaming names.new) clause.now) }
    {
        for l in clause {
            self.name_pair(place, l, names)?;
        }
        Ok(())
    }

    // Names the pair of a literal, if it is on one.
    fn name_pair(&self, place: usize, l: &Lit, names: &mut Names) -> Result<(), Memory>
        requires place { place < length self.now.rounds.now }
        requires known { HasNameAt self.now.f.now self.now.log.now.entries self.now.rounds.now place
            (variable_of l.now) }
        requires right { ArePairNames self.now.f.now self.now.log.now.entries self.now.rounds.now
            (renaming names.old) }
        ensures kept { OnOk result (IsPartOf (renaming names.old) (renaming names.new)) }
        ensures right { OnOk result (ArePairNames self.now.f.now self.now.log.now.entries
            self.now.rounds.now (renaming names.new)) }
        ensures named { OnOk result (IsPairNamed self.now.f.now self.now.log.now.entries
            self.now.rounds.now (renaming names.new) l.now) }
    {
        if let Name::Pair { existential, .. } = self.log.name(l.var()) {
            names.insert(l.var(), place as u64 * self.f.vars() + existential)?;
        }
        Ok(())
    }
}
