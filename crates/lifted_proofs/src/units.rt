//! The units that were taken, each found by its variable.

ghost use Rattle.std.specs.Prelude.{◌≡◌, ◌<◌, None, Some, length, replicate, reverse, IfOk};
ghost use Rattle.std.specs.List.{slice_get};
ghost use Rattle.dq_lits.specs.Formula.{IsWellFormed};
ghost use Rattle.dq_prep.specs.Units.{AreUnits};
ghost use Rattle.lifted_proofs.specs.UnitTables.{TellUnits, IsUnitTable, IsFalseBy, IsFalseAt};

use dq_formula::Formula;
use dq_lits::{Lit, Memory};
use dq_prep::{Taken, Trace};
use std::alloc::Global;

/// The units that were taken of a formula.
#[derive(Drop)]
pub(crate) struct UnitTable<'a> {
    pub alloc: Global,
    pub formula: &'a Formula,
    /// The one that was taken first stands first.
    pub units: &'a [Taken],
    // By the place of an existential, the place of the unit on it.
    pub on: Vec<Option<usize>>,
}

fn no_units(alloc: Global, n: usize) -> Result<Vec<Option<usize>>, Memory>
    ensures { IfOk result (λ on. on.items ≡ replicate n None) }
{
    Ok(vec![in alloc; None; n]?)
}

// By the place of an existential, the place of the unit on it.
fn units_on(alloc: Global, f: &Formula, units: &[Taken]) -> Result<Vec<Option<usize>>, Memory>
    requires well { IsWellFormed f.now }
    requires units { AreUnits f.now (reverse units.now) }
    ensures many { IfOk result (λ on. length on.items ≡ length f.now.existentials) }
    ensures tell { IfOk result (λ on. TellUnits f.now units.now (length units.now) on.items) }
{
    let mut on = no_units(alloc, f.existentials().len())?;
    for j in 0..units.len() {
        if let Some(place) = f.existential_place(units[j].literal.var()) {
            on[place] = Some(j);
        }
    }
    Ok(on)
}

impl<'a> UnitTable<'a> {
    /// The units of a trace.
    pub(crate) fn new(
        alloc: Global,
        formula: &'a Formula,
        trace: &'a Trace,
    ) -> Result<UnitTable<'a>, Memory>
        requires well { IsWellFormed formula.now }
        requires units { AreUnits formula.now trace.now }
        ensures right { IfOk result IsUnitTable }
        ensures formula { IfOk result (λ t. t.formula.now ≡ formula.now) }
        ensures trace { IfOk result (λ t. reverse t.units.now ≡ trace.now) }
    {
        formula.every_formula_is_lawful();
        let units = trace.units();
        let on = units_on(alloc, formula, units)?;
        Ok(UnitTable {
            alloc,
            formula,
            units,
            on,
        })
    }

    /// The unit at a place.
    pub(crate) fn unit(&self, j: usize) -> Taken
        requires { j < length self.now.units.now }
        ensures { slice_get self.now.units.now j ≡ Some result }
    {
        self.units[j]
    }

    /// Of the first units, so many, the place of the one that makes a literal false.
    pub(crate) fn false_by(&self, l: Lit, count: usize) -> Option<usize>
        requires right { IsUnitTable self.now }
        ensures { IsFalseBy self.now.units.now count l result }
    {
        let Some(place) = self.formula.existential_place(l.var()) else {
            return None;
        };
        let Some(j) = self.on[place] else {
            return None;
        };
        if j >= count {
            return None;
        }
        if !makes_false(self.units, j, l) {
            return None;
        }
        Some(j)
    }
}

// Whether the unit at a place makes a literal false.
fn makes_false(units: &[Taken], j: usize, l: Lit) -> bool
    requires { j < length units.now }
    ensures { IsFalseAt units.now j l result }
{
    units[j].literal == l.not()
}
