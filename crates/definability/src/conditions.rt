//! Conditions of a question, and which of them copies can meet.

ghost use Rattle.std.specs.Prelude.{◌≡◌, false, IfOk, length};
ghost use Rattle.std.specs.List.{filter};
ghost use Rattle.dq_lits.specs.Derivation.{is_tautology};
ghost use Rattle.dq_lits.specs.Literal.{variable_of};
ghost use Rattle.definability.specs.Conditions.{IsBitSet, MeetsLiterals, has_copies};

use crate::copies::is_copied;
use crate::definability::Definability;
use dq_formula::Formula;
use dq_lits::{Lit, Memory, Row};
use std::alloc::Global;

impl Definability {
    /// Those of these conditions whose variables have copies.
    pub(crate) fn copied_conditions(
        &self,
        f: &Formula,
        conditions: &[Lit],
    ) -> Result<Vec<Lit>, Memory>
        ensures { IfOk result (λ kept. kept.items
            ≡ filter (λ l. has_copies f.now self.now.copied.items (variable_of l)) conditions.now) }
    {
        let mut kept = Vec::new(self.alloc);
        for l in conditions {
            if self.has_copies(f, *l) {
                kept.push(*l)?;
            }
        }
        Ok(kept)
    }

    // Whether the variable of a literal has copies.
    fn has_copies(&self, f: &Formula, l: Lit) -> bool
        ensures { result ≡ has_copies f.now self.now.copied.items (variable_of l) }
    {
        is_copied(&self.copied, f.place_of(l.var()))
    }
}

/// A row at which those of these literals are true that stand on universals.
pub(crate) fn bits_of(alloc: Global, f: &Formula, lits: &[Lit]) -> Result<Row, Memory>
    requires consistent { is_tautology lits.now ≡ false }
    ensures { IfOk result (MeetsLiterals f.now lits.now (length lits.now)) }
{
    let mut row = Row::new(alloc, f.universals().len())?;
    for l in lits {
        set_bit(&mut row, f, *l);
    }
    Ok(row)
}

// Makes a literal true at a row, if it stands on a universal.
fn set_bit(row: &mut Row, f: &Formula, l: Lit)
    requires { length row.old ≡ length f.now.universals }
    ensures { IsBitSet f.now l row.old row.new }
{
    f.every_formula_is_lawful();
    if let Some(place) = f.universal_place(l.var()) {
        row.set(place, !l.is_neg());
    }
}
