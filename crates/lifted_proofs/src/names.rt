//! Ids of the formula's negated matrix for the clauses of what is left. Where a unit's literal wasn't
//! constant, its clause has got shorter by the settled output, and a line derives it again.

ghost use Rattle.std.specs.Prelude.{◌≡◌, ◌<◌, ◌≤◌, ◌+◌, length, IfOk, OnOk, Some};
ghost use Rattle.std.specs.List.{slice_get};
ghost use Rattle.cert_text.specs.NegatedMatrix.{as_literal, opposite_of};
ghost use Rattle.lifted_proofs.specs.Goals.{clause_at};
ghost use Rattle.lifted_proofs.specs.Liftings.{IsLifting, IsNameable, NamesMore, AreFirstNamed, IsNaming, IsNextLeft, IsNamedBy, formula_of, place_at};

use crate::liftings::Lifting;
use cert_text::{Step, StepList};
use dq_lits::{Lit, Memory};

/// By the literals that are left of the formula's clauses, the ids of the clauses that they are false,
/// and the lines for those that have no id before.
#[derive(Drop)]
pub(crate) struct Named {
    pub ids: Vec<u64>,
    pub steps: StepList,
}

impl<'a> Lifting<'a> {
    /// Names the clauses of all literals that are left.
    pub(crate) fn names(&self) -> Result<Named, Memory>
        requires { IsLifting self.now }
        ensures { IfOk result (AreFirstNamed self.now (length self.now.kept.items)) }
    {
        let mut named = Named {
            ids: Vec::new(self.table.alloc),
            steps: StepList::new(self.table.alloc),
        };
        for j in 0..self.kept.len() {
            self.name_clause(j, &mut named)?;
        }
        Ok(named)
    }

    // Names those of the literals of a clause.
    fn name_clause(&self, j: usize, named: &mut Named) -> Result<(), Memory>
        requires lifting { IsLifting self.now }
        requires within { j < length self.now.kept.items }
        requires named { AreFirstNamed self.now j named.old }
        ensures { OnOk result (AreFirstNamed self.now (j + 1) named.new) }
    {
        let mut found = 0;
        for q in 0..self.table.formula.clause(self.place(j)).len() {
            found = self.name_next(j, found, q, named)?;
        }
        Ok(())
    }

    // Names that of the literal at a place of the formula's clause, if it is left; so many are found
    // before it.
    fn name_next(
        &self,
        j: usize,
        found: usize,
        q: usize,
        named: &mut Named,
    ) -> Result<usize, Memory>
        requires lifting { IsLifting self.now }
        requires within { j < length self.now.kept.items }
        requires place { q < length (clause_at (formula_of self.now) (place_at self.now j)) }
        requires named { IsNaming self.now j found q named.old }
        ensures { IfOk result (λ next. IsNaming self.now j next (q + 1) named.new) }
    {
        let literal = self.literal_at(j, q);
        if !self.is_next(j, found, literal) {
            return Ok(found);
        }
        let id = self.literal_id(self.place(j), q);
        self.name(j, literal, id, named)?;
        Ok(found + 1)
    }

    // The literal at a place of the formula's clause.
    fn literal_at(&self, j: usize, q: usize) -> Lit
        requires lifting { IsLifting self.now }
        requires within { j < length self.now.kept.items }
        requires place { q < length (clause_at (formula_of self.now) (place_at self.now j)) }
        ensures { slice_get (clause_at (formula_of self.now) (place_at self.now j)) q ≡ Some result }
    {
        self.table.formula.clause(self.place(j))[q]
    }

    // Whether the next literal that is left is this one.
    fn is_next(&self, j: usize, found: usize, literal: Lit) -> bool
        requires lifting { IsLifting self.now }
        requires within { j < length self.now.kept.items }
        ensures { IsNextLeft self.now j found literal result }
    {
        let left = self.bench.formula().clause(j);
        if found >= left.len() {
            return false;
        }
        left[found] == literal
    }

    // Names the clause of a literal, which has this id in the formula.
    fn name(&self, j: usize, literal: Lit, id: u64, named: &mut Named) -> Result<(), Memory>
        requires lifting { IsLifting self.now }
        requires within { j < length self.now.kept.items }
        requires nameable { IsNameable self.now j literal id }
        ensures { OnOk result (NamesMore self.now j literal named.old named.new) }
    {
        match self.settled_from(literal) {
            None => {
                named.ids.push(id)?;
                Ok(())
            }
            Some(was) => self.name_weaker(j, was, id, named),
        }
    }

    // Names it by a line.
    fn name_weaker(&self, j: usize, was: u64, hint: u64, named: &mut Named) -> Result<(), Memory>
        requires lifting { IsLifting self.now }
        requires within { j < length self.now.kept.items }
        requires free { 2 ≤ was }
        requires in_range { was ≤ 9223372036854775805 }
        ensures { OnOk result (IsNamedBy self.now j was hint named.old named.new) }
    {
        let id = self.base.first + named.steps.len() as u64;
        let lits = [self.is_false(self.place(j)).not(), negated(was)];
        let hints = [hint];
        named.steps.push(Step {
            id,
            lits: &lits,
            hints: &hints,
        })?;
        named.ids.push(id)?;
        Ok(())
    }
}

// The negation of a circuit's literal that isn't constant.
fn negated(literal: u64) -> Lit
    requires free { 2 ≤ literal }
    requires in_range { literal ≤ 9223372036854775805 }
    ensures { result ≡ as_literal (opposite_of literal) }
{
    if literal % 2 == 1 {
        Lit::pos(literal / 2)
    } else {
        Lit::neg(literal / 2)
    }
}
