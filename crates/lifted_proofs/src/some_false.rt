//! The line that some clause which is kept is false: the others aren't, since each has a literal that
//! is true.

ghost use Rattle.std.specs.Prelude.{◌≡◌, ◌<◌, ◌+◌, length, map, slice_index_or, [], Some, IfOk, OnOk, true};
ghost use Rattle.std.specs.List.{slice_get};
ghost use Rattle.dq_lits.specs.Derivation.{holds};
ghost use Rattle.dq_lits.specs.Literal.{Literal};
ghost use Rattle.dq_prep.specs.Units.{is_satisfied, taken_literals};
ghost use Rattle.lifted_proofs.specs.KeptPlaces.{dropped_places};
ghost use Rattle.lifted_proofs.specs.Liftables.{is_false};
ghost use Rattle.lifted_proofs.specs.Liftings.{IsLifting, AreTrueIds, AddsSomeFalse, formula_of, units_of};

use crate::kept_places::places;
use crate::liftings::Lifting;
use crate::sources::is_taken;
use cert_text::{Step, StepList};
use dq_lits::{Lit, Memory};

impl<'a> Lifting<'a> {
    /// Adds the line.
    pub(crate) fn add_some_false(&self, steps: &mut StepList) -> Result<(), Memory>
        requires { IsLifting self.now }
        ensures { OnOk result (AddsSomeFalse self.now
            (dropped_places (formula_of self.now) (units_of self.now))
            steps.old steps.new) }
    {
        let dropped = places(self.table, false)?;
        let lits = self.kept_false()?;
        let mut hints = self.true_ids(&dropped)?;
        hints.push(self.base.first - 1)?;
        steps.push(Step {
            id: self.base.first + steps.len() as u64,
            lits: &lits,
            hints: &hints,
        })?;
        Ok(())
    }

    // For each clause that is kept, the literal that it is false.
    fn kept_false(&self) -> Result<Vec<Lit>, Memory>
        requires { IsLifting self.now }
        ensures { IfOk result (λ lits. lits.items
            ≡ map (is_false (self.now.bench.now.circuit.netlist.max_var + 1)) self.now.kept.items) }
    {
        let mut lits = Vec::new(self.table.alloc);
        for j in 0..self.kept.len() {
            lits.push(self.is_false(self.place(j)))?;
        }
        Ok(lits)
    }

    // For each clause that goes, the id of the clause that a literal is false which is true.
    fn true_ids(&self, dropped: &[usize]) -> Result<Vec<u64>, Memory>
        requires lifting { IsLifting self.now }
        requires dropped { dropped.now
            ≡ dropped_places (formula_of self.now) (units_of self.now) }
        ensures { IfOk result (λ ids. AreTrueIds self.now dropped.now ids.items) }
    {
        let mut ids = Vec::new(self.table.alloc);
        for k in 0..dropped.len() {
            let place = dropped[k];
            let literal = self.true_place(place);
            ids.push(self.literal_id(place, literal))?;
        }
        Ok(ids)
    }

    // The place of a literal that was taken, in a clause that has one.
    fn true_place(&self, clause: usize) -> usize
        requires lifting { IsLifting self.now }
        requires within { clause < length (formula_of self.now).matrix }
        requires satisfied { is_satisfied (taken_literals (units_of self.now))
            (slice_index_or (formula_of self.now).matrix clause []) ≡ true }
        ensures within { result < length (slice_index_or (formula_of self.now).matrix clause []) }
        ensures held { (l : Literal)
            → slice_get (slice_index_or (formula_of self.now).matrix clause []) result ≡ Some l
            → holds (taken_literals (units_of self.now)) l ≡ true }
    {
        let literals = self.table.formula.clause(clause);
        for place in 0..literals.len() {
            if is_taken(self.table, literals[place]) {
                return place;
            }
        }
        unreachable!()
    }
}
