//! The trait of clauses that are read by their ids, and to which more are added.

ghost use Rattle.std.specs.Prelude.{◌≡◌, ◌≤◌, ◌++◌, ◌∷◌, [], List, Some, length, OnOk};
ghost use Rattle.dq_lits.specs.Literal.{Literal};
ghost use Rattle.oracle.specs.Fit.{live_in};

use crate::codes::Code;
use dq_lits::{Lit, Memory};

/// Clauses in order of time, each read by its id, from 1 on.
pub trait Clauses {
    /// The clauses in order.
    ghost clauses: { Self → List (List Literal) };

    /// Whether there is room for one clause more, of these literals.
    ghost HasRoom: { Self → List Literal → Type 0 };

    /// The literals of the clause with an id.
    fn lits(&self, id: u64) -> &[Code]
        requires from_one { 1 ≤ id }
        requires is_id { id ≤ length (clauses self.now) }
        ensures { live_in (clauses self.now) id ≡ Some result.now };

    /// Makes room for a clause of these literals.
    fn make_room(&mut self, lits: &[Lit]) -> Result<(), Memory>
        ensures same { clauses self.new ≡ clauses self.old }
        ensures room { OnOk result (HasRoom self.new lits.now) };

    /// Adds a clause that there is room for.
    fn add(&mut self, lits: &[Lit])
        requires { HasRoom self.old lits.now }
        ensures { clauses self.new ≡ clauses self.old ++ lits.now ∷ [] };
}
