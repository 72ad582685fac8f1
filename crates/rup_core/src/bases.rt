//! The trait of clauses that hints may name.

ghost use Rattle.std.specs.Prelude.{◌≡◌, ◌≤◌, Some, IsSome, IfSome, take};
ghost use Rattle.dq_lits.specs.Derivation.{LiveClauses};
ghost use Rattle.rup_core.specs.Reading.{clause_size, literal_at};

use dq_lits::Lit;

/// The literals of a short clause.
#[derive(Clone, Copy)]
pub struct FewLiterals {
    /// The literals, and others behind them.
    pub literals: [Lit; 3],
    /// How many there are.
    pub count: usize,
}

/// Clauses with ids, read a literal at a time: a hint takes one call of `size`, and one of `lit`
/// for each literal.
pub trait Base {
    /// The clauses that have an id.
    ghost clauses: { Self → LiveClauses };

    /// How many literals the clause with this id has; none where no clause has it.
    fn size(&self, id: u64) -> Option<usize>
        ensures { result ≡ clause_size (clauses self.now id) };

    /// The literal at a place of the clause with this id; places are counted from 0. A clause may
    /// hold a literal twice.
    fn lit(&self, id: u64, i: usize) -> Lit
        requires { IsSome (literal_at (clauses self.now id) i) }
        ensures { literal_at (clauses self.now id) i ≡ Some result };

    /// The literals of the clause with this id, if they lie in memory. There may be a clause where
    /// it answers none.
    fn held(&self, id: u64) -> Option<&[Lit]>
        ensures { IfSome result (λ literals. clauses self.now id ≡ Some literals.now) }
    {
        // Only the contract speaks of it.
        let _ = id;
        None
    }

    /// The literals of the clause with this id, if it is made at once. There may be a clause where
    /// it answers none.
    fn few(&self, id: u64) -> Option<FewLiterals>
        ensures clause { IfSome result
            (λ few. clauses self.now id ≡ Some (take few.count few.literals)) }
        ensures within { IfSome result (λ few. few.count ≤ 3) }
    {
        // Only the contract speaks of it.
        let _ = id;
        None
    }
}
