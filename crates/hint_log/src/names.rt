//! What a solver variable stands for.

use dq_lits::Lit;

/// What a solver variable stands for.
#[derive(Clone, Copy)]
pub enum Name {
    /// The group of this number, which is the selector's own variable, is active.
    Selector { group: u64 },
    /// The arbiter of a pair: the value of an existential under the row of a round, the first that
    /// agrees on what the existential sees.
    Pair { round: u64, existential: u64 },
    /// A universal in the circuits that are checked.
    Input { universal: u64 },
    /// A gate over two literals, on variables that are inputs or gates.
    And { left: Lit, right: Lit },
    /// In this group, the clause of this number is false.
    Bad { group: u64, clause: u64 },
    /// A variable of the formula in the first or second copy of its matrix.
    Copy { side: u64, variable: u64 },
    /// A gate over two literals, on variables that are first copies or such gates.
    Term { left: Lit, right: Lit },
}
