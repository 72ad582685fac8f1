//! Where a given clause comes from.

use dq_lits::Lit;

/// What stands at a place of a circuit: a constant, or a literal on an input or a gate.
#[derive(Clone, Copy)]
pub enum Leaf {
    Constant(bool),
    Literal(Lit),
}

/// Where a given clause comes from. It fixes the clause, but for the negated selector of its group.
#[derive(Clone, Copy)]
pub enum Origin {
    /// The instance of a clause under the row of a round.
    Instance {
        round: u64,
        clause: u64,
    },
    /// One of the three clauses of the gate that a variable is named for; parts are numbered from 1
    /// to 3.
    Gate {
        variable: u64,
        part: u64,
    },
    /// Where a clause is false, the literal at this place of it, counted from 1, is false under an
    /// output; or, with zeros, that some clause is false.
    Fault {
        clause: u64,
        place: u64,
        output: Leaf,
    },
    /// A clause in the first or second copy of the matrix.
    Copy {
        side: u64,
        clause: u64,
    },
    /// One of the two clauses by which a variable has the same value in both copies; parts are
    /// numbered from 1 to 2.
    Link {
        variable: u64,
        part: u64,
    },
    /// One of the three clauses of the gate over copies that a variable is named for; parts are
    /// numbered from 1 to 3.
    TermGate {
        variable: u64,
        part: u64,
    },
    /// One of the two clauses by which the first copy of an existential and an output over first
    /// copies have different values; parts are numbered from 1 to 2.
    Differ {
        existential: u64,
        output: Leaf,
        part: u64,
    },
}
