//! The variables that a proof's literals may stand on.

ghost use Rattle.std.specs.Prelude.{◌≡◌, ◌≤◌, IsTrue, nat_abs};
ghost use Rattle.dq_lits.specs.Literal.{dimacs_literal, variable_of};
ghost use Rattle.cert_text.specs.Variables.{is_variable};

use crate::pairs::Pairs;

/// The variables that a proof's literals may stand on.
#[derive(Clone, Copy)]
pub enum Variables<'a> {
    /// Pairs of an existential and a row.
    Pairs(Pairs<'a>),
    /// The numbers from 1 to this one.
    UpTo(u64),
}

impl<'a> Variables<'a> {
    /// Whether a number is that of a variable.
    pub fn has(self, number: u64) -> bool
        ensures variable { result ≡ is_variable self.entry number }
        ensures some { IsTrue result → 1 ≤ number }
    {
        match self {
            Variables::Pairs(pairs) => pairs.has(number),
            Variables::UpTo(last) => number >= 1 && number <= last,
        }
    }

    /// Whether a literal, as DIMACS writes it, stands on a variable.
    pub fn has_literal(self, literal: i64) -> bool
        ensures variable { result ≡ is_variable self.entry (variable_of (dimacs_literal literal)) }
        ensures some { IsTrue result → 1 ≤ nat_abs literal }
    {
        self.has(literal.unsigned_abs())
    }
}
