//! Literals.

ghost use Rattle.std.specs.Prelude.{◌≡◌, ◌<◌, ◌≤◌, ◌^◌};
ghost use Rattle.dq_lits.specs.Literal.{positive, negative, variable_of, is_negative, opposite, same_literal};
ghost use Rattle.std.proofs.Common.{rules};
ghost use Rattle.std.specs.Cmp.Rules.{comparing};

use std::marker::Model;

/// A literal: a variable or its negation. Variables are numbered from 1 to 2^62 - 1.
///
/// It is kept as DIMACS writes it: the variable's number, or its negative for the negated variable.
#[derive(Clone, Copy)]
pub struct Lit {
    code: i64,
}

impl Model for Lit {
    ghost use Rattle.dq_lits.specs.Literal.{Literal};

    ghost Value = { Literal };

    ghost use Rattle.dq_lits.specs.LiteralCode.{literal_inside, IsLiteralCode, inside_of, inside_of-literal_inside};

    ghost view = { literal_inside };

    ghost invariant = { IsLiteralCode };

    ghost inverse = { inside_of };

    ghost inverse_ok = { λ l _. inside_of-literal_inside l };
}

impl Lit {
    /// The literal that is true where the variable is.
    pub fn pos(var: u64) -> Lit
        requires from_one { 1 ≤ var }
        requires in_range { var < 2 ^ 62 }
        ensures { result ≡ positive var }
    {
        Lit { code: var as i64 }
    }

    /// The literal that is true where the variable is false.
    pub fn neg(var: u64) -> Lit
        requires from_one { 1 ≤ var }
        requires in_range { var < 2 ^ 62 }
        ensures { result ≡ negative var }
    {
        Lit {
            code: -(var as i64),
        }
    }

    /// The variable that the literal stands on.
    pub fn var(&self) -> u64
        ensures value { result ≡ variable_of self.now }
        ensures from_one { 1 ≤ result }
        ensures in_range { result < 2 ^ 62 }
    {
        self.code.unsigned_abs()
    }

    /// Whether the literal is a negated variable.
    pub fn is_neg(&self) -> bool
        ensures { result ≡ is_negative self.now }
    {
        self.code < 0
    }

    /// The literal of the same variable with the other sign.
    pub fn not(&self) -> Lit
        ensures { result ≡ opposite self.now }
    {
        Lit { code: -self.code }
    }
}

impl PartialEq for Lit {
    ghost eq = { same_literal };

    ghost laws = { Prim.search (comparing, rules) };

    fn eq(&self, other: &Lit) -> bool {
        self.code == other.code
    }
}

impl Eq for Lit {
    ghost laws = { Prim.search (comparing, rules) };
}
