//! Literals by numbers that are places in a table by literals.
//!
//! A clause is visited far more often than it is written, so its literals are kept as what a visit
//! asks for: where their values stand.

ghost use Rattle.std.specs.Prelude.{◌≡◌, ◌≤◌, ◌<◌, ◌+◌, ◌*◌, ◌^◌, if◌then◌else◌};
ghost use Rattle.dq_lits.specs.Literal.{variable_of, is_negative, same_literal};

use dq_lits::Lit;
use std::marker::Model;

/// A literal: twice its variable, and one more for the negated variable.
#[derive(Clone, Copy)]
pub struct Code {
    number: u64,
}

impl Model for Code {
    ghost use Rattle.dq_lits.specs.Literal.{Literal};

    ghost Value = { Literal };

    ghost use Rattle.learning_trail.specs.Codes.{literal_inside, IsCode, inside_of};
    ghost use Rattle.learning_trail.specs.CodeLaws.{inside_of-literal_inside};

    ghost view = { literal_inside };

    ghost invariant = { IsCode };

    ghost inverse = { inside_of };

    ghost inverse_ok = { λ c code. inside_of-literal_inside c };
}

impl Code {
    /// The code of a literal.
    pub fn of(l: Lit) -> Code
        ensures { result ≡ l }
    {
        let number = l.var() * 2;
        if l.is_neg() {
            Code { number: number + 1 }
        } else {
            Code { number }
        }
    }

    /// The literal.
    pub fn lit(&self) -> Lit
        ensures { result ≡ self.now }
    {
        if self.number % 2 == 0 {
            Lit::pos(self.number / 2)
        } else {
            Lit::neg(self.number / 2)
        }
    }

    /// The variable that the literal stands on.
    pub fn var(&self) -> u64
        ensures value { result ≡ variable_of self.now }
        ensures from_one { 1 ≤ result }
        ensures in_range { result < 2 ^ 62 }
    {
        self.number / 2
    }

    /// The literal's place in a table by literals, in which each variable is followed by its
    /// negation.
    pub fn place(&self) -> usize
        ensures value { result ≡ variable_of self.now * 2 + (if is_negative self.now then 1 else 0) }
        ensures from_two { 2 ≤ result }
        ensures few { result < 2 ^ 63 }
    {
        self.number as usize
    }
}

impl PartialEq for Code {
    ghost use Rattle.std.proofs.Common.{rules};
    ghost use Rattle.std.specs.Cmp.Rules.{comparing};

    ghost eq = { same_literal };

    ghost laws = { Prim.search (comparing, rules) };

    fn eq(&self, other: &Code) -> bool {
        self.number == other.number
    }
}
