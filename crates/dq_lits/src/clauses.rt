//! Clauses.

ghost use Rattle.std.specs.Prelude.{◌≡◌, ◌<◌, [], ◌∷◌, ◌++◌, length, IfOk, OnOk, OnErr, All};
ghost use Rattle.dq_lits.specs.Literal.{variable_of, clause_true};
ghost use Rattle.dq_lits.specs.Row.{bit_of};

use crate::literals::Lit;
use crate::memory::Memory;
use crate::rows::Row;
use std::alloc::Global;
use std::marker::Model;

/// A clause: a list of literals, true where one of them is.
#[derive(Drop)]
pub struct Clause {
    lits: Vec<Lit>,
}

impl Model for Clause {
    ghost use Rattle.std.specs.Prelude.{List};
    ghost use Rattle.dq_lits.specs.Literal.{Literal};

    ghost Value = { List Literal };

    ghost view = { λ c. c.lits.items };
}

impl Clause {
    /// The empty clause, which is false. It takes no memory.
    pub fn new(alloc: Global) -> Clause
        ensures { result ≡ [] }
    {
        Clause {
            lits: Vec::new(alloc),
        }
    }

    /// The clause of these literals, in order.
    pub fn from_slice(alloc: Global, lits: &[Lit]) -> Result<Clause, Memory>
        ensures { IfOk result (λ clause. clause ≡ lits.now) }
    {
        let lits = lits.to_vec(alloc)?;
        Ok(Clause { lits })
    }

    /// The clause of these literals, in order. It takes no memory.
    pub fn from_vec(lits: Vec<Lit>) -> Clause
        ensures { result ≡ lits.items }
    {
        Clause { lits }
    }

    /// Adds a literal at the end.
    pub fn push(&mut self, l: Lit) -> Result<(), Memory>
        ensures ok { OnOk result (self.new ≡ self.old ++ l ∷ []) }
        ensures err { OnErr result (self.new ≡ self.old) }
    {
        self.lits.push(l)?;
        Ok(())
    }

    /// The literals in order.
    pub fn lits(&self) -> &[Lit]
        ensures { result.now ≡ self.now }
    {
        &self.lits
    }

    /// Whether a literal is true, where variable v has the bit at place v.
    pub fn is_true(&self, values: &Row) -> bool
        requires { All (λ l. variable_of l < length values.now) self.now }
        ensures { result ≡ clause_true (bit_of values.now) self.now }
    {
        self.lits
            .iter()
            .any(|l| values.get(l.var() as usize) != l.is_neg())
    }
}
