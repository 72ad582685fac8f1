//! Clauses of at most three of a circuit's literals, with the constants put in. They take no
//! memory.

ghost use Rattle.std.specs.Prelude.{◌≡◌, ◌<◌, ◌≤◌, ◌∷◌, [], length, take, Some};
ghost use Rattle.std.specs.List.{slice_get};
ghost use Rattle.std.specs.Option.{option_map};
ghost use Rattle.cert_text.specs.NegatedMatrix.{as_literal, without_constants};
ghost use Rattle.proof_checker.specs.ShortClause.{short_literals};

use dq_lits::Lit;
use rup_core::FewLiterals;
use std::marker::Model;

/// The literals of a clause that aren't constant.
#[derive(Drop)]
pub struct ShortClause {
    // The literals, and others behind them.
    literals: [Lit; 3],
    count: usize,
}

impl Model for ShortClause {
    ghost use Rattle.std.specs.Prelude.{List, length, take, ◌≡◌, ◌≤◌};
    ghost use Rattle.dq_lits.specs.Literal.{Literal};

    ghost Value = { List Literal };

    ghost view = { λ c. take c.count c.literals };

    ghost invariant = { λ c. (c.count ≤ 3) × (length c.literals ≡ 3) };
}

/// The clause of two literals, where a false one is dropped; none where one is true.
#[inline(always)]
pub fn short_of_two(k: u64, l: u64) -> Option<ShortClause>
    requires k_in_range { k ≤ 9223372036854775807 }
    requires l_in_range { l ≤ 9223372036854775807 }
    ensures { option_map short_literals result ≡ without_constants (k ∷ l ∷ []) }
{
    if k == 1 {
        return None;
    }
    if l == 1 {
        return None;
    }
    if k == 0 {
        return short_of_one(l);
    }
    if l == 0 {
        return Some(one(as_literal(k)));
    }
    Some(two(as_literal(k), as_literal(l)))
}

/// The same of three literals.
#[inline(always)]
pub fn short_of_three(j: u64, k: u64, l: u64) -> Option<ShortClause>
    requires j_in_range { j ≤ 9223372036854775807 }
    requires k_in_range { k ≤ 9223372036854775807 }
    requires l_in_range { l ≤ 9223372036854775807 }
    ensures { option_map short_literals result ≡ without_constants (j ∷ k ∷ l ∷ []) }
{
    if j == 1 {
        return None;
    }
    if j == 0 {
        return short_of_two(k, l);
    }
    if k == 0 {
        return short_of_two(j, l);
    }
    if l == 0 {
        return short_of_two(j, k);
    }
    if k == 1 {
        return None;
    }
    if l == 1 {
        return None;
    }
    Some(three(as_literal(j), as_literal(k), as_literal(l)))
}

// The same of one literal.
fn short_of_one(l: u64) -> Option<ShortClause>
    requires { l ≤ 9223372036854775807 }
    ensures { option_map short_literals result ≡ without_constants (l ∷ []) }
{
    if l == 1 {
        return None;
    }
    if l == 0 {
        return Some(none());
    }
    Some(one(as_literal(l)))
}

fn as_literal(literal: u64) -> Lit
    requires no_constant { 2 ≤ literal }
    requires in_range { literal ≤ 9223372036854775807 }
    ensures { result ≡ as_literal literal }
{
    if literal % 2 == 1 {
        Lit::neg(literal / 2)
    } else {
        Lit::pos(literal / 2)
    }
}

impl ShortClause {
    /// Its literals, made at once.
    pub fn few(&self) -> FewLiterals
        ensures clause { take result.count result.literals ≡ short_literals self.now }
        ensures within { result.count ≤ 3 }
    {
        FewLiterals {
            literals: self.literals,
            count: self.count,
        }
    }

    /// How many literals it has.
    pub fn len(&self) -> usize
        ensures { result ≡ length (short_literals self.now) }
    {
        self.count
    }

    /// The literal at a place; places are counted from 0.
    pub fn literal(&self, i: usize) -> Lit
        requires { i < length (short_literals self.now) }
        ensures { slice_get (short_literals self.now) i ≡ Some result }
    {
        // A look at a field shows the invariant.
        let _ = &self.count;
        self.literals[i]
    }
}

fn three(k: Lit, l: Lit, m: Lit) -> ShortClause
    ensures { result ≡ k ∷ l ∷ m ∷ [] }
{
    ShortClause {
        literals: [k, l, m],
        count: 3,
    }
}

fn two(k: Lit, l: Lit) -> ShortClause
    ensures { result ≡ k ∷ l ∷ [] }
{
    ShortClause {
        literals: [k, l, l],
        count: 2,
    }
}

fn one(k: Lit) -> ShortClause
    ensures { result ≡ k ∷ [] }
{
    ShortClause {
        literals: [k, k, k],
        count: 1,
    }
}

fn none() -> ShortClause
    ensures { result ≡ [] }
{
    let any = Lit::pos(1);
    ShortClause {
        literals: [any, any, any],
        count: 0,
    }
}
