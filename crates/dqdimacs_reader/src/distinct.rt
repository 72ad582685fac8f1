//! A clause's distinct literals, in time that doesn't depend on which they are.
//!
//! A clause's literals are compared one by one up to sixteen, and by a set of keys from there on.
//! The set is made anew for each long clause: to clear a large one for each small clause would be
//! quadratic.

ghost use Rattle.std.specs.Prelude.{◌≡◌, [], None, IfOk, IfSome, OnOk, OnErr, not};
ghost use Rattle.std.specs.List.{list_any};
ghost use Rattle.dq_lits.specs.Literal.{same_literal};
ghost use Rattle.dqdimacs_reader.specs.Building.{add_literal};
ghost use Rattle.dqdimacs_reader.specs.LiteralKey.{literal_key, AreKeysOf};

use dq_lits::{Lit, Memory};
use number_tables::NumberSet;
use std::alloc::Global;
use std::marker::Model;

/// Up to so many literals are looked through one by one.
const FEW: usize = 16;

/// The distinct literals of a clause, in order of first occurrence.
#[derive(Drop)]
pub struct DistinctLiterals {
    alloc: Global,
    literals: Vec<Lit>,
    // The literals' keys, once there are too many literals to look through, so that a long clause
    // is read in linear time. Most clauses are short, and have none.
    keys: Option<NumberSet>,
}

impl Model for DistinctLiterals {
    ghost use Rattle.std.specs.Prelude.{List};
    ghost use Rattle.dq_lits.specs.Literal.{Literal};

    ghost Value = { List Literal };

    ghost use Rattle.dqdimacs_reader.specs.LiteralKey.{literals_inside, HasKeys};

    ghost view = { literals_inside };

    ghost invariant = { HasKeys };
}

impl DistinctLiterals {
    /// No literal yet. It takes no memory.
    pub fn new(alloc: Global) -> DistinctLiterals
        ensures { result ≡ [] }
    {
        DistinctLiterals {
            alloc,
            literals: Vec::new(alloc),
            keys: None,
        }
    }

    /// Takes all literals away, and keeps their memory.
    #[inline(always)]
    pub fn clear(&mut self)
        ensures { self.new ≡ [] }
    {
        self.literals.clear();
        if self.keys.is_some() {
            forget(&mut self.keys);
        }
    }

    /// Adds a literal, unless it is there already.
    #[inline(always)]
    pub fn add(&mut self, literal: Lit) -> Result<(), Memory>
        ensures ok { OnOk result (self.new ≡ add_literal self.old literal) }
        ensures err { OnErr result (self.new ≡ self.old) }
    {
        if self.keys.is_none() && self.literals.len() < FEW {
            return add_to_few(&mut self.literals, literal);
        }
        add_by_key(self.alloc, &mut self.literals, &mut self.keys, literal)
    }

    /// The literals.
    pub fn items(&self) -> &[Lit]
        ensures { result.now ≡ self.now }
    {
        &self.literals
    }
}

// Lets the keys go. Few clauses have them, and what calls it is to stay small.
#[inline(never)]
fn forget(keys: &mut Option<NumberSet>)
    ensures { keys.new ≡ None }
{
    *keys = None;
}

#[inline(always)]
fn add_to_few(literals: &mut Vec<Lit>, literal: Lit) -> Result<(), Memory>
    ensures ok { OnOk result (literals.new.items ≡ add_literal literals.old.items literal) }
    ensures err { OnErr result (literals.new.items ≡ literals.old.items) }
{
    if !is_among(literals, literal) {
        literals.reserve(1)?;
        literals.push_reserved(literal);
    }
    Ok(())
}

#[inline(always)]
fn is_among(literals: &[Lit], literal: Lit) -> bool
    ensures { result ≡ list_any (same_literal literal) literals.now }
{
    literals.iter().any(|l| *l == literal)
}

#[inline(never)]
fn add_by_key(
    alloc: Global,
    literals: &mut Vec<Lit>,
    keys: &mut Option<NumberSet>,
    literal: Lit,
) -> Result<(), Memory>
    requires keys { IfSome keys.old (AreKeysOf literals.old.items) }
    ensures keys { IfSome keys.new (AreKeysOf literals.new.items) }
    ensures ok { OnOk result (literals.new.items ≡ add_literal literals.old.items literal) }
    ensures err { OnErr result (literals.new.items ≡ literals.old.items) }
{
    literals.reserve(1)?;
    if insert_key(alloc, literals, keys, literal)? {
        literals.push(literal).unwrap();
    }
    Ok(())
}

// Whether a literal is new, and its key among those of these literals.
fn insert_key(
    alloc: Global,
    literals: &[Lit],
    keys: &mut Option<NumberSet>,
    literal: Lit,
) -> Result<bool, Memory>
    requires keys { IfSome keys.old (AreKeysOf literals.now) }
    ensures is_new { IfOk result
        (λ is_new. is_new ≡ not (list_any (same_literal literal) literals.now)) }
    ensures keys { OnOk result (IfSome keys.new (AreKeysOf (add_literal literals.now literal))) }
    ensures err { OnErr result (IfSome keys.new (AreKeysOf literals.now)) }
{
    if keys.is_none() {
        *keys = Some(keys_of(alloc, literals)?);
    }
    let Some(keys) = keys else { unreachable!() };
    insert_into(literals, keys, literal)
}

// The same where there are keys.
fn insert_into(literals: &[Lit], keys: &mut NumberSet, literal: Lit) -> Result<bool, Memory>
    requires keys { AreKeysOf literals.now keys.old }
    ensures is_new { IfOk result
        (λ is_new. is_new ≡ not (list_any (same_literal literal) literals.now)) }
    ensures keys { OnOk result (AreKeysOf (add_literal literals.now literal) keys.new) }
    ensures err { OnErr result (keys.new ≡ keys.old) }
{
    // Only the contract speaks of it.
    let _ = literals;
    keys.insert(key_of(literal))
}

fn keys_of(alloc: Global, literals: &[Lit]) -> Result<NumberSet, Memory>
    ensures { IfOk result (AreKeysOf literals.now) }
{
    let mut keys = NumberSet::new(alloc);
    for literal in literals {
        keys.insert(key_of(*literal))?;
    }
    Ok(keys)
}

// A number of its own for each literal.
fn key_of(literal: Lit) -> u64
    ensures { result ≡ literal_key literal }
{
    2 * literal.var() + u64::from(literal.is_neg())
}
