//! What the existentials of a clause depend on, and what universal reduction leaves.
//!
//! What a clause's existentials see is collected once a clause: the largest set of first universals
//! as a number, and of each listed set its members or the clause's universals that are in it,
//! whichever list is shorter.

ghost use Rattle.std.specs.Prelude.{◌≡◌, ◌||◌, ◌&&◌, ℕ, [], map, IsSome, IfOk, OnOk};
ghost use Rattle.std.specs.List.{list_any, filter};
ghost use Rattle.number_tables.specs.Numbers.{has_number};
ghost use Rattle.dq_lits.specs.Literal.{variable_of};
ghost use Rattle.dq_lits.specs.Formula.{existential_of, is_universal};
ghost use Rattle.dq_prep.specs.Reduction.{sees_in, stays};
ghost use Rattle.dq_prep.specs.Sights.{is_within, keeps, AreWithin, Adds};

use dq_formula::{Deps, Formula};
use dq_lits::{Lit, Memory};
use number_tables::NumberSet;
use std::alloc::Global;

/// Whether an existential depends on a variable.
pub(crate) fn sees(f: &Formula, y: u64, x: u64) -> bool
    requires { IsSome (existential_of f.now y) }
    ensures { result ≡ sees_in x (existential_of f.now y) }
{
    f.sees(y, x)
}

/// Whether an existential depends on a variable of the clause.
pub(crate) fn sees_any(f: &Formula, y: u64, clause: &[Lit]) -> bool
    requires { IsSome (existential_of f.now y) }
    ensures { result ≡ list_any
        (λ l. sees_in (variable_of l) (existential_of f.now y)) clause.now }
{
    clause.iter().any(|l| sees(f, y, l.var()))
}

// Universals: those that were declared first, so many, and some others.
#[derive(Drop)]
pub(crate) struct Sight {
    pub first: usize,
    pub others: NumberSet,
}

impl Sight {
    // Whether a universal is one of them.
    fn has(&self, f: &Formula, x: u64) -> bool
        ensures { result ≡ is_within f.now self.now x }
    {
        f.place_of(x) < self.first || self.others.contains(x)
    }

    // Whether a literal is on one of them, or on no universal.
    fn keeps(&self, f: &Formula, l: Lit) -> bool
        ensures { result ≡ keeps f.now self.now l }
    {
        !f.is_universal(l.var()) || self.has(f, l.var())
    }

    // Adds those of the universals that an existential depends on, and maybe others of its set.
    fn add(&mut self, f: &Formula, y: u64, universals: &[u64]) -> Result<(), Memory>
        requires { IsSome (existential_of f.now y) }
        ensures { OnOk result (Adds f.now self.old self.new y universals.now) }
    {
        match f.deps_of(y) {
            Deps::FirstOf(n) => {
                self.first = self.first.max(*n);
                Ok(())
            }
            Deps::Listed(vars) => {
                if vars.items().len() <= universals.len() {
                    self.add_all(vars.items())
                } else {
                    self.add_seen(f, y, universals)
                }
            }
        }
    }

    fn add_all(&mut self, vars: &[u64]) -> Result<(), Memory>
        ensures first { OnOk result (self.new.first ≡ self.old.first) }
        ensures others { OnOk result ((n : ℕ) → has_number self.new.others n
            ≡ (has_number self.old.others n || has_number vars.now n)) }
    {
        for x in vars {
            self.others.insert(*x)?;
        }
        Ok(())
    }

    fn add_seen(&mut self, f: &Formula, y: u64, universals: &[u64]) -> Result<(), Memory>
        requires { IsSome (existential_of f.now y) }
        ensures first { OnOk result (self.new.first ≡ self.old.first) }
        ensures others { OnOk result ((n : ℕ) → has_number self.new.others n
            ≡ (has_number self.old.others n
            || (has_number universals.now n && sees_in n (existential_of f.now y)))) }
    {
        for x in universals {
            if sees(f, y, *x) {
                self.others.insert(*x)?;
            }
        }
        Ok(())
    }

    // Adds those of the universals that an existential of the clause depends on.
    fn add_clause(&mut self, f: &Formula, clause: &[Lit], universals: &[u64]) -> Result<(), Memory>
        requires first { self.old.first ≡ 0 }
        requires others { self.old.others ≡ [] }
        ensures { OnOk result (AreWithin f.now self.new clause.now universals.now) }
    {
        for l in clause {
            if f.is_existential(l.var()) {
                self.add(f, l.var(), universals)?;
            }
        }
        Ok(())
    }
}

// The universals of a clause.
fn universals_of(alloc: Global, f: &Formula, clause: &[Lit]) -> Result<Vec<u64>, Memory>
    ensures { IfOk result (λ universals. universals.items
        ≡ map variable_of (filter (λ l. is_universal f.now (variable_of l)) clause.now)) }
{
    let mut universals = Vec::new(alloc);
    for l in clause {
        if f.is_universal(l.var()) {
            universals.push(l.var())?;
        }
    }
    Ok(universals)
}

/// Writes what universal reduction leaves of a clause without a literal beside its negation, in
/// place of what the buffer holds. It takes time for each existential of the clause in its listed
/// set, or in the clause's universals where these are fewer.
pub(crate) fn reduce(
    alloc: Global,
    f: &Formula,
    clause: &[Lit],
    left: &mut Vec<Lit>,
) -> Result<(), Memory>
    ensures { OnOk result (left.new.items ≡ filter (stays f.now clause.now) clause.now) }
{
    let universals = universals_of(alloc, f, clause)?;
    let mut sight = Sight {
        first: 0,
        others: NumberSet::new(alloc),
    };
    sight.add_clause(f, clause, &universals)?;
    keep_staying(f, &sight, clause, left)
}

fn keep_staying(
    f: &Formula,
    sight: &Sight,
    clause: &[Lit],
    left: &mut Vec<Lit>,
) -> Result<(), Memory>
    ensures { OnOk result (left.new.items ≡ filter (keeps f.now sight.now) clause.now) }
{
    left.clear();
    for l in clause {
        if sight.keeps(f, *l) {
            left.push(*l)?;
        }
    }
    Ok(())
}
