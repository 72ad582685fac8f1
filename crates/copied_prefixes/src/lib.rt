//! A formula's prefix, in another formula that has no clause yet.
#![tactic(auto)]

ghost use Rattle.std.specs.Prelude.{◌≡◌, ◌<◌, ◌≤◌, ◌+◌, [], true, All, IsSome, IfSome, IfOk, OnOk, length, take, max, Contains};
ghost use Rattle.dq_lits.specs.Formula.{existential_of};
ghost use Rattle.dq_formula.specs.Prefix.{IsLawful};
ghost use Rattle.copied_prefixes.specs.Prefixes.{IsBegun, IsAt, SeesAmong};

use dq_formula::{Deps, Formula};
use dq_lits::Memory;
use std::alloc::Global;

/// A formula with the same prefix, and without clauses.
pub fn copy_prefix(alloc: Global, f: &Formula) -> Result<Formula, Memory>
    ensures { IfOk result (λ g. g ≡ record f.now { matrix = [] }) }
{
    f.every_formula_is_lawful();
    let mut g = Formula::new(alloc, f.vars());
    declare_all(&mut g, f)?;
    Ok(g)
}

fn declare_all(g: &mut Formula, f: &Formula) -> Result<(), Memory>
    requires lawful { IsLawful f.now }
    requires empty { g.old ≡ record f.now { universals = []; existentials = []; matrix = [] } }
    ensures { OnOk result (g.new ≡ record f.now { matrix = [] }) }
{
    for place in 0..f.existentials().len() {
        declare(g, f, place)?;
    }
    declare_universals(g, f, f.universals().len())
}

// Declares the first universals, so many, as far as they aren't declared.
fn declare_universals(g: &mut Formula, f: &Formula, end: usize) -> Result<(), Memory>
    requires lawful { IsLawful f.now }
    requires begun { IsBegun f.now g.old }
    requires within { end ≤ length f.now.universals }
    ensures begun { OnOk result (IsBegun f.now g.new) }
    ensures universals { OnOk result
        (length g.new.universals ≡ max (length g.old.universals) end) }
    ensures existentials { OnOk result (g.new.existentials ≡ g.old.existentials) }
{
    for at in g.universals().len()..end {
        g.add_universal(f.universals()[at])?;
    }
    Ok(())
}

// Declares the existential at a place, behind the universals that it depends on.
fn declare(g: &mut Formula, f: &Formula, place: usize) -> Result<(), Memory>
    requires lawful { IsLawful f.now }
    requires begun { IsBegun f.now g.old }
    requires next { length g.old.existentials ≡ place }
    requires within { place < length f.now.existentials }
    ensures begun { OnOk result (IsBegun f.now g.new) }
    ensures more { OnOk result (length g.new.existentials ≡ place + 1) }
{
    let y = existential_at(f, place);
    let end = end_of(f, y);
    declare_universals(g, f, end)?;
    declare_next(g, f, y)
}

// The existential at a place.
fn existential_at(f: &Formula, place: usize) -> u64
    requires lawful { IsLawful f.now }
    requires within { place < length f.now.existentials }
    ensures { IsAt f.now place result }
{
    f.existentials()[place]
}

// Declares the existential that comes next, where those are declared that it depends on.
fn declare_next(g: &mut Formula, f: &Formula, y: u64) -> Result<(), Memory>
    requires lawful { IsLawful f.now }
    requires begun { IsBegun f.now g.old }
    requires next { IsAt f.now (length g.old.existentials) y }
    requires within { length g.old.existentials < length f.now.existentials }
    requires reach { IfSome (existential_of f.now y) (SeesAmong f.now (length g.old.universals)) }
    ensures begun { OnOk result (IsBegun f.now g.new) }
    ensures more { OnOk result (length g.new.existentials ≡ length g.old.existentials + 1) }
{
    if sees_first(f, y, g.universals().len()) {
        g.add_first(y)
    } else {
        g.add_listed(y, f.seen(y))
    }
}

// How many universals, from the first one on, there are up to the last one that an existential
// depends on.
fn end_of(f: &Formula, y: u64) -> usize
    requires lawful { IsLawful f.now }
    requires declared { IsSome (existential_of f.now y) }
    ensures within { result ≤ length f.now.universals }
    ensures end { IfSome (existential_of f.now y) (SeesAmong f.now result) }
{
    match f.deps_of(y) {
        Deps::FirstOf(n) => *n,
        Deps::Listed(vars) => end_of_list(f, vars.items()),
    }
}

fn end_of_list(f: &Formula, vars: &[u64]) -> usize
    requires { All (Contains f.now.universals) vars.now }
    ensures within { result ≤ length f.now.universals }
    ensures end { All (Contains (take result f.now.universals)) vars.now }
{
    // The call shows the formula's invariant.
    let _ = f.universals();
    let mut end: usize = 0;
    for x in vars {
        end = end.max(f.place_of(*x) + 1);
    }
    end
}

// Whether an existential is stated to depend on just the first universals, so many.
fn sees_first(f: &Formula, y: u64, count: usize) -> bool
    requires { IsSome (existential_of f.now y) }
    ensures { result ≡ true → IfSome (existential_of f.now y) (λ e.
        e.sees ≡ take count f.now.universals) }
{
    match f.deps_of(y) {
        Deps::FirstOf(n) => *n == count,
        Deps::Listed(_) => false,
    }
}
