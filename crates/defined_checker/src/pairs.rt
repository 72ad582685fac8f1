//! Whether two assignments show that an existential has no definition.

ghost use Rattle.std.specs.Prelude.{◌≡◌, ◌≢◌, ◌↔◌, All, IsSome, IsTrue, Some};
ghost use Rattle.dq_lits.specs.Formula.{Existential, existential_of};
ghost use Rattle.dq_lits.specs.Henkin.{MatrixHolds};
ghost use Rattle.dq_lits.specs.Literal.{clause_true, literal_true};
ghost use Rattle.cert_text.specs.AllowedDefinitions.{IsValuationOf};
ghost use Rattle.cert_text.specs.DefinitionsRead.{pair_seen, valuation_seen};
ghost use Rattle.defined_checker.specs.Answers.{IsAlikeAt};
ghost use Rattle.defined_checker.specs.FreePairs.{AreAlike, IsFreePair, valuation_assignment};

use cert_text::{FreePair, Valuation};
use definition_order::may_read;
use dq_formula::Formula;
use dq_lits::Lit;

/// Whether two assignments show that their existential has no definition.
pub(crate) fn is_free_pair(f: &Formula, p: &FreePair) -> bool
    requires existential { IsSome (existential_of f.now p.now.existential) }
    requires first { IsValuationOf f.now (valuation_seen p.now.first) }
    requires second { IsValuationOf f.now (valuation_seen p.now.second) }
    ensures { (y : Existential) → existential_of f.now p.now.existential ≡ Some y
        → (IsTrue result ↔ IsFreePair f.now y (pair_seen p.now)) }
{
    if !differs(f, p) {
        return false;
    }
    if !are_alike(f, p) {
        return false;
    }
    are_true(f, p)
}

// Whether the existential has another bit in the second assignment.
fn differs(f: &Formula, p: &FreePair) -> bool
    requires first { IsValuationOf f.now (valuation_seen p.now.first) }
    requires second { IsValuationOf f.now (valuation_seen p.now.second) }
    ensures { IsTrue result
        ↔ (valuation_assignment f.now (valuation_seen p.now.first) p.now.existential
        ≢ valuation_assignment f.now (valuation_seen p.now.second) p.now.existential) }
{
    bit(f, &p.first, p.existential) != bit(f, &p.second, p.existential)
}

// Whether both assignments make every clause true.
fn are_true(f: &Formula, p: &FreePair) -> bool
    requires first { IsValuationOf f.now (valuation_seen p.now.first) }
    requires second { IsValuationOf f.now (valuation_seen p.now.second) }
    ensures { IsTrue result
        ↔ (MatrixHolds f.now (valuation_assignment f.now (valuation_seen p.now.first))
        × MatrixHolds f.now (valuation_assignment f.now (valuation_seen p.now.second))) }
{
    makes_true(f, &p.first) && makes_true(f, &p.second)
}

// The bit of a variable; that of others than the declared ones is false.
fn bit(f: &Formula, v: &Valuation, variable: u64) -> bool
    requires { IsValuationOf f.now (valuation_seen v.now) }
    ensures { result ≡ valuation_assignment f.now (valuation_seen v.now) variable }
{
    f.every_formula_is_lawful();
    if let Some(place) = f.universal_place(variable) {
        return v.row.get(place);
    }
    match f.existential_place(variable) {
        Some(place) => v.values.get(place),
        None => false,
    }
}

// Whether both assignments agree on what a definition of the existential may read.
fn are_alike(f: &Formula, p: &FreePair) -> bool
    requires existential { IsSome (existential_of f.now p.now.existential) }
    requires first { IsValuationOf f.now (valuation_seen p.now.first) }
    requires second { IsValuationOf f.now (valuation_seen p.now.second) }
    ensures { (y : Existential) → existential_of f.now p.now.existential ≡ Some y
        → (IsTrue result ↔ AreAlike f.now y
        (valuation_assignment f.now (valuation_seen p.now.first))
        (valuation_assignment f.now (valuation_seen p.now.second))) }
{
    f.every_formula_is_lawful();
    are_alike_on(f, p, f.universals()) && are_alike_on(f, p, f.existentials())
}

// Whether they agree on these variables, as far as a definition may read them.
fn are_alike_on(f: &Formula, p: &FreePair, variables: &[u64]) -> bool
    requires existential { IsSome (existential_of f.now p.now.existential) }
    requires first { IsValuationOf f.now (valuation_seen p.now.first) }
    requires second { IsValuationOf f.now (valuation_seen p.now.second) }
    ensures { (y : Existential) → existential_of f.now p.now.existential ≡ Some y
        → (IsTrue result ↔ All (IsAlikeAt f.now y (pair_seen p.now)) variables.now) }
{
    for variable in variables {
        if !is_alike_at(f, p, *variable) {
            return false;
        }
    }
    true
}

fn is_alike_at(f: &Formula, p: &FreePair, variable: u64) -> bool
    requires existential { IsSome (existential_of f.now p.now.existential) }
    requires first { IsValuationOf f.now (valuation_seen p.now.first) }
    requires second { IsValuationOf f.now (valuation_seen p.now.second) }
    ensures { (y : Existential) → existential_of f.now p.now.existential ≡ Some y
        → (IsTrue result ↔ IsAlikeAt f.now y (pair_seen p.now) variable) }
{
    bit(f, &p.first, variable) == bit(f, &p.second, variable)
        || !may_read(f, &[], p.existential, variable)
}

// Whether the assignment makes every clause true.
fn makes_true(f: &Formula, v: &Valuation) -> bool
    requires { IsValuationOf f.now (valuation_seen v.now) }
    ensures { IsTrue result
        ↔ MatrixHolds f.now (valuation_assignment f.now (valuation_seen v.now)) }
{
    for j in 0..f.clauses() {
        if !is_clause_true(f, v, f.clause(j)) {
            return false;
        }
    }
    true
}

fn is_clause_true(f: &Formula, v: &Valuation, clause: &[Lit]) -> bool
    requires { IsValuationOf f.now (valuation_seen v.now) }
    ensures { result ≡ clause_true (valuation_assignment f.now (valuation_seen v.now)) clause.now }
{
    clause.iter().any(|l| is_literal_true(f, v, *l))
}

fn is_literal_true(f: &Formula, v: &Valuation, l: Lit) -> bool
    requires { IsValuationOf f.now (valuation_seen v.now) }
    ensures { result ≡ literal_true (valuation_assignment f.now (valuation_seen v.now)) l }
{
    bit(f, v, l.var()) != l.is_neg()
}
