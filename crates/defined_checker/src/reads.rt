//! Whether a definition reads only what it may.

ghost use Rattle.std.specs.Prelude.{◌≡◌, ◌≤◌, ℕ, true, All, Contains, IsSome, Some, IfOk, MatchOption};
ghost use Rattle.dq_lits.specs.Formula.{Existential, existential_of};
ghost use Rattle.cert_text.specs.AllowedDefinitions.{IsDefinitionOf};
ghost use Rattle.cert_text.specs.DefinitionsRead.{definition_seen};
ghost use Rattle.defined_checker.specs.DefinitionReads.{MayDefine};
ghost use Rattle.defined_checker.specs.Answers.{IsForeignAnswer, IsLeastForeign, IsWithLeaf, lesser};

use crate::leaves::leaves;
use cert_text::Definition;
use definition_order::may_read;
use dq_formula::Formula;
use dq_lits::Memory;
use std::alloc::Global;

/// The least variable that a definition reads and that no definition of its existential may read.
pub(crate) fn first_foreign(
    alloc: Global,
    f: &Formula,
    d: &Definition,
) -> Result<Option<u64>, Memory>
    requires existential { IsSome (existential_of f.now d.now.existential) }
    requires lawful { IsDefinitionOf f.now (definition_seen d.now) }
    ensures { (y : Existential) → existential_of f.now d.now.existential ≡ Some y
        → IfOk result (IsForeignAnswer f.now y (definition_seen d.now)) }
{
    let found = leaves(alloc, f, d)?;
    Ok(least_foreign(f, d.existential, found.items()))
}

// The least of these variables that no definition of `y` may read.
fn least_foreign(f: &Formula, y: u64, leaves: &[u64]) -> Option<u64>
    requires { IsSome (existential_of f.now y) }
    ensures { (e : Existential) → existential_of f.now y ≡ Some e
        → IsLeastForeign f.now e leaves.now result }
{
    let mut least = None;
    for leaf in leaves {
        least = with_leaf(f, y, least, *leaf);
    }
    least
}

// The least of these and of one more, where no definition of `y` may read it.
fn with_leaf(f: &Formula, y: u64, least: Option<u64>, leaf: u64) -> Option<u64>
    requires { IsSome (existential_of f.now y) }
    ensures { (e : Existential) → existential_of f.now y ≡ Some e
        → IsWithLeaf (MayDefine f.now e leaf) least leaf result }
{
    if may_read(f, &[], y, leaf) {
        return least;
    }
    Some(lesser(least, leaf))
}

fn lesser(least: Option<u64>, n: u64) -> u64
    ensures { result ≡ lesser least n }
{
    match least {
        Some(other) if other < n => other,
        _ => n,
    }
}
