//! The formula of a seed and a size.

ghost use Rattle.std.specs.Prelude.{◌≡◌, ◌+◌, ◌<◌, ◌≤◌, ◌^◌, [], IfOk, OnOk};
ghost use Rattle.dq_lits.specs.Formula.{IsWellFormed};
ghost use Rattle.planted_formulas.specs.Planted.{formula_of_gates, planted_formula};

use crate::clauses::add_clauses;
use crate::draws::Draws;
use crate::gates::draw_gate;
use dq_formula::Formula;
use dq_lits::Memory;
use std::alloc::Global;

/// The greatest seed.
pub const MAX_SEED: u64 = 2_147_483_647;

/// The greatest size.
pub const MAX_SIZE: u64 = 10_000;

/// The formula of `size` gates, each over two of `size + 1` universals, that are drawn from a seed.
pub fn planted_formula(alloc: Global, seed: u64, size: u64) -> Result<Formula, Memory>
    requires seed { seed ≤ MAX_SEED }
    requires least { 1 ≤ size }
    requires most { size ≤ MAX_SIZE }
    ensures formula { IfOk result (λ f. f ≡ planted_formula seed size) }
    ensures well_formed { IfOk result IsWellFormed }
{
    let mut f = Formula::new(alloc, size + 1 + size);
    add_universals(&mut f, size + 1)?;
    add_gates(&mut f, seed, size)?;
    f.every_formula_is_lawful();
    Ok(f)
}

// Declares the universals from 1 to `n`.
fn add_universals(f: &mut Formula, n: u64) -> Result<(), Memory>
    requires in_range { n ≤ f.old.variables }
    requires few { n < 2 ^ 31 }
    requires none { f.old
        ≡ record { variables = f.old.variables; universals = []; existentials = []; matrix = [] } }
    ensures { OnOk result (f.new ≡ formula_of_gates f.old.variables n []) }
{
    for place in 0..n {
        f.add_universal(place + 1)?;
    }
    Ok(())
}

// Adds so many gates, each with its existential and its clauses.
fn add_gates(f: &mut Formula, seed: u64, size: u64) -> Result<(), Memory>
    requires seed { seed ≤ MAX_SEED }
    requires least { 1 ≤ size }
    requires most { size ≤ MAX_SIZE }
    requires universals { f.old ≡ formula_of_gates (size + 1 + size) (size + 1) [] }
    ensures { OnOk result (f.new ≡ planted_formula seed size) }
{
    let mut draws = Draws { state: seed };
    for place in 0..size {
        let gate = draw_gate(&mut draws, size + 1, size + 2 + place);
        f.add_listed(gate.output, &[gate.left, gate.right])?;
        add_clauses(f, &gate)?;
    }
    Ok(())
}
