//! The clauses of a gate.

ghost use Rattle.std.specs.Prelude.{◌≡◌, ◌+◌, ◌≤◌, ◌++◌, length, OnOk};
ghost use Rattle.planted_formulas.specs.Planted.{gate_clauses, and_clauses, xor_clauses};

use crate::gates::PlantedGate;
use dq_formula::{Formula, MAX_CLAUSES};
use dq_lits::{Lit, Memory};

/// Adds the clauses that give a gate's variable its value.
pub(crate) fn add_clauses(f: &mut Formula, gate: &PlantedGate) -> Result<(), Memory>
    requires output { (1 ≤ gate.now.output) × (gate.now.output ≤ f.old.variables) }
    requires left { (1 ≤ gate.now.left) × (gate.now.left ≤ f.old.variables) }
    requires right { (1 ≤ gate.now.right) × (gate.now.right ≤ f.old.variables) }
    requires few { length f.old.matrix + 4 ≤ MAX_CLAUSES }
    ensures { OnOk result
        (f.new ≡ record f.old { matrix = f.old.matrix ++ gate_clauses gate.now }) }
{
    f.every_formula_is_lawful();
    if gate.is_xor {
        add_xor(f, gate.output, gate.left, gate.right)
    } else {
        add_and(f, gate.output, gate.left, gate.right)
    }
}

fn add_and(f: &mut Formula, y: u64, a: u64, b: u64) -> Result<(), Memory>
    requires output { (1 ≤ y) × (y ≤ f.old.variables) }
    requires left { (1 ≤ a) × (a ≤ f.old.variables) }
    requires right { (1 ≤ b) × (b ≤ f.old.variables) }
    requires few { length f.old.matrix + 4 ≤ MAX_CLAUSES }
    ensures { OnOk result (f.new ≡ record f.old { matrix = f.old.matrix ++ and_clauses y a b }) }
{
    f.every_formula_is_lawful();
    f.add_clause(&[Lit::neg(y), Lit::pos(a)])?;
    f.add_clause(&[Lit::neg(y), Lit::pos(b)])?;
    f.add_clause(&[Lit::pos(y), Lit::neg(a), Lit::neg(b)])
}

fn add_xor(f: &mut Formula, y: u64, a: u64, b: u64) -> Result<(), Memory>
    requires output { (1 ≤ y) × (y ≤ f.old.variables) }
    requires left { (1 ≤ a) × (a ≤ f.old.variables) }
    requires right { (1 ≤ b) × (b ≤ f.old.variables) }
    requires few { length f.old.matrix + 4 ≤ MAX_CLAUSES }
    ensures { OnOk result (f.new ≡ record f.old { matrix = f.old.matrix ++ xor_clauses y a b }) }
{
    f.every_formula_is_lawful();
    f.add_clause(&[Lit::neg(y), Lit::pos(a), Lit::pos(b)])?;
    f.add_clause(&[Lit::neg(y), Lit::neg(a), Lit::neg(b)])?;
    f.add_clause(&[Lit::pos(y), Lit::neg(a), Lit::pos(b)])?;
    f.add_clause(&[Lit::pos(y), Lit::pos(a), Lit::neg(b)])
}
