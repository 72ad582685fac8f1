//! Rows under which the universal literals of a clause are false.
//!
//! Rows are added behind those that there are, so that the first row that agrees with another stays
//! and old lines keep their literals.

ghost use Rattle.std.specs.Prelude.{◌≡◌, ◌==◌, ◌<◌, ℕ, false, true, length, OnOk, IfOk};
ghost use Rattle.std.specs.List.{list_any};
ghost use Rattle.dq_lits.specs.Literal.{variable_of};
ghost use Rattle.dq_lits.specs.Derivation.{is_tautology};
ghost use Rattle.dq_lits.specs.Expansion.{universal_literal_true};
ghost use Rattle.dq_formula.specs.Prefix.{IsLawful};
ghost use Rattle.lifted_proofs.specs.FalsifiedRows.{IsFalsified};

use dq_formula::Formula;
use dq_lits::{Lit, Memory, Row};

// Whether a literal is on a universal and true.
fn is_true(f: &Formula, row: &Row, l: Lit) -> bool
    requires { length row.now ≡ length f.now.universals }
    ensures { result ≡ universal_literal_true f.now row.now l }
{
    let Some(place) = f.universal_place(l.var()) else {
        return false;
    };
    row.get(place) != l.is_neg()
}

/// Whether a universal literal of a clause is true.
pub(crate) fn any_true(f: &Formula, row: &Row, clause: &[Lit]) -> bool
    requires { length row.now ≡ length f.now.universals }
    ensures { result ≡ list_any (universal_literal_true f.now row.now) clause.now }
{
    clause.iter().any(|l| is_true(f, row, *l))
}

/// The row, but that the universal literals of a clause are false, which holds no literal beside its
/// negation.
pub(crate) fn falsified(f: &Formula, row: &Row, clause: &[Lit]) -> Result<Row, Memory>
    requires whole { length row.now ≡ length f.now.universals }
    requires plain { is_tautology clause.now ≡ false }
    ensures whole { IfOk result (λ low. length low ≡ length f.now.universals) }
    ensures falsified { IfOk result (IsFalsified f.now row.now clause.now) }
{
    let mut low = row.copy()?;
    for l in clause {
        if let Some(place) = f.universal_place(l.var()) {
            low.set(place, l.is_neg());
        }
    }
    Ok(low)
}
