//! The clause that stands for literals of a group.

ghost use Rattle.std.specs.Prelude.{◌≡◌, ◌∷◌, IfOk};
ghost use Rattle.dq_lits.specs.Literal.{opposite};

use dq_lits::{Lit, Memory};
use std::alloc::Global;

/// The clause of a group's literals.
pub fn group_clause(alloc: Global, selector: Lit, lits: &[Lit]) -> Result<Vec<Lit>, Memory>
    ensures { IfOk result (λ c. c.items ≡ opposite selector ∷ lits.now) }
{
    let mut clause = Vec::new(alloc);
    clause.push(selector.not())?;
    for l in lits {
        clause.push(*l)?;
    }
    Ok(clause)
}
