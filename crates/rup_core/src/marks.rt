//! The memory of a derivation, clean between lines.

ghost use Rattle.std.specs.Prelude.{◌≡◌, IfOk};

use crate::trails::Trail;
use dq_lits::Memory;
use std::alloc::Global;
use std::marker::Model;

/// The memory of [`derive`](crate::derive): a mark for each of the first variables, a map for marks
/// beyond them, and the trail that takes the marks back. Between calls no variable is marked.
#[derive(Drop)]
pub struct Marks {
    pub(crate) trail: Trail,
}

impl Model for Marks {
    ghost use Rattle.std.specs.Prelude.{◌≡◌, ℕ, []};

    ghost Value = { ℕ };

    ghost view = { λ m. m.trail.variables };

    ghost invariant = { λ m. m.trail.trues ≡ [] };
}

impl Marks {
    /// Marks for the variables from 1 to `vars`.
    pub fn new(alloc: Global, vars: usize) -> Result<Marks, Memory>
        ensures { IfOk result (λ marks. marks ≡ vars) }
    {
        let trail = Trail::new(alloc, vars)?;
        Ok(Marks { trail })
    }
}
