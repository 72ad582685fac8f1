//! The search that proves a definition.

ghost use Rattle.std.specs.Prelude.{◌≡◌, ◌++◌, ℕ, IfOk, IsErrOf};
ghost use Rattle.dq_lits.specs.Formula.{Dqbf};
ghost use Rattle.oracle.specs.Limits.{IsAtSomeLimit};
ghost use Rattle.definability.specs.Growing.{HasSameGivens};
ghost use Rattle.definition_proofs.specs.Searching.{ArePremises, HaveNoModel};
ghost use Rattle.definition_proofs.specs.Shown.{IsShownDefinition};
ghost use Rattle.definition_proofs.specs.Terms.{GrewByProof};

use crate::differing::Difference;
use dq_lits::Memory;
use dq_lits::laws::derived_line_is_implied;
use hint_log::{Leaf, Log, Stop};
use oracle::{Answer, Group, Oracle};
use std::alloc::Global;

/// What a definition was proved by: the id of the log's answer, and the output over first copies
/// that the existential's copy equals.
#[derive(Clone, Copy)]
pub struct Proved {
    pub id: u64,
    pub leaf: Leaf,
}

/// These groups, and then those.
pub(crate) fn joined(alloc: Global, groups: &[Group], more: &[Group]) -> Result<Vec<Group>, Memory>
    ensures { IfOk result (λ joined. joined.items ≡ groups.now ++ more.now) }
{
    let mut joined = Vec::new(alloc);
    joined.extend_from_slice(groups)?;
    joined.extend_from_slice(more)?;
    Ok(joined)
}

impl Difference {
    /// Shows that the clauses of these groups can't all be true, and answers what shows it.
    pub(crate) fn refute<O: Oracle>(
        &self,
        oracle: &mut O,
        active: &[Group],
        log: &mut Log,
    ) -> Result<Proved, Stop>
        requires fit { O.Fits oracle.old log.old }
        requires premises { ArePremises log.old.entries self.now.existential self.now.output
            active.now }
        requires none { HaveNoModel log.old active.now }
        ensures fit { O.Fits oracle.new log.new }
        ensures grew { (f : Dqbf) (standing : ℕ)
            → GrewByProof f standing self.now.existential log.old log.new }
        ensures same { HasSameGivens log.old.entries log.new.entries }
        ensures output { IfOk result (λ p. p.leaf ≡ self.now.output) }
        ensures shown { IfOk result (λ p. IsShownDefinition log.new.entries self.now.existential
            p.leaf p.id) }
        ensures limit { IsErrOf result Stop.Limit → IsAtSomeLimit log.new }
    {
        derived_line_is_implied();
        match oracle.solve(active, &[], log)? {
            Answer::Unsat(id) => Ok(Proved {
                id,
                leaf: self.output,
            }),
            Answer::Sat => unreachable!(),
        }
    }
}
