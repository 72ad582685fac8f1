//! The search for values of both copies that a question asks for.

ghost use Rattle.std.specs.Prelude.{◌≡◌, ◌<◌, ◌++◌, ℕ, true, All, length, IfOk, IsErrOf, Ok};
ghost use Rattle.oracle.specs.Calls.{assumed};
ghost use Rattle.oracle.specs.Limits.{IsAtSomeLimit};
ghost use Rattle.definability.specs.Copies.{IsDefinability};
ghost use Rattle.definability.specs.Growing.{HasSearched};
ghost use Rattle.definability.specs.Dividing.{AreActive, IsAsked, IsQuestion, ShowsDefinition, ModelsCopies};

use crate::asking::{Asked, Question};
use crate::definability::Definability;
use dq_lits::laws::derived_line_is_implied;
use dq_lits::{Lit, Memory};
use hint_log::laws::{ids_stay, reached_are_ids};
use hint_log::{Log, Stop};
use oracle::{Answer, Group, Oracle};
use std::alloc::Global;

impl Definability {
    /// Searches for values that make both copies and what is asked of each true, where the copies
    /// agree at the question's places.
    pub(crate) fn search<O: Oracle>(
        &self,
        oracle: &mut O,
        question: &Question,
        asked: &Asked,
        log: &mut Log,
    ) -> Result<Answer, Stop>
        requires fit { O.Fits oracle.old log.old }
        requires definability { IsDefinability question.now.f.now self.now log.old.entries }
        requires posed { IsQuestion question.now.f.now self.now.copied.items
            question.now.places.now question.now.y question.now.conditions.now }
        requires copied { IsAsked log.old.entries question.now.y question.now.conditions.now
            asked.now }
        ensures fit { O.Fits oracle.new log.new }
        ensures searched { HasSearched question.now.f.now self.now log.old log.new }
        ensures told { result ≡ Ok Answer.Sat → O.is_told oracle.new ≡ true }
        ensures sat { result ≡ Ok Answer.Sat → ModelsCopies self.now question.now.places.now
            (asked.now.first.items ++ asked.now.second.items) (O.values oracle.new)
            log.new.entries }
        ensures unsat { (id : ℕ) → result ≡ Ok (Answer.Unsat id)
            → ShowsDefinition question.now.f.now question.now.places.now question.now.y
            question.now.conditions.now self.now asked.now.first.items log.new.entries id }
        ensures limit { IsErrOf result Stop.Limit → IsAtSomeLimit log.new }
    {
        derived_line_is_implied();
        ids_stay();
        reached_are_ids();
        let active = self.active(question.places)?;
        let assume = joined(self.alloc, &asked.first, &asked.second)?;
        let answer = oracle.solve(&active, &assume, log)?;
        Ok(answer)
    }

    // The groups of both copies, and those of the equations at these places.
    fn active(&self, places: &[usize]) -> Result<Vec<Group>, Memory>
        requires { All (λ p. p < length self.now.links.items) places.now }
        ensures { IfOk result (λ active. AreActive self.now places.now active.items) }
    {
        let mut active = Vec::new(self.alloc);
        active.extend_from_slice(&self.first.groups)?;
        active.extend_from_slice(&self.second.groups)?;
        for place in places {
            active.push(self.links[*place])?;
        }
        Ok(active)
    }
}

/// The selectors of these groups, and then these literals.
pub(crate) fn switched(alloc: Global, groups: &[Group], lits: &[Lit]) -> Result<Vec<Lit>, Memory>
    ensures { IfOk result (λ all. all.items ≡ assumed groups.now lits.now) }
{
    let mut all = Vec::new(alloc);
    for group in groups {
        all.push(group.selector)?;
    }
    all.extend_from_slice(lits)?;
    Ok(all)
}

/// These literals, and then those.
pub(crate) fn joined(alloc: Global, lits: &[Lit], more: &[Lit]) -> Result<Vec<Lit>, Memory>
    ensures { IfOk result (λ joined. joined.items ≡ lits.now ++ more.now) }
{
    let mut joined = Vec::new(alloc);
    joined.extend_from_slice(lits)?;
    joined.extend_from_slice(more)?;
    Ok(joined)
}
