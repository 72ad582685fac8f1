//! Which given clauses are on the A side, and which variables stand there.
//!
//! A given clause is on the A side where it negates a selector of that side, so that neither groups
//! nor origins are known here.

ghost use Rattle.std.specs.Prelude.{◌≡◌, ◌||◌, ℕ, List, [], OnOk, Some};
ghost use Rattle.std.specs.List.{list_any};
ghost use Rattle.dq_lits.specs.Literal.{Literal, positive, opposite};
ghost use Rattle.dq_lits.specs.Derivation.{holds, AreSame};
ghost use Rattle.hint_log.specs.Conditions.{AreNamed, IsId};
ghost use Rattle.hint_log.specs.Naming.{is_selector_name};
ghost use Rattle.hint_log.specs.Reached.{AreReached};
ghost use Rattle.interpolants.specs.Interpolant.{stands_on};
ghost use Rattle.interpolants.specs.Sides.{AreSelectors, AreOfA, IsSide};
ghost use Rattle.interpolants.specs.Splits.{divided};
ghost use Rattle.aig_graph.specs.declared.nodes.Node.{Node as NodeValue};

use crate::literal_sets::LiteralSet;
use crate::splits::Answer;
use dq_lits::{Lit, Memory};
use hint_log::laws::reached_are_ids;
use hint_log::{Log, Name};
use std::alloc::Global;

/// The A side: its assumptions, the selectors among them, and its variables, as positive literals.
#[derive(Drop)]
pub(crate) struct Side {
    pub(crate) assumed: LiteralSet,
    pub(crate) selectors: LiteralSet,
    pub(crate) variables: LiteralSet,
}

/// Whether a given clause is on the side with these selectors.
pub(crate) fn is_on_side(selectors: &LiteralSet, clause: &[Lit]) -> bool
    ensures { result ≡ list_any (λ l. holds selectors.now (opposite l)) clause.now }
{
    clause.iter().any(|l| selectors.has(l.not()))
}

impl Side {
    /// An empty side. It takes no memory.
    pub(crate) fn new(alloc: Global) -> Side
        ensures assumed { result.assumed ≡ [] }
        ensures selectors { result.selectors ≡ [] }
        ensures variables { result.variables ≡ [] }
    {
        Side {
            assumed: LiteralSet::new(alloc),
            selectors: LiteralSet::new(alloc),
            variables: LiteralSet::new(alloc),
        }
    }

    /// Makes an empty side that of these assumptions, in what an answer reaches.
    pub(crate) fn fill(&mut self, answer: &Answer, a_side: &[Lit]) -> Result<(), Memory>
        requires id { IsId answer.now.log.now.entries answer.now.id }
        requires ids { AreReached answer.now.log.now.entries answer.now.id answer.now.ids.now }
        requires named { AreNamed answer.now.log.now.entries a_side.now }
        requires no_assumed { self.old.assumed ≡ [] }
        requires no_selectors { self.old.selectors ≡ [] }
        requires no_variables { self.old.variables ≡ [] }
        ensures same { OnOk result (AreSame self.new.assumed a_side.now) }
        ensures side { OnOk result ((shared : List (ℕ × NodeValue))
            → IsSide (divided answer.now self.new.assumed shared) self.new) }
    {
        self.assumed.fill(a_side)?;
        fill_selectors(&mut self.selectors, answer.log, a_side)?;
        add_variables(&mut self.variables, a_side)?;
        add_given(answer, &self.selectors, &mut self.variables)
    }
}

// Puts the selectors among these literals into an empty set.
fn fill_selectors(set: &mut LiteralSet, log: &Log, lits: &[Lit]) -> Result<(), Memory>
    requires named { AreNamed log.now.entries lits.now }
    requires empty { set.old ≡ [] }
    ensures { OnOk result (AreSelectors log.now.entries lits.now set.new) }
{
    for l in lits {
        if is_selector(log.name(l.var())) {
            set.add(*l)?;
        }
    }
    Ok(())
}

fn is_selector(name: Name) -> bool
    ensures { result ≡ is_selector_name (Some name) }
{
    match name {
        Name::Selector { .. } => true,
        _ => false,
    }
}

fn add_variables(set: &mut LiteralSet, lits: &[Lit]) -> Result<(), Memory>
    ensures { OnOk result
        ((v : ℕ)
        → holds set.new (positive v) ≡ (holds set.old (positive v) || stands_on lits.now v)) }
{
    for l in lits {
        set.add(Lit::pos(l.var()))?;
    }
    Ok(())
}

// Adds the variables of the given clauses on the side with these selectors.
fn add_given(
    answer: &Answer,
    selectors: &LiteralSet,
    variables: &mut LiteralSet,
) -> Result<(), Memory>
    requires id { IsId answer.now.log.now.entries answer.now.id }
    requires ids { AreReached answer.now.log.now.entries answer.now.id answer.now.ids.now }
    ensures { OnOk result ((assumed : List Literal) (shared : List (ℕ × NodeValue))
        → AreSelectors answer.now.log.now.entries assumed selectors.now
        → ((v : ℕ) → holds variables.old (positive v) ≡ stands_on assumed v)
        → AreOfA (divided answer.now assumed shared) variables.new) }
{
    let log = answer.log;
    log.every_log_is_lawful();
    reached_are_ids();
    for at in answer.ids {
        if log.origin(*at).is_some() {
            let clause = log.clause(*at);
            if is_on_side(selectors, clause) {
                add_variables(variables, clause)?;
            }
        }
    }
    Ok(())
}
