//! What a search found: a definition, or values of both copies.

ghost use Rattle.std.specs.Prelude.{◌≡◌, ◌<◌, ◌+◌, true, All, length, IfOk};
ghost use Rattle.dq_lits.specs.Literal.{variable_of};
ghost use Rattle.aig_graph.specs.Made.{Extends};
ghost use Rattle.definability.specs.Copies.{IsDefinability, copies_of};
ghost use Rattle.definability.specs.Dividing.{IsAsked, IsQuestion, IsDefinitionAt, ShowsDefinition, AreBits, AreTold, IsPairOf, shared_pairs, values_at};

use crate::asking::{Asked, Question};
use crate::copies::is_copied;
use crate::definability::Definability;
use crate::defining::Pair;
use crate::searching::switched;
use aig_graph::{Graph, Node};
use dq_lits::{Lit, Memory, Row};
use hint_log::Log;
use hint_log::laws::names_are_unique;
use interpolants::from_log;
use oracle::Oracle;
use std::alloc::Global;

impl Definability {
    /// The definition that an answer shows: an interpolant between the two copies.
    pub(crate) fn definition(
        &self,
        graph: &mut Graph,
        question: &Question,
        asked: &Asked,
        id: u64,
        log: &Log,
    ) -> Result<Node, Memory>
        requires definability { IsDefinability question.now.f.now self.now log.now.entries }
        requires posed { IsQuestion question.now.f.now self.now.copied.items
            question.now.places.now question.now.y question.now.conditions.now }
        requires copied { IsAsked log.now.entries question.now.y question.now.conditions.now
            asked.now }
        requires shown { ShowsDefinition question.now.f.now question.now.places.now question.now.y
            question.now.conditions.now self.now asked.now.first.items log.now.entries id }
        requires inputs { graph.old.inputs ≡ length question.now.f.now.universals
            + length question.now.f.now.existentials }
        ensures extends { Extends graph.old graph.new }
        ensures defined { IfOk result (IsDefinitionAt question.now.f.now question.now.places.now
            question.now.y question.now.conditions.now graph.new) }
    {
        names_are_unique();
        log.every_log_is_lawful();
        let shared = self.shared(graph, question.places)?;
        let a_side = switched(self.alloc, &self.first.groups, &asked.first)?;
        let node = from_log(self.alloc, log, id, &a_side, &shared, graph)?;
        Ok(node)
    }

    // The first copies of the variables at these places, with their inputs.
    fn shared(&self, graph: &Graph, places: &[usize]) -> Result<Vec<(u64, Node)>, Memory>
        requires copies { All (λ p. p < length (copies_of self.now.first)) places.now }
        requires inputs { All (λ p. p < graph.now.inputs) places.now }
        ensures { IfOk result (λ shared. shared.items ≡ shared_pairs self.now places.now) }
    {
        let mut shared = Vec::new(self.alloc);
        for place in places {
            let copy = self.first.copy_at(*place);
            shared.push((copy.var(), graph.input(*place)))?;
        }
        Ok(shared)
    }

    /// The values of both copies that a search found, with these bits of the universals that have
    /// none.
    pub(crate) fn pair<O: Oracle>(&self, oracle: &O, others: &Row) -> Result<Pair, Memory>
        requires told { O.is_told oracle.now ≡ true }
        requires first_long { length others.now ≡ length self.now.first.universals.items }
        requires second_long { length others.now ≡ length self.now.second.universals.items }
        requires first_universals { AreTold (O.HasVariable oracle.now) self.now.copied.items
            self.now.first.universals.items }
        requires first_existentials { All (λ l. O.HasVariable oracle.now (variable_of l))
            self.now.first.existentials.items }
        requires second_universals { AreTold (O.HasVariable oracle.now) self.now.copied.items
            self.now.second.universals.items }
        requires second_existentials { All (λ l. O.HasVariable oracle.now (variable_of l))
            self.now.second.existentials.items }
        ensures { IfOk result (IsPairOf self.now others.now (O.values oracle.now)) }
    {
        let row1 = row_of_copies(oracle, &self.first.universals, &self.copied, others)?;
        let values1 = row_of_values(self.alloc, oracle, &self.first.existentials)?;
        let row2 = row_of_copies(oracle, &self.second.universals, &self.copied, others)?;
        let values2 = row_of_values(self.alloc, oracle, &self.second.existentials)?;
        Ok(Pair {
            row1,
            values1,
            row2,
            values2,
        })
    }
}

/// The values of the variables of those of these literals that are copies, and else the bits of
/// another row.
pub(crate) fn row_of_copies<O: Oracle>(
    oracle: &O,
    lits: &[Lit],
    flags: &[bool],
    others: &Row,
) -> Result<Row, Memory>
    requires told { O.is_told oracle.now ≡ true }
    requires made { AreTold (O.HasVariable oracle.now) flags.now lits.now }
    requires long { length others.now ≡ length lits.now }
    ensures { IfOk result (AreBits (O.values oracle.now) flags.now others.now lits.now) }
{
    let mut row = others.copy()?;
    for place in 0..lits.len() {
        if is_copied(flags, place) {
            let bit = oracle.value(lits[place].var());
            row.set(place, bit);
        }
    }
    Ok(row)
}

/// The values of these literals' variables, in order.
pub(crate) fn row_of_values<O: Oracle>(
    alloc: Global,
    oracle: &O,
    lits: &[Lit],
) -> Result<Row, Memory>
    requires told { O.is_told oracle.now ≡ true }
    requires made { All (λ l. O.HasVariable oracle.now (variable_of l)) lits.now }
    ensures { IfOk result (λ row. row ≡ values_at (O.values oracle.now) lits.now) }
{
    let mut row = Row::new(alloc, lits.len())?;
    for place in 0..lits.len() {
        let bit = oracle.value(lits[place].var());
        row.set(place, bit);
    }
    Ok(row)
}
