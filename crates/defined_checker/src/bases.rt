//! The clauses that a definition's proof stands on, one at a time.

ghost use Rattle.std.specs.Prelude.{◌≡◌, ◌-◌, ◌*◌, ◌/◌, ◌^◌, ◌<◌, ◌≤◌, length, slice_index_or, IsSome, Some};
ghost use Rattle.std.specs.List.{flat_map, slice_get};
ghost use Rattle.std.specs.Option.{option_map, option_and_then};
ghost use Rattle.dq_lits.specs.Formula.{Dqbf, existential_of};
ghost use Rattle.cert_text.specs.AllowedDefinitions.{IsDefinitionOf};
ghost use Rattle.cert_text.specs.DefinitionsRead.{definition_seen};
ghost use Rattle.cert_text.specs.NegatedMatrix.{gate_clauses, without_constants};
ghost use Rattle.proof_checker.specs.ShortClause.{short_literals};
ghost use Rattle.defined_checker.specs.Bases.{IsPlaceIn, IsSmallGate, differing, literals_of};
ghost use Rattle.defined_checker.specs.DefinitionBase.{definition_base, definition_clauses};

use cert_text::Definition;
use circuit_plain::Gate;
use dq_formula::Formula;
use dq_lits::Lit;
use proof_checker::{ShortClause, opposite_of, short_of_three, short_of_two};
use rup_core::{Base, FewLiterals};
use std::marker::Model;

/// The clauses that a definition's proof stands on: the formula's, those of the gates, and that the
/// existential and the output differ. It takes no memory, nor does a clause.
#[derive(Drop)]
pub(crate) struct DefinitionBase<'f, 'd> {
    formula: &'f Formula,
    definition: &'d Definition,
}

impl<'f, 'd> Model for DefinitionBase<'f, 'd> {
    ghost use Rattle.cert_text.specs.DefinitionsRead.{definition_seen};
    ghost use Rattle.defined_checker.specs.Bases.{DefinitionIn, IsWithin};

    ghost Value = { DefinitionIn };

    ghost view = { λ b. record { formula = b.formula.now; definition = definition_seen b.definition.now } };

    ghost invariant = { λ b. IsWithin
        (record { formula = b.formula.now; definition = definition_seen b.definition.now }) };
}

/// A clause that the proof stands on.
#[derive(Drop)]
pub(crate) enum DefinitionClause {
    /// There is none with the id, or a constant makes it true.
    Missing,
    /// The formula's clause at this place.
    Matrix(usize),
    /// It belongs to a gate, or says that the existential and the output differ.
    Short(ShortClause),
}

fn short(clause: Option<ShortClause>) -> DefinitionClause
    ensures clause { (f : Dqbf) → literals_of f result ≡ option_map short_literals clause }
    ensures place { (f : Dqbf) → IsPlaceIn f result }
{
    match clause {
        Some(clause) => DefinitionClause::Short(clause),
        None => DefinitionClause::Missing,
    }
}

// One of the three clauses of a gate.
fn clause_of(gate: Gate, part: u64) -> Option<ShortClause>
    requires small { IsSmallGate gate }
    requires part { part < 3 }
    ensures { option_map short_literals result
        ≡ option_and_then without_constants (slice_get (gate_clauses gate) part) }
{
    let variable = 2 * gate.variable;
    match part {
        0 => short_of_two(opposite_of(variable), gate.left),
        1 => short_of_two(opposite_of(variable), gate.right),
        2 => short_of_three(variable, opposite_of(gate.left), opposite_of(gate.right)),
        _ => unreachable!(),
    }
}

impl<'f, 'd> DefinitionBase<'f, 'd> {
    pub(crate) fn new(formula: &'f Formula, definition: &'d Definition) -> DefinitionBase<'f, 'd>
        requires existential { IsSome (existential_of formula.now definition.now.existential) }
        requires lawful { IsDefinitionOf formula.now (definition_seen definition.now) }
        ensures { result ≡ record {
          formula = formula.now;
          definition = definition_seen definition.now;
        } }
    {
        DefinitionBase {
            formula,
            definition,
        }
    }

    // The gate at a place.
    fn gate(&self, place: usize) -> Gate
        requires { place < length self.now.definition.gates }
        ensures gate { result ≡ slice_index_or self.now.definition.gates place result }
        ensures small { IsSmallGate result }
    {
        // The call shows the formula's invariant.
        let _ = self.formula.vars();
        self.definition.gates[place]
    }

    // One of the clauses of the gates, of which each has three.
    fn gate_clause(&self, i: u64) -> Option<ShortClause>
        requires { i / 3 < length self.now.definition.gates }
        ensures { option_map short_literals result
            ≡ option_and_then without_constants
            (slice_get (flat_map gate_clauses self.now.definition.gates) i) }
    {
        let gate = self.gate((i / 3) as usize);
        clause_of(gate, i % 3)
    }

    // The existential's variable.
    fn existential(&self) -> u64
        ensures value { result ≡ self.now.definition.existential }
        ensures small { result < 2 ^ 61 }
    {
        self.formula.every_formula_is_lawful();
        self.definition.existential
    }

    // The output's literal.
    fn output(&self) -> u64
        ensures value { result ≡ self.now.definition.output }
        ensures small { result < 2 ^ 62 }
    {
        // The call shows the formula's invariant.
        let _ = self.formula.vars();
        self.definition.output
    }

    // One of the two clauses which say that the existential and the output differ.
    fn differing_clause(&self, i: u64) -> Option<ShortClause>
        ensures { option_map short_literals result
            ≡ option_and_then without_constants (slice_get (differing self.now.definition) i) }
    {
        let literal = 2 * self.existential();
        let output = self.output();
        match i {
            0 => short_of_two(literal, output),
            1 => short_of_two(opposite_of(literal), opposite_of(output)),
            _ => None,
        }
    }

    // The clause at a place behind those of the formula.
    fn definition_clause(&self, i: u64) -> DefinitionClause
        ensures clause { literals_of self.now.formula result
            ≡ option_and_then without_constants
            (slice_get (definition_clauses self.now.definition) i) }
        ensures place { IsPlaceIn self.now.formula result }
    {
        let gates = self.definition.gates.len() as u64;
        if i / 3 < gates {
            return short(self.gate_clause(i));
        }
        short(self.differing_clause(i - 3 * gates))
    }

    // The clause with an id.
    fn clause(&self, id: u64) -> DefinitionClause
        ensures clause { literals_of self.now.formula result
            ≡ definition_base self.now.formula self.now.definition id }
        ensures place { IsPlaceIn self.now.formula result }
    {
        if id == 0 {
            return DefinitionClause::Missing;
        }
        let i = id - 1;
        let clauses = self.formula.clauses() as u64;
        if i < clauses {
            return DefinitionClause::Matrix(i as usize);
        }
        self.definition_clause(i - clauses)
    }
}

impl<'f, 'd> Base for DefinitionBase<'f, 'd> {
    ghost clauses = { λ b. definition_base b.formula b.definition };

    fn size(&self, id: u64) -> Option<usize> {
        match self.clause(id) {
            DefinitionClause::Missing => None,
            DefinitionClause::Matrix(j) => Some(self.formula.clause(j).len()),
            DefinitionClause::Short(clause) => Some(clause.len()),
        }
    }

    fn lit(&self, id: u64, i: usize) -> Lit {
        match self.clause(id) {
            DefinitionClause::Missing => unreachable!(),
            DefinitionClause::Matrix(j) => self.formula.clause(j)[i],
            DefinitionClause::Short(clause) => clause.literal(i),
        }
    }

    fn held(&self, id: u64) -> Option<&[Lit]> {
        match self.clause(id) {
            DefinitionClause::Matrix(j) => Some(self.formula.clause(j)),
            DefinitionClause::Missing | DefinitionClause::Short(_) => None,
        }
    }

    fn few(&self, id: u64) -> Option<FewLiterals> {
        match self.clause(id) {
            DefinitionClause::Short(clause) => Some(clause.few()),
            DefinitionClause::Missing | DefinitionClause::Matrix(_) => None,
        }
    }
}
