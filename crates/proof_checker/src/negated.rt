//! The clauses of the negated matrix, one at a time.
//!
//! The negated matrix is read on demand: a clause is at most three literals in registers, or the
//! last one, whose length is computed. So a proof takes memory for its lines and for the variables
//! that occur. Each literal of the formula is kept beside its clause's variable, so that an id
//! finds its clause without a search.

ghost use Rattle.std.specs.Prelude.{◌≡◌, ◌+◌, ◌-◌, ◌*◌, ◌/◌, ◌<◌, length, Some};
ghost use Rattle.std.specs.List.{flat_map, slice_get};
ghost use Rattle.std.specs.Option.{option_map, option_and_then};
ghost use Rattle.cert_text.specs.NegatedMatrix.{gate_clauses, without_constants};
ghost use Rattle.skolem_checker.specs.Checks.{Candidate};
ghost use Rattle.proof_checker.specs.CircuitProof.{negated_candidate};
ghost use Rattle.proof_checker.specs.ClauseLiterals.{AreClauseLiterals, formula_clauses};
ghost use Rattle.proof_checker.specs.Tables.{candidate_by};
ghost use Rattle.proof_checker.specs.ShortClause.{short_literals, last_literals, literals_of};

use crate::circuit_literals::{CircuitLiterals, opposite_of};
use crate::short_clauses::{ShortClause, short_of_three, short_of_two};
use crate::tables::NegatedTables;
use circuit_plain::Circuit;
use dq_formula::Formula;
use dq_lits::Lit;
use rup_core::{Base, FewLiterals};
use std::marker::Model;

/// The negated matrix of a formula under a circuit. It takes no memory, nor does a clause.
#[derive(Drop)]
pub(crate) struct NegatedMatrix<'f, 'c, 't> {
    formula: &'f Formula,
    circuit: CircuitLiterals<'c, 't>,
    // Each literal of the formula, with the variable that tells that its clause is false.
    literals: &'t Vec<(u64, Lit)>,
}

impl<'f, 'c, 't> Model for NegatedMatrix<'f, 'c, 't> {
    ghost use Rattle.skolem_checker.specs.Checks.{Candidate};
    ghost use Rattle.proof_checker.specs.ClauseLiterals.{AreClauseLiterals};

    ghost Value = { Candidate };

    ghost view = { λ n. record { formula = n.formula.now; circuit = n.circuit } };

    ghost invariant = { λ n. AreClauseLiterals n.formula.now n.circuit.netlist n.literals.now.items };
}

/// A clause of the negated matrix.
#[derive(Drop)]
pub(crate) enum NegatedClause {
    /// There is none with the id, or a constant makes it true.
    Missing,
    /// It belongs to a gate, or to a literal of the formula.
    Short(ShortClause),
    /// It says that some clause of the formula is false.
    Last,
}

// One of the clauses of the gates, of which each has three; none where a constant makes it true.
#[inline(always)]
fn gate_clause(circuit: &Circuit, i: u64) -> Option<ShortClause>
    requires { i / 3 < length circuit.now.gates }
    ensures { option_map short_literals result
        ≡ option_and_then without_constants
        (slice_get (flat_map gate_clauses circuit.now.gates) i) }
{
    circuit.every_circuit_is_a_netlist();
    let (variable, left, right) = circuit.gate((i / 3) as usize);
    match i % 3 {
        0 => short_of_two(opposite_of(variable), left),
        1 => short_of_two(opposite_of(variable), right),
        2 => short_of_three(variable, opposite_of(left), opposite_of(right)),
        _ => unreachable!(),
    }
}

fn short(clause: Option<ShortClause>) -> NegatedClause
    ensures { (c : Candidate) → literals_of c result ≡ option_map short_literals clause }
{
    match clause {
        Some(clause) => NegatedClause::Short(clause),
        None => NegatedClause::Missing,
    }
}

impl<'f, 'c, 't> NegatedMatrix<'f, 'c, 't> {
    pub(crate) fn new(
        formula: &'f Formula,
        circuit: &'c Circuit,
        tables: &'t NegatedTables,
    ) -> NegatedMatrix<'f, 'c, 't>
        requires { AreClauseLiterals formula.now circuit.now tables.now.literals.items }
        ensures { result ≡ candidate_by formula.now circuit.now tables.now }
    {
        NegatedMatrix {
            formula,
            circuit: CircuitLiterals::new(circuit, &tables.inputs, &tables.outputs),
            literals: &tables.literals,
        }
    }

    // The clause at a place behind those of the gates.
    #[inline(always)]
    fn formula_clause(&self, i: u64) -> NegatedClause
        ensures { literals_of self.now result
            ≡ option_and_then without_constants (slice_get (formula_clauses self.now) i) }
    {
        let literals: &[(u64, Lit)] = self.literals;
        // The call shows the formula's invariant.
        let _ = self.formula.clauses();
        if i < literals.len() as u64 {
            let entry = literals[i as usize];
            let literal = self.circuit.literal_under(entry.1);
            return short(short_of_two(opposite_of(2 * entry.0), opposite_of(literal)));
        }
        if i == literals.len() as u64 {
            return NegatedClause::Last;
        }
        NegatedClause::Missing
    }

    // The clause with an id. It is what a hint costs, so that it stands where it is called, and what it
    // calls too: its literals stay in registers then.
    #[inline(always)]
    fn clause(&self, id: u64) -> NegatedClause
        ensures { literals_of self.now result ≡ negated_candidate self.now id }
    {
        if id == 0 {
            return NegatedClause::Missing;
        }
        let i = id - 1;
        let circuit = self.circuit.circuit();
        let gates = circuit.gates() as u64;
        if i / 3 < gates {
            return short(gate_clause(circuit, i));
        }
        self.formula_clause(i - 3 * gates)
    }

    // The literal at a place of the last clause.
    fn last_literal(&self, i: usize) -> Lit
        requires { i < length self.now.formula.matrix }
        ensures { slice_get (last_literals self.now) i ≡ Some result }
    {
        // The call shows the formula's invariant.
        let _ = self.formula.clauses();
        Lit::pos(self.circuit.circuit().max_var() + 1 + i as u64)
    }
}

impl<'f, 'c, 't> Base for NegatedMatrix<'f, 'c, 't> {
    ghost clauses = { λ n. negated_candidate n };

    fn size(&self, id: u64) -> Option<usize> {
        match self.clause(id) {
            NegatedClause::Missing => None,
            NegatedClause::Short(clause) => Some(clause.len()),
            NegatedClause::Last => Some(self.formula.clauses()),
        }
    }

    fn lit(&self, id: u64, i: usize) -> Lit {
        match self.clause(id) {
            NegatedClause::Missing => unreachable!(),
            NegatedClause::Short(clause) => clause.literal(i),
            NegatedClause::Last => self.last_literal(i),
        }
    }

    fn few(&self, id: u64) -> Option<FewLiterals> {
        match self.clause(id) {
            NegatedClause::Short(clause) => Some(clause.few()),
            NegatedClause::Missing | NegatedClause::Last => None,
        }
    }
}
