//! The ids of the negated matrix.

ghost use Rattle.std.specs.Prelude.{◌≡◌, ◌≤◌, ◌<◌, ◌+◌, ◌^◌, length, IfOk};
ghost use Rattle.std.specs.List.{sum_by};
ghost use Rattle.cert_export.specs.CircuitPart.{last_negated, negated_id};
ghost use Rattle.cert_export.specs.Negated.{HasNegatedId, AreLengthsBefore};

use crate::bases::Ground;
use crate::circuit_numbers::MOST;
use dq_formula::Formula;
use dq_lits::Memory;
use hint_log::Origin;
use number_tables::NumberSet;
use std::alloc::Global;

/// How many literals stand before each clause, and last in all clauses.
pub(crate) fn lengths_before(alloc: Global, f: &Formula) -> Result<Vec<u64>, Memory>
    ensures lengths { IfOk result (λ before. AreLengthsBefore f.now.matrix before.items) }
    ensures few { IfOk result (λ before. sum_by length f.now.matrix ≤ MOST) }
{
    let mut before = Vec::new(alloc);
    let mut literals = 0;
    before.push(literals)?;
    for j in 0..f.clauses() {
        literals = with_more(literals, f.clause(j).len() as u64)?;
        before.push(literals)?;
    }
    Ok(before)
}

// So many literals and more, unless they are too many to be numbered.
fn with_more(literals: u64, more: u64) -> Result<u64, Memory>
    requires { literals ≤ MOST }
    ensures sum { IfOk result (λ n. n ≡ literals + more) }
    ensures few { IfOk result (λ n. n ≤ MOST) }
{
    if more > MOST - literals {
        return Err(Memory);
    }
    Ok(literals + more)
}

/// The clauses of the negated matrix of a formula and a circuit with these gates.
#[derive(Drop)]
pub(crate) struct Negated<'a, 'b, 'c> {
    pub(crate) f: &'a Formula,
    pub(crate) gates: &'b NumberSet,
    pub(crate) before: &'c [u64],
    pub(crate) last: u64,
    ghost lengths: { AreLengthsBefore f.now.matrix before.now },
    ghost whole: { last ≡ last_negated f.now.matrix gates.now },
    ghost few: { last < 2 ^ 63 },
}

impl<'a, 'b, 'c> Ground for Negated<'a, 'b, 'c> {
    ghost ids = { λ b. negated_id b.f.now.matrix b.gates.now };

    ghost Knows = { λ b. HasNegatedId b.f.now.matrix b.gates.now };

    fn id(&self, origin: Origin) -> u64 {
        match origin {
            Origin::Gate { variable, part } => match self.gates.place(variable) {
                Some(place) => 3 * place as u64 + part,
                None => unreachable!(),
            },
            Origin::Fault { clause, place, .. } => {
                if clause == 0 {
                    self.last
                } else {
                    3 * self.gates.len() as u64 + self.before[clause as usize - 1] + place
                }
            }
            _ => unreachable!(),
        }
    }
}
