//! The ids of the clauses that a block's proof is derived from.

ghost use Rattle.std.specs.Prelude.{◌≡◌, ◌≤◌, ◌^◌, length};
ghost use Rattle.definition_export.specs.ExportedDefinition.{definition_id};
ghost use Rattle.definition_export.specs.Ground.{HasDefinitionId};

use cert_export::Ground;
use dq_formula::Formula;
use hint_log::Origin;
use number_tables::NumberSet;

/// The matrix, the clauses of these gates, and that the existential and the output differ.
#[derive(Drop)]
pub(crate) struct DefinitionClauses<'a, 'b> {
    pub(crate) f: &'a Formula,
    pub(crate) gates: &'b NumberSet,
    ghost few_clauses: { length f.now.matrix ≤ 10000000 },
    ghost few_gates: { length gates.now ≤ 10 ^ 16 },
}

impl<'a, 'b> Ground for DefinitionClauses<'a, 'b> {
    ghost ids = { λ b. definition_id b.f.now b.gates.now };

    ghost Knows = { λ b. HasDefinitionId b.f.now b.gates.now };

    fn id(&self, origin: Origin) -> u64 {
        let clauses = self.f.clauses() as u64;
        match origin {
            Origin::Copy { clause, .. } => clause,
            Origin::TermGate { variable, part } => match self.gates.place(variable) {
                Some(place) => clauses + 3 * place as u64 + part,
                None => unreachable!(),
            },
            Origin::Differ { part, .. } => clauses + 3 * self.gates.len() as u64 + part,
            _ => unreachable!(),
        }
    }
}
