//! The numbers of a block's variables.

ghost use Rattle.std.specs.Prelude.{◌≡◌, ◌≤◌, ◌<◌, ◌^◌, IsSome, length};
ghost use Rattle.dq_lits.specs.Literal.{variable_of};
ghost use Rattle.hint_log.specs.Entries.{name_of};
ghost use Rattle.cert_export.specs.CircuitPart.{leaf_code, literal_code, or_zero};
ghost use Rattle.cert_export.specs.Netlists.{IsLeafNamed};
ghost use Rattle.definition_export.specs.ExportedDefinition.{definition_renaming};

use cert_export::Naming;
use dq_formula::Formula;
use dq_lits::Lit;
use hint_log::{Leaf, Log, Name};
use number_tables::NumberSet;

/// The most gates that a block can have: more are refused as want of memory, since the ids of their
/// clauses could pass what a text can hold, 10^18.
pub(crate) const MOST: u64 = 10_000_000_000_000_000;

/// The numbers of the variables of a block and its proof.
#[derive(Drop)]
pub(crate) struct DefinitionNumbers<'a, 'b, 'c> {
    pub(crate) f: &'a Formula,
    pub(crate) log: &'b Log,
    pub(crate) gates: &'c NumberSet,
    ghost few_variables: { f.now.variables ≤ 1000000 },
    ghost few_gates: { length gates.now ≤ 10 ^ 16 },
}

impl<'a, 'b, 'c> Naming for DefinitionNumbers<'a, 'b, 'c> {
    ghost target = { λ n. definition_renaming n.f.now n.log.now.entries n.gates.now };

    ghost Knows = { λ n v. IsSome (name_of n.log.now.entries v) };

    fn name(&self, variable: u64) -> Option<u64> {
        self.f.every_formula_is_lawful();
        match self.log.name(variable) {
            Name::Copy { side, variable } => {
                if side == 1 && self.f.is_declared(variable) {
                    Some(variable)
                } else {
                    None
                }
            }
            Name::Term { .. } => match self.gates.place(variable) {
                Some(place) => Some(self.f.vars() + (place as u64 + 1)),
                None => None,
            },
            _ => None,
        }
    }
}

impl DefinitionNumbers<'_, '_, '_> {
    /// The number of a variable, and 0 where it has none.
    pub(crate) fn number_or_zero(&self, variable: u64) -> u64
        requires named { IsSome (name_of self.now.log.now.entries variable) }
        ensures value { result ≡ or_zero (definition_renaming self.now.f.now
            self.now.log.now.entries self.now.gates.now variable) }
        ensures range { result < 2 ^ 62 }
    {
        match self.name(variable) {
            Some(number) => number,
            None => 0,
        }
    }

    /// An output's literal, as AIGER writes it.
    pub(crate) fn leaf_code(&self, leaf: &Leaf) -> u64
        requires named { IsLeafNamed self.now.log.now.entries leaf.now }
        ensures { result ≡ leaf_code (definition_renaming self.now.f.now
            self.now.log.now.entries self.now.gates.now) leaf.now }
    {
        match leaf {
            Leaf::Constant(false) => 0,
            Leaf::Constant(true) => 1,
            Leaf::Literal(l) => self.code(l),
        }
    }

    /// A literal, as AIGER writes it.
    pub(crate) fn code(&self, l: &Lit) -> u64
        requires named { IsSome (name_of self.now.log.now.entries (variable_of l.now)) }
        ensures { result ≡ literal_code (definition_renaming self.now.f.now
            self.now.log.now.entries self.now.gates.now) l.now }
    {
        let number = self.number_or_zero(l.var());
        if l.is_neg() {
            2 * number + 1
        } else {
            2 * number
        }
    }
}
