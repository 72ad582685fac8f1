//! The numbers of the exported circuit's variables.

ghost use Rattle.std.specs.Prelude.{◌≡◌, ◌≤◌, ◌<◌, ◌+◌, ◌^◌, IfSome, IsSome, length};
ghost use Rattle.std.specs.Option.{option_map};
ghost use Rattle.dq_lits.specs.Literal.{variable_of};
ghost use Rattle.hint_log.specs.Entries.{name_of};
ghost use Rattle.hint_log.specs.Naming.{numbered_from_one};
ghost use Rattle.cert_export.specs.CircuitPart.{circuit_renaming, literal_code, or_zero};
ghost use Rattle.cert_export.specs.Parts.{part_of, IsSmall};

use crate::naming::Naming;
use crate::parts::ExportedPart;
use dq_formula::Formula;
use dq_lits::Lit;
use hint_log::{Log, Name};

/// The most gates that an exported circuit can have, and the most literals that its formula can:
/// more are refused as want of memory, since the ids of their clauses could pass what a text can
/// hold, 10^18.
pub(crate) const MOST: u64 = 10_000_000_000_000_000;

/// The number of a variable, if the circuit and its proof speak of it.
pub(crate) fn number(log: &Log, f: &Formula, part: &ExportedPart, variable: u64) -> Option<u64>
    requires named { IsSome (name_of log.now.entries variable) }
    requires small { IsSmall f.now part.now.gates }
    ensures value { result ≡ circuit_renaming f.now log.now.entries (part_of part.now) variable }
    ensures range { IfSome result (λ n. (1 ≤ n) × (n ≤ 10 ^ 17)) }
{
    let inputs = f.universals().len() as u64;
    let gates = part.gates.len() as u64;
    match log.name(variable) {
        Name::Input { universal } => from_one(f.universal_place(universal)),
        Name::And { .. } => behind(inputs, from_one(part.gates.place(variable))),
        Name::Bad { group, clause } => {
            if group == part.group {
                behind(inputs + gates, clause_number(f, clause))
            } else {
                None
            }
        }
        _ => None,
    }
}

// A place, counted from 1.
fn from_one(place: Option<usize>) -> Option<u64>
    requires { IfSome place (λ p. p < 2 ^ 63) }
    ensures { result ≡ option_map (λ p. p + 1) place }
{
    match place {
        Some(place) => Some(place as u64 + 1),
        None => None,
    }
}

// A number behind others.
fn behind(last: u64, number: Option<u64>) -> Option<u64>
    requires few { last ≤ 10 ^ 17 }
    requires range { IfSome number (λ n. n ≤ 10 ^ 17) }
    ensures { result ≡ option_map (λ n. last + n) number }
{
    match number {
        Some(n) => Some(last + n),
        None => None,
    }
}

// The number of a clause of the matrix, if there is one.
fn clause_number(f: &Formula, clause: u64) -> Option<u64>
    ensures { result ≡ option_map (λ c. clause) (numbered_from_one f.now.matrix clause) }
{
    if clause >= 1 && clause <= f.clauses() as u64 {
        Some(clause)
    } else {
        None
    }
}

/// A literal, as AIGER writes it.
pub(crate) fn code(log: &Log, f: &Formula, part: &ExportedPart, l: &Lit) -> u64
    requires named { IsSome (name_of log.now.entries (variable_of l.now)) }
    requires small { IsSmall f.now part.now.gates }
    ensures { result
        ≡ literal_code (circuit_renaming f.now log.now.entries (part_of part.now)) l.now }
{
    let number = number_or_zero(log, f, part, l.var());
    if l.is_neg() {
        2 * number + 1
    } else {
        2 * number
    }
}

/// The number of a variable, and 0 where it has none.
pub(crate) fn number_or_zero(log: &Log, f: &Formula, part: &ExportedPart, variable: u64) -> u64
    requires named { IsSome (name_of log.now.entries variable) }
    requires small { IsSmall f.now part.now.gates }
    ensures value { result
        ≡ or_zero (circuit_renaming f.now log.now.entries (part_of part.now) variable) }
    ensures range { result ≤ 10 ^ 17 }
{
    match number(log, f, part, variable) {
        Some(number) => number,
        None => 0,
    }
}

/// The numbers of the variables of an exported circuit and its proof.
#[derive(Drop)]
pub(crate) struct CircuitNumbers<'a, 'b, 'c> {
    pub(crate) f: &'a Formula,
    pub(crate) log: &'b Log,
    pub(crate) part: &'c ExportedPart,
    ghost small: { IsSmall f.now part.now.gates },
}

impl<'a, 'b, 'c> Naming for CircuitNumbers<'a, 'b, 'c> {
    ghost target = { λ c. circuit_renaming c.f.now c.log.now.entries (part_of c.part.now) };

    ghost Knows = { λ c v. IsSome (name_of c.log.now.entries v) };

    fn name(&self, variable: u64) -> Option<u64> {
        number(self.log, self.f, self.part, variable)
    }
}
