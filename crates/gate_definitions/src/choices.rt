//! Gates that choose between two inputs by a third one; with opposite inputs they are exclusive
//! ors.

ghost use Rattle.std.specs.Prelude.{◌≡◌, ◌<◌, ◌≤◌, ◌^◌, true, IfOk, IfSome, Some};
ghost use Rattle.dq_lits.specs.Formula.{Existential, existential_of};
ghost use Rattle.gate_definitions.specs.Stating.{IsHalf, IsChoice};

use crate::clauses::{clause_at, implies};
use crate::literals::{all_readable, key};
use crate::outputs::Output;
use dq_formula::Formula;
use dq_lits::{Lit, Memory};
use std::alloc::Global;
use std::collections::BTreeMap;

/// The literal whose value the output has where the condition is true, and the two clauses that are
/// to say so.
#[derive(Clone, Copy)]
pub(crate) struct Half {
    pub(crate) condition: Lit,
    pub(crate) value: Lit,
    pub(crate) positive: u32,
    pub(crate) negative: u32,
}

/// A gate with the value of the second literal where the first is true, else of the third.
#[derive(Clone, Copy)]
pub(crate) struct Choice {
    pub(crate) condition: Lit,
    pub(crate) then_value: Lit,
    pub(crate) else_value: Lit,
}

// A clause of three literals, by its number, and the two beside the one that it was looked up for.
#[derive(Clone, Copy)]
pub(crate) struct Triple {
    number: u32,
    one: Lit,
    other: Lit,
}

impl Triple {
    // The two literals in the other order.
    pub(crate) fn turned(&self) -> Triple {
        Triple {
            number: self.number,
            one: self.other,
            other: self.one,
        }
    }
}

// Clauses of three literals that have some literal, each by its two other ones. Whoever uses such a
// clause reads it, as it does a half: no contract speaks of what is in these maps.
pub(crate) type Thirds = BTreeMap<((u64, bool), (u64, bool)), u32>;

pub(crate) type Halves = BTreeMap<(u64, bool), Half>;

/// The choice that the clauses on an output say it to be.
pub(crate) fn find_choice(alloc: Global, output: &Output) -> Result<Option<Choice>, Memory>
    ensures { (e : Existential) → existential_of output.now.f.now output.now.y ≡ Some e
        → IfOk result (λ found. IfSome found (IsChoice output.now.f.now output.now.ranks.now e)) }
{
    let thirds = thirds_of(alloc, output, Lit::neg(output.y))?;
    first_choice(alloc, output, &thirds)
}

fn first_choice(alloc: Global, output: &Output, thirds: &Thirds) -> Result<Option<Choice>, Memory>
    ensures { (e : Existential) → existential_of output.now.f.now output.now.y ≡ Some e
        → IfOk result (λ found. IfSome found (IsChoice output.now.f.now output.now.ranks.now e)) }
{
    let mut halves = BTreeMap::new(alloc);
    for number in output.numbers {
        if let Some(triple) = triple_at(output.f, *number, Lit::pos(output.y)) {
            let found = choice_by(output, &triple, thirds, &mut halves)?;
            if found.is_some() {
                return Ok(found);
            }
        }
    }
    Ok(None)
}

// The choice that is whole with a clause of three, whose other literals are the negations of a
// condition and of a value, in one order or the other; else the halves that there are by it are
// noted.
fn choice_by(
    output: &Output,
    triple: &Triple,
    thirds: &Thirds,
    halves: &mut Halves,
) -> Result<Option<Choice>, Memory>
    ensures { (e : Existential) → existential_of output.now.f.now output.now.y ≡ Some e
        → IfOk result (λ found. IfSome found (IsChoice output.now.f.now output.now.ranks.now e)) }
{
    let found = choice_with(output, half_by(triple, thirds), halves)?;
    if found.is_some() {
        return Ok(found);
    }
    choice_with(output, half_by(&triple.turned(), thirds), halves)
}

// The half whose condition and value are the negations of a clause's other literals, in order.
pub(crate) fn half_by(triple: &Triple, thirds: &Thirds) -> Option<Half> {
    let negative = *thirds.get(&(key(triple.one), key(triple.other.not())))?;
    Some(Half {
        condition: triple.one.not(),
        value: triple.other.not(),
        positive: triple.number,
        negative,
    })
}

// The choice of this half and the one that was noted for the opposite condition; else this one is
// noted.
fn choice_with(
    output: &Output,
    half: Option<Half>,
    halves: &mut Halves,
) -> Result<Option<Choice>, Memory>
    ensures { (e : Existential) → existential_of output.now.f.now output.now.y ≡ Some e
        → IfOk result (λ found. IfSome found (IsChoice output.now.f.now output.now.ranks.now e)) }
{
    let Some(half) = half else {
        return Ok(None);
    };
    if let Some(other) = halves.get(&key(half.condition.not())) {
        return Ok(choice_of(output, &half, other));
    }
    halves.insert(key(half.condition), half)?;
    Ok(None)
}

fn choice_of(output: &Output, half: &Half, other: &Half) -> Option<Choice>
    ensures { (e : Existential) → existential_of output.now.f.now output.now.y ≡ Some e
        → IfSome result (IsChoice output.now.f.now output.now.ranks.now e) }
{
    let (f, y) = (output.f, output.y);
    if other.condition != half.condition.not() {
        return None;
    }
    if !is_half(f, y, half) || !is_half(f, y, other) {
        return None;
    }
    if !all_readable(output, &[half.condition, half.value, other.value]) {
        return None;
    }
    Some(Choice {
        condition: half.condition,
        then_value: half.value,
        else_value: other.value,
    })
}

// Whether the two clauses say so.
fn is_half(f: &Formula, y: u64, half: &Half) -> bool
    requires from_one { 1 ≤ y }
    requires in_range { y < 2 ^ 62 }
    ensures { result ≡ true → IsHalf f.now y half.now }
{
    implies(f, half.positive, &[half.condition, half.value], Lit::pos(y))
        && implies(
            f,
            half.negative,
            &[half.condition, half.value.not()],
            Lit::neg(y),
        )
}

pub(crate) fn thirds_of(alloc: Global, output: &Output, l: Lit) -> Result<Thirds, Memory> {
    let mut thirds = BTreeMap::new(alloc);
    for number in output.numbers {
        if let Some(triple) = triple_at(output.f, *number, l) {
            thirds.insert((key(triple.one), key(triple.other)), *number)?;
            thirds.insert((key(triple.other), key(triple.one)), *number)?;
        }
    }
    Ok(thirds)
}

// A clause of three literals that has this one.
pub(crate) fn triple_at(f: &Formula, number: u32, l: Lit) -> Option<Triple> {
    let (one, other) = beside_two(clause_at(f, number)?, l)?;
    Some(Triple { number, one, other })
}

// The other literals of a clause of three.
fn beside_two(clause: &[Lit], l: Lit) -> Option<(Lit, Lit)> {
    if clause.len() != 3 {
        return None;
    }
    if clause[0] == l {
        Some((clause[1], clause[2]))
    } else if clause[1] == l {
        Some((clause[0], clause[2]))
    } else if clause[2] == l {
        Some((clause[0], clause[1]))
    } else {
        None
    }
}
