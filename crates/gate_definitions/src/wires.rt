//! Gates that the clauses may state, whichever way ties among existentials go.

use crate::choices::{Half, Halves, Thirds, Triple, half_by, thirds_of, triple_at};
use crate::clauses::clause_at;
use crate::conjunctions::{Consequences, consequences, has_shorts};
use crate::literals::key;
use crate::outputs::Output;
use definition_order::may_read;
use dq_lits::{Lit, Memory};
use std::alloc::Global;
use std::collections::BTreeMap;

// How many clauses are taken as the long one of a conjunction; each costs its literals.
const MOST_CONJUNCTIONS: usize = 4;

/// A gate, by the place of its output, and how many of its inputs still have to come before it.
#[derive(Clone, Copy)]
pub(crate) struct Wired {
    pub(crate) output: usize,
    pub(crate) missing: usize,
}

/// The gates that were found. No contract speaks of them: whoever reads a gate off compares its
/// clauses.
#[derive(Drop)]
pub(crate) struct Wires {
    alloc: Global,
    // For each existential, by place, that of one with the same dependency set: these tie.
    pub(crate) leaders: Vec<usize>,
    pub(crate) gates: Vec<Wired>,
    // The inputs that tie with their gate's output, by place, each with the gate.
    pub(crate) uses: Vec<(usize, usize)>,
    // Whether an existential is the output of a gate that can't be turned round to give an input.
    pub(crate) is_fixed: Vec<bool>,
}

impl Wires {
    pub(crate) fn new(alloc: Global, leaders: Vec<usize>) -> Result<Wires, Memory> {
        let is_fixed = vec![in alloc; false; leaders.len()]?;
        Ok(Wires {
            alloc,
            leaders,
            gates: Vec::new(alloc),
            uses: Vec::new(alloc),
            is_fixed,
        })
    }

    /// Puts the gates whose output stands at a place.
    pub(crate) fn put_all(&mut self, output: &Output, place: usize) -> Result<(), Memory> {
        self.put_conjunctions(output, place, Lit::pos(output.y))?;
        self.put_conjunctions(output, place, Lit::neg(output.y))?;
        self.put_choices(output, place)
    }

    fn put_conjunctions(&mut self, output: &Output, place: usize, l: Lit) -> Result<(), Memory> {
        let shorts = consequences(self.alloc, output, l)?;
        self.put_long(output, place, l, &shorts)
    }

    // Puts those of the first clauses that serve as the long one.
    fn put_long(
        &mut self,
        output: &Output,
        place: usize,
        l: Lit,
        shorts: &Consequences,
    ) -> Result<(), Memory> {
        let mut found = 0usize;
        for number in output.numbers {
            if let Some(clause) = clause_at(output.f, *number) {
                if found < MOST_CONJUNCTIONS && has_shorts(clause, l, shorts) {
                    found = found + 1;
                    self.put(output, place, clause, clause.len() > 2)?;
                }
            }
        }
        Ok(())
    }

    fn put_choices(&mut self, output: &Output, place: usize) -> Result<(), Memory> {
        let thirds = thirds_of(self.alloc, output, Lit::neg(output.y))?;
        self.put_halves(output, place, &thirds)
    }

    fn put_halves(&mut self, output: &Output, place: usize, thirds: &Thirds) -> Result<(), Memory> {
        let mut halves = BTreeMap::new(self.alloc);
        for number in output.numbers {
            if let Some(triple) = triple_at(output.f, *number, Lit::pos(output.y)) {
                self.put_both(output, place, &triple, thirds, &mut halves)?;
            }
        }
        Ok(())
    }

    // Puts the choices by a clause of three, its other literals in one order and the other.
    fn put_both(
        &mut self,
        output: &Output,
        place: usize,
        triple: &Triple,
        thirds: &Thirds,
        halves: &mut Halves,
    ) -> Result<(), Memory> {
        self.put_choice(output, place, half_by(triple, thirds), halves)?;
        self.put_choice(output, place, half_by(&triple.turned(), thirds), halves)
    }

    // Puts the choice of this half and the one for the opposite condition, if that was met.
    fn put_choice(
        &mut self,
        output: &Output,
        place: usize,
        half: Option<Half>,
        halves: &mut Halves,
    ) -> Result<(), Memory> {
        let Some(half) = half else {
            return Ok(());
        };
        if let Some(other) = halves.get(&key(half.condition.not())) {
            let inputs = [half.condition, half.value, other.value];
            let is_parity = other.value == half.value.not();
            self.put(output, place, &inputs, !is_parity)?;
        }
        halves.insert(key(half.condition), half)?;
        Ok(())
    }

    // Puts a gate over the variables of these literals but for its output's, if it may read them
    // where ties go its way.
    fn put(
        &mut self,
        output: &Output,
        place: usize,
        lits: &[Lit],
        fixed: bool,
    ) -> Result<(), Memory> {
        if !self.may_feed(output, place, lits) {
            return Ok(());
        }
        let before = self.uses.len();
        for l in lits {
            if let Some(input) = self.tied(output, place, *l) {
                self.uses.push((input, self.gates.len()))?;
            }
        }
        let missing = self.uses.len().saturating_sub(before);
        self.gates.push(Wired {
            output: place,
            missing,
        })?;
        if fixed && place < self.is_fixed.len() {
            self.is_fixed[place] = true;
        }
        Ok(())
    }

    fn may_feed(&self, output: &Output, place: usize, lits: &[Lit]) -> bool {
        lits.iter().all(|l| {
            l.var() == output.y
                || self.tied(output, place, *l).is_some()
                || may_read(output.f, &[], output.y, l.var())
        })
    }

    // The place of a literal's existential, where it is another with the dependency set of the
    // output.
    fn tied(&self, output: &Output, place: usize, l: Lit) -> Option<usize> {
        let other = output.f.existential_place(l.var())?;
        if other != place && self.leaders.get(other)? == self.leaders.get(place)? {
            Some(other)
        } else {
            None
        }
    }
}
