//! Twins: two existentials that are one function of different universals, which is how a formula says
//! that a function is used twice. Where clauses make each of them follow the other under one condition
//! that a gate tells, as that their universals are equal, one tree serves both, and grows by the points of both: the universals at one place among
//! those that each sees are taken for one another. No contract speaks of it.

ghost use Rattle.std.specs.Prelude.{◌<◌, length};

use crate::definitions::given_at;
use crate::outputs::Known;
use dq_formula::Formula;
use dq_lits::{Lit, Memory};
use std::alloc::Global;
use std::collections::BTreeSet;

// So many of the universals that two existentials see are compared: for long equal lists all would be
// the product of two counts.
const MOST_COMPARED: usize = 64;

/// The twin of each existential, if it has one, by their places.
#[derive(Drop)]
pub(crate) struct Twins {
    twins: Vec<Option<usize>>,
}

// What a clause says of two existentials that have neither a definition nor a guess, by their places:
// where its other literals are false and the one is true, so is the other.
#[derive(Clone, Copy)]
struct Link {
    from: Option<usize>,
    to: Option<usize>,
    has_more: bool,
    // Whether one of the other literals is on another existential, and a sum of them, by which clauses
    // under one condition are known.
    has_gate: bool,
    condition: u64,
}

impl Twins {
    /// The twins among the existentials of a formula. Time follows the literals.
    pub(crate) fn of(alloc: Global, known: &Known) -> Result<Twins, Memory> {
        let mut twins = Twins::none(alloc, known.f.existentials().len())?;
        let mut links = BTreeSet::new(alloc);
        for number in 0..known.f.clauses() {
            let link = Link::of(known, known.f.clause(number));
            if let Some((from, to)) = link.ends() {
                links.insert(((from, to), link.condition))?;
                if links.contains(&((to, from), link.condition)) {
                    twins.pair(known, from, to);
                }
            }
        }
        Ok(twins)
    }

    fn none(alloc: Global, count: usize) -> Result<Twins, Memory> {
        let no_twin: Option<usize> = None;
        let twins = vec![in alloc; no_twin; count]?;
        Ok(Twins { twins })
    }

    /// The place of the twin of the existential at a place.
    pub(crate) fn twin(&self, place: usize) -> Option<usize> {
        match self.twins.get(place) {
            Some(twin) => *twin,
            None => None,
        }
    }

    // Makes two existentials twins, unless one of them has a twin.
    fn pair(&mut self, known: &Known, one: usize, other: usize) {
        if self.twin(one).is_none() && self.twin(other).is_none() && are_alike(known, one, other) {
            self.put(one, other);
            self.put(other, one);
        }
    }

    fn put(&mut self, place: usize, twin: usize) {
        if let Some(slot) = self.twins.get_mut(place) {
            *slot = Some(twin);
        }
    }
}

impl Link {
    // What a clause says of them.
    fn of(known: &Known, clause: &[Lit]) -> Link {
        let mut link = Link {
            from: None,
            to: None,
            has_more: false,
            has_gate: false,
            condition: 0,
        };
        for l in clause {
            match free_place(known, l.var()) {
                Some(place) => link.add(place, l.is_neg()),
                None => link.add_condition(known, *l),
            }
        }
        link
    }

    fn add_condition(&mut self, known: &Known, l: Lit) {
        self.has_gate = self.has_gate || known.f.existential_place(l.var()).is_some();
        self.condition = self.condition.wrapping_add(code(l));
    }

    fn add(&mut self, place: usize, is_negated: bool) {
        if is_negated {
            self.has_more = self.has_more || self.from.is_some();
            self.from = Some(place);
        } else {
            self.has_more = self.has_more || self.to.is_some();
            self.to = Some(place);
        }
    }

    // From which one to which, if the clause has no more of them, and a gate.
    fn ends(&self) -> Option<(usize, usize)> {
        if self.has_more || !self.has_gate {
            return None;
        }
        match (self.from, self.to) {
            (Some(from), Some(to)) => Some((from, to)),
            _ => None,
        }
    }
}

fn code(l: Lit) -> u64 {
    let first = l.var().wrapping_mul(2);
    if l.is_neg() {
        first.wrapping_add(1)
    } else {
        first
    }
}

// The place of an existential that has neither a definition nor a guess.
fn free_place(known: &Known, v: u64) -> Option<usize> {
    let place = known.f.existential_place(v)?;
    if given_at(known.definitions, place).is_some() || given_at(known.guesses, place).is_some() {
        return None;
    }
    Some(place)
}

// Whether two existentials see as many universals, and not the same ones.
fn are_alike(known: &Known, one: usize, other: usize) -> bool {
    let one = seen_at(known.f, one);
    let other = seen_at(known.f, other);
    one.len() == other.len() && differ(one, other)
}

// Whether two lists differ at one of the first places.
fn differ(xs: &[u64], ys: &[u64]) -> bool {
    for at in 0..MOST_COMPARED {
        if at < xs.len() && at < ys.len() && xs[at] != ys[at] {
            return true;
        }
    }
    false
}

/// What the existential at a place sees; nothing where there is none.
pub(crate) fn seen_at(f: &Formula, place: usize) -> &[u64] {
    if place < f.existentials().len() {
        seen_by(f, place)
    } else {
        &[]
    }
}

fn seen_by(f: &Formula, place: usize) -> &[u64]
    requires { place < length f.now.existentials }
{
    f.every_formula_is_lawful();
    f.seen(f.existentials()[place])
}
