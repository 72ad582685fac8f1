//! Existentials with one dependency set.

ghost use Rattle.std.specs.Prelude.{◌≡◌, ◌≤◌, ◌<◌, ◌↔◌, IsTrue, Some, length, take, slice_get, IfOk, IfSome};
ghost use Rattle.dq_lits.specs.Formula.{Existential};
ghost use Rattle.dq_formula.specs.Sets.{IsLeader, AreLeaders};

use crate::dependencies::Deps;
use crate::formula::Formula;
use dq_lits::Memory;
use std::alloc::Global;
use std::collections::BTreeMap;
use std::mem;

// The dependency sets that were met, each with the place of the first existential that has it.
#[derive(Drop)]
struct KnownSets {
    alloc: Global,
    // Those of the universals declared first, by how many these are.
    first: BTreeMap<usize, usize>,
    // The others.
    listed: BTreeMap<Vec<u64>, usize>,
    // A set that is looked up.
    key: Vec<u64>,
}

impl KnownSets {
    fn new(alloc: Global) -> KnownSets {
        KnownSets {
            alloc,
            first: BTreeMap::new(alloc),
            listed: BTreeMap::new(alloc),
            key: Vec::new(alloc),
        }
    }

    // It promises nothing of what it finds, since each answer is compared.
    fn first_with(&mut self, f: &Formula, set: &Deps, place: usize) -> Result<usize, Memory> {
        match set {
            Deps::FirstOf(count) => self.first_with_count(*count, place),
            Deps::Listed(vars) => {
                if are_first(f.universals(), vars.items()) {
                    self.first_with_count(vars.items().len(), place)
                } else {
                    self.first_with_list(vars.items(), place)
                }
            }
        }
    }

    fn first_with_count(&mut self, count: usize, place: usize) -> Result<usize, Memory> {
        if let Some(first) = self.first.get(&count) {
            return Ok(*first);
        }
        self.first.insert(count, place)?;
        Ok(place)
    }

    fn first_with_list(&mut self, universals: &[u64], place: usize) -> Result<usize, Memory> {
        self.key.clear();
        self.key.extend_from_slice(universals)?;
        if let Some(first) = self.listed.get(&self.key) {
            return Ok(*first);
        }
        let key = mem::replace(&mut self.key, Vec::new(self.alloc));
        self.listed.insert(key, place)?;
        Ok(place)
    }
}

// Whether universals in order of declaration are the first ones: whether the last of them is where
// it then stands.
fn are_first(universals: &[u64], vars: &[u64]) -> bool {
    match vars.last() {
        Some(last) => universals.get(vars.len() - 1) == Some(last),
        None => true,
    }
}

impl Formula {
    /// For each existential, in order, the place of one at or before its own that has the same
    /// dependency set: of the first one that has it. The contract says less: a place may stand for
    /// itself though an earlier one has its set.
    pub fn set_leaders(&self, alloc: Global) -> Result<Vec<usize>, Memory>
        ensures { IfOk result (λ leaders. AreLeaders self.now leaders.items) }
    {
        self.every_formula_is_lawful();
        let mut known = KnownSets::new(alloc);
        let mut leaders = Vec::new(alloc);
        let mut latest = 0;
        for place in 0..self.existentials().len() {
            latest = self.leader_of(&mut known, latest, place)?;
            leaders.push(latest)?;
        }
        Ok(leaders)
    }

    // The place of one that has the same dependency set: the latest one that was found, or else one
    // that was met.
    fn leader_of(&self, known: &mut KnownSets, latest: usize, place: usize) -> Result<usize, Memory>
        requires { place < length self.now.existentials }
        ensures { IfOk result (λ leader. IsLeader self.now leader place) }
    {
        let near = self.leader(latest, place);
        if near < place {
            return Ok(near);
        }
        let proposed = known.first_with(self, self.set_at(place), place)?;
        Ok(self.leader(proposed, place))
    }

    // The place that is proposed, if it is as good; else the existential's own.
    fn leader(&self, proposed: usize, place: usize) -> usize
        requires { place < length self.now.existentials }
        ensures { IsLeader self.now result place }
    {
        if proposed < place && self.are_alike(proposed, place) {
            proposed
        } else {
            place
        }
    }

    // Whether the existentials at two places have one dependency set.
    fn are_alike(&self, first: usize, second: usize) -> bool
        requires first { first < length self.now.existentials }
        requires second { second < length self.now.existentials }
        ensures { (d e : Existential) → slice_get self.now.existentials first ≡ Some d
            → slice_get self.now.existentials second ≡ Some e
            → (IsTrue result ↔ (d.sees ≡ e.sees)) }
    {
        match self.set_at(first) {
            Deps::FirstOf(count) => self.has_first(second, *count),
            Deps::Listed(vars) => self.members(second) == vars.items(),
        }
    }

    // Whether the existential at a place depends on just the first universals, so many of them.
    fn has_first(&self, place: usize, count: usize) -> bool
        requires there { place < length self.now.existentials }
        requires few { count ≤ length self.now.universals }
        ensures { (e : Existential) → slice_get self.now.existentials place ≡ Some e
            → (IsTrue result ↔ (take count self.now.universals ≡ e.sees)) }
    {
        match self.set_at(place) {
            Deps::FirstOf(n) => count == *n,
            Deps::Listed(vars) => &self.universals()[..count] == vars.items(),
        }
    }

    // The universals that the existential at a place depends on.
    fn members(&self, place: usize) -> &[u64]
        requires { place < length self.now.existentials }
        ensures { IfSome (slice_get self.now.existentials place) (λ e. result.now ≡ e.sees) }
    {
        match self.set_at(place) {
            Deps::FirstOf(n) => &self.universals()[..*n],
            Deps::Listed(vars) => vars.items(),
        }
    }
}
