//! Which existentials are worth the question for a definition, which takes time by the formula.

ghost use Rattle.std.specs.Prelude.{◌<◌, length};

use crate::conditions::Conditions;
use crate::occurrences::Occurrences;
use crate::samples::{Sample, bits_of};
use crate::walks::Walk;
use candidate_functions::Samples;
use definability::{Forced, Found, Pair};
use dq_formula::Formula;
use dq_lits::{Memory, Row};
use std::alloc::Global;

// How often a walk goes through all existentials at most.
const MOST_PASSES: usize = 6;
// After so many questions in a row that found none no definition is asked for.
const MOST_IN_VAIN: usize = 32;
// Whether a bit is forced isn't asked where an existential sees few universals, so that rows give it
// all its bits soon, and no more where so many answers said that it isn't.
const FEW_SEEN: usize = 5;

const MOST_LOOSE: u8 = 8;

// So many samples are kept at most: each costs a bit for each variable, and each tree reads them.
const MOST_SAMPLES: usize = 64;

// So many bits are asked about in a round at most; the next round goes on with the existentials
// behind these. What an answer forces is a clause of as many literals as the existential sees.
const MOST_IN_A_ROUND: usize = 64;

/// What is known of which questions are worth it. No contract speaks of it: an existential that isn't
/// asked for a definition has none.
#[derive(Drop)]
pub(crate) struct Questions {
    pub alloc: Global,
    pub occurrences: Occurrences,
    pub conditions: Conditions,
    // Of the pairs that showed existentials free; other values that make the matrix true guide trees
    // no better.
    pub samples: Samples,
    // The existentials' places in the order in which they are asked for, and their numbers there.
    order: Vec<usize>,
    numbers: Vec<usize>,
    // Which of them have no definition, by place.
    is_free: Vec<bool>,
    // How many questions in a row found none.
    in_vain: usize,
    // How many questions found that a bit isn't forced, by place.
    loose: Vec<u8>,
    // Of the existentials whose bits are worth a question: how many the round passes over first, how
    // many it has met, and how many it may still ask about.
    passed: usize,
    met: usize,
    left: usize,
}

impl Questions {
    /// Of no formula yet. It takes no memory.
    pub(crate) fn none(alloc: Global) -> Questions {
        Questions {
            alloc,
            occurrences: Occurrences::none(alloc),
            conditions: Conditions::none(alloc),
            samples: Samples::new(alloc),
            order: Vec::new(alloc),
            numbers: Vec::new(alloc),
            is_free: Vec::new(alloc),
            in_vain: 0,
            loose: Vec::new(alloc),
            passed: 0,
            met: 0,
            left: 0,
        }
    }

    /// Makes them those of a formula of which nothing was asked yet.
    pub(crate) fn begin(&mut self, f: &Formula) -> Result<(), Memory> {
        let alloc = self.alloc;
        let count = f.existentials().len();
        self.occurrences = Occurrences::new(alloc, f)?;
        self.numbers = vec![in alloc; 0usize; count]?;
        self.is_free = vec![in alloc; false; count]?;
        self.loose = vec![in alloc; 0u8; count]?;
        Ok(())
    }

    /// Says in which order the existentials are asked for.
    pub(crate) fn set_order(&mut self, order: &[usize]) -> Result<(), Memory> {
        for (number, place) in order.iter().enumerate() {
            self.order.push(*place)?;
            if *place < self.numbers.len() {
                self.numbers[*place] = number;
            }
        }
        Ok(())
    }

    /// Whether the existential at a place may have a definition: it occurs in a clause, and no values
    /// are known that show that it has none.
    pub(crate) fn is_open(&self, place: usize) -> bool {
        self.occurrences.has(place) && place < self.is_free.len() && !self.is_free[place]
    }

    /// Whether the last questions found nothing.
    pub(crate) fn are_in_vain(&self) -> bool {
        self.in_vain >= MOST_IN_VAIN
    }

    /// Learns from an answer.
    pub(crate) fn learn(&mut self, f: &Formula, found: &Found) -> Result<(), Memory> {
        match found {
            Found::Defined(_) => {
                self.in_vain = 0;
                Ok(())
            }
            Found::Free(pair) => {
                self.in_vain = self.in_vain.saturating_add(1);
                self.learn_pair(f, pair)
            }
        }
    }

    /// A round begins, in which bits are asked about.
    pub(crate) fn begin_round(&mut self) {
        self.passed = if self.left == 0 {
            self.passed.saturating_add(MOST_IN_A_ROUND)
        } else {
            0
        };
        if self.passed >= self.met {
            self.passed = 0;
        }
        self.met = 0;
        self.left = MOST_IN_A_ROUND;
    }

    // Whether the round asks about one more bit that is worth it.
    fn takes_one(&mut self) -> bool {
        self.met = self.met.saturating_add(1);
        if self.met <= self.passed || self.left == 0 {
            return false;
        }
        self.left -= 1;
        true
    }

    /// Whether the round asks if an existential is forced to have the bit that it has in a sample.
    /// One that can be turned there isn't; it is turned then.
    pub(crate) fn is_worth_forcing(
        &mut self,
        f: &Formula,
        place: usize,
        sample: &mut Sample,
    ) -> bool
        requires { place < length f.now.existentials }
    {
        if sees_few(f, place) || place >= self.loose.len() || self.loose[place] >= MOST_LOOSE {
            return false;
        }
        if sample.is_loose(&self.occurrences, place) {
            sample.turn(&self.occurrences, place);
            return false;
        }
        self.takes_one()
    }

    /// Learns from an answer about the bit of the existential at a place.
    pub(crate) fn learn_bit(&mut self, place: usize, forced: &Forced) {
        if let Forced::Loose { .. } = forced {
            if place < self.loose.len() {
                self.loose[place] = self.loose[place].saturating_add(1);
            }
        }
    }

    fn learn_pair(&mut self, f: &Formula, pair: &Pair) -> Result<(), Memory> {
        if self.samples.len() < MOST_SAMPLES {
            self.samples.add(&pair.row1, &pair.values1)?;
            self.samples.add(&pair.row2, &pair.values2)?;
        }
        self.walk(f, &pair.row1, &pair.values1)?;
        self.walk(f, &pair.row2, &pair.values2)
    }

    // Marks the existentials that are turned on a walk from these values.
    fn walk(&mut self, f: &Formula, row: &Row, values: &Row) -> Result<(), Memory> {
        let values = bits_of(self.alloc, values)?;
        let sample = Sample::new(self.alloc, f, row, values)?;
        let mut walk = Walk::new(self.alloc, f, &self.occurrences, &self.numbers, sample);
        pass_often(&mut walk, &self.order, &mut self.is_free)
    }
}

// Goes through the existentials, forwards and backwards by turns, as long as there is a new one.
fn pass_often(walk: &mut Walk, order: &[usize], is_free: &mut [bool]) -> Result<(), Memory> {
    for number in 0..MOST_PASSES {
        let is_back = number % 2 == 1;
        if !pass(walk, order, is_back, is_free)? {
            return Ok(());
        }
    }
    Ok(())
}

fn sees_few(f: &Formula, place: usize) -> bool
    requires { place < length f.now.existentials }
{
    f.every_formula_is_lawful();
    f.seen(f.existentials()[place]).len() <= FEW_SEEN
}

// Goes once through the existentials, in order or from the last one on, marks those that are turned,
// and says whether there was a new one.
fn pass(
    walk: &mut Walk,
    order: &[usize],
    is_back: bool,
    is_free: &mut [bool],
) -> Result<bool, Memory> {
    let mut is_new = false;
    for number in 0..order.len() {
        let at = if is_back {
            order.len() - 1 - number
        } else {
            number
        };
        if visit(walk, order[at], is_free)? {
            is_new = true;
        }
    }
    Ok(is_new)
}

// Turns the existential at a place if it can be turned, and marks it; says whether it is a new one.
fn visit(walk: &mut Walk, place: usize, is_free: &mut [bool]) -> Result<bool, Memory> {
    if place >= is_free.len() {
        return Ok(false);
    }
    if is_free[place] {
        walk.turn_alone(place);
        return Ok(false);
    }
    is_free[place] = walk.turn(place)?;
    Ok(is_free[place])
}
