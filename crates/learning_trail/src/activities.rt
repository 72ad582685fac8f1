//! How active literals are: a policy that no contract speaks of.
//!
//! Scores stand on pages, and a page comes with the first conflict that touches one of its
//! variables. A score is scaled down where it is read, by how often all were since it was written.

use crate::codes::Code;
use dq_lits::Lit;
use std::alloc::Global;

// Above this the scores are scaled down.
const LARGE: u64 = 1 << 48;

const SCALE: u32 = 24;

// How many scores stand on a page: those of 256 variables.
const PAGE: usize = 512;

/// Scores of literals: those that stood in clauses of late conflicts have the highest.
#[derive(Drop)]
pub struct Activities {
    alloc: Global,
    // The score of each variable, and behind it that of its negation, in pages. A page is empty before
    // a conflict touches one of its variables: so a variable costs nothing as long as none comes near
    // it, and a search that touches the last variables alone takes no room for all before them.
    pages: Vec<Vec<Score>>,
    // What a literal gets now.
    bonus: u64,
    // How often the scores were scaled down.
    scaled: u64,
}

// A score that was written when the scores had been scaled down so often. It is scaled down further
// where it is read, so that no pass over all of them has to.
#[derive(Clone, Copy)]
struct Score {
    value: u64,
    scaled: u64,
}

const NO_SCORE: Score = Score {
    value: 0,
    scaled: 0,
};

impl Activities {
    pub fn new(alloc: Global) -> Activities {
        Activities {
            alloc,
            pages: Vec::new(alloc),
            bonus: 1 << SCALE,
            scaled: 0,
        }
    }

    /// Makes the literals of a clause more active.
    pub fn bump(&mut self, lits: &[Code]) {
        for l in lits {
            let place = l.place() - 2;
            if !self.bump_at(place) {
                self.add_page(place / PAGE);
                self.bump_at(place);
            }
        }
    }

    // Makes the literal at a place more active, and tells whether its page is there.
    fn bump_at(&mut self, place: usize) -> bool {
        let Some(page) = self.pages.get_mut(place / PAGE) else {
            return false;
        };
        let Some(score) = page.get_mut(place % PAGE) else {
            return false;
        };
        *score = Score {
            value: score.after(self.scaled).saturating_add(self.bonus),
            scaled: self.scaled,
        };
        true
    }

    // Scores on a page, and empty pages up to it. Where memory is refused its literals stay as active
    // as they were.
    #[cold]
    #[inline(never)]
    fn add_page(&mut self, page: usize) {
        for _ in self.pages.len()..page.saturating_add(1) {
            if self.pages.push(Vec::new(self.alloc)).is_err() {
                return;
            }
        }
        if let Ok(scores) = vec![in self.alloc; NO_SCORE; PAGE]
            && let Some(place) = self.pages.get_mut(page)
        {
            *place = scores;
        }
    }

    /// Later bumps weigh more than those up to now.
    pub fn decay(&mut self) {
        self.bonus = self.bonus.saturating_add(self.bonus / 16);
        if self.bonus > LARGE {
            self.bonus >>= SCALE;
            self.scaled = self.scaled.saturating_add(1);
        }
    }

    /// Whether a literal is more active than another.
    pub fn is_more_active(&self, l: Lit, other: Lit) -> bool {
        self.score(l) > self.score(other)
    }

    /// How active the literals of a variable are together.
    pub fn of_variable(&self, v: u64) -> u64 {
        let place = (v.wrapping_sub(1) as usize).wrapping_mul(2);
        self.score_at(place)
            .saturating_add(self.score_at(place.wrapping_add(1)))
    }

    fn score(&self, l: Lit) -> u64 {
        self.score_at(place_of(l))
    }

    fn score_at(&self, place: usize) -> u64 {
        match self.pages.get(place / PAGE) {
            Some(page) => page
                .get(place % PAGE)
                .map_or(0, |score| score.after(self.scaled)),
            None => 0,
        }
    }
}

impl Score {
    // The score, once all were scaled down so often.
    fn after(&self, scaled: u64) -> u64 {
        if scaled == self.scaled {
            return self.value;
        }
        self.faded(scaled)
    }

    // The same of a score that is older, which is rare.
    #[cold]
    #[inline(never)]
    fn faded(&self, scaled: u64) -> u64 {
        match scaled.saturating_sub(self.scaled) {
            0 => self.value,
            1 => self.value >> SCALE,
            2 => self.value >> (2 * SCALE),
            _ => 0,
        }
    }
}

fn place_of(l: Lit) -> usize {
    let place = (l.var() as usize - 1) * 2;
    if l.is_neg() { place + 1 } else { place }
}
