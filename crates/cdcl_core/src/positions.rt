//! Where an open clause is sought: a policy that no contract speaks of.
//!
//! Clauses of larger ids than the newest open one have true literals, and still have them once the
//! trail is taken back to where that one was open; but for clauses that were learned meanwhile. So
//! it is where all but the assumptions are taken back: what these make true they make true again.

use std::alloc::Global;

/// Ids of clauses, from the larger one downwards.
#[derive(Clone, Copy)]
pub(crate) struct Span {
    pub(crate) from: u64,
    /// Not this one itself.
    pub(crate) down_to: u64,
}

/// Where an open clause is sought, now and at each level of the trail.
#[derive(Drop)]
pub(crate) struct Positions {
    // Where the newest open clause is: what was learned lately, or else behind what is known to be
    // true.
    newest: Span,
    rest: Span,
    // The levels of the trail, the newest one last, but for those that memory was refused for.
    levels: Vec<Level>,
    // The first level that isn't assumed, and the same of it when it began last in this search.
    free: usize,
    free_opened: u64,
    free_count: u64,
}

// A level that began where so many literals were true: its open clause, and how many clauses there
// were. It is noted when it begins, so that a variable costs nothing.
#[derive(Clone, Copy)]
struct Level {
    literals: usize,
    opened: u64,
    clauses: u64,
}

const NOWHERE: Span = Span {
    from: 0,
    down_to: 0,
};

fn down_from(id: u64) -> Span {
    Span {
        from: id,
        down_to: 0,
    }
}

impl Positions {
    pub(crate) fn new(alloc: Global) -> Positions {
        Positions {
            newest: NOWHERE,
            rest: NOWHERE,
            levels: Vec::new(alloc),
            free: usize::MAX,
            free_opened: u64::MAX,
            free_count: 0,
        }
    }

    /// All clauses are to be looked at: a search begins.
    pub(crate) fn begin(&mut self) {
        self.levels.clear();
        self.free_opened = u64::MAX;
        self.back_to_assumptions(0);
    }

    // What the assumptions make true isn't to be looked at again.
    fn back_to_assumptions(&mut self, clauses: u64) {
        self.free = usize::MAX;
        if self.free_opened > clauses {
            self.newest = NOWHERE;
            self.rest = NOWHERE;
        } else {
            self.newest = Span {
                from: clauses,
                down_to: self.free_count,
            };
            self.rest = down_from(self.free_opened);
        }
    }

    /// Whether a place of the trail is of a level that isn't assumed.
    pub(crate) fn is_free(&self, place: usize) -> bool {
        self.free <= place
    }

    /// What is to be looked at first.
    pub(crate) fn newest(&self) -> Span {
        self.newest
    }

    /// What is to be looked at then.
    pub(crate) fn rest(&self) -> Span {
        self.rest
    }

    /// Notes an open clause, of which a literal is decided where so many literals are true.
    pub(crate) fn open(&mut self, id: u64, literals: usize, clauses: u64) {
        if id > self.newest.down_to && id <= self.newest.from {
            self.newest.from = id;
        } else {
            self.newest = NOWHERE;
            self.rest = down_from(id);
        }
        self.set(literals, id, clauses);
        if literals <= self.free {
            self.free = literals;
            self.free_opened = id;
            self.free_count = clauses;
        }
    }

    /// Notes that an assumption is decided where so many literals are true.
    pub(crate) fn assume(&mut self, literals: usize) {
        self.set(literals, u64::MAX, 0);
    }

    /// Goes back to where so many literals were true, where there are so many clauses now.
    pub(crate) fn back(&mut self, literals: usize, clauses: u64) {
        self.leave(literals.saturating_add(1));
        match self.levels.last() {
            Some(level) if level.literals == literals && level.opened <= clauses => {
                self.newest = Span {
                    from: clauses,
                    down_to: level.clauses,
                };
                self.rest = down_from(level.opened);
            }
            _ => self.back_to_assumptions(clauses),
        }
    }

    // Notes a level. Where memory is refused all is looked at once it is gone back to.
    fn set(&mut self, literals: usize, opened: u64, clauses: u64) {
        self.leave(literals);
        let _noted = self.levels.push(Level {
            literals,
            opened,
            clauses,
        });
    }

    // Takes away the levels that began where so many literals or more were true.
    fn leave(&mut self, literals: usize) {
        for _ in 0..self.levels.len() {
            match self.levels.last() {
                Some(level) if level.literals >= literals => {}
                _ => return,
            }
            self.levels.pop();
        }
    }
}
