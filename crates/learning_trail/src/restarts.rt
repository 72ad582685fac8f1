//! When a search begins anew: a policy that no contract speaks of.

const UNIT: u64 = 100;

/// Restarts after numbers of conflicts that follow Luby's sequence 1, 1, 2, 1, 1, 2, 4, ..
///
/// The sequence is made by reluctant doubling (D. Knuth, "The Art of Computer Programming", volume
/// 4B, 7.2.2.2).
#[derive(Drop)]
pub struct Restarts {
    // How many conflicts are left until the next one.
    left: u64,
    round: u64,
    length: u64,
}

impl Restarts {
    pub fn new() -> Restarts {
        Restarts {
            left: UNIT,
            round: 1,
            length: 1,
        }
    }

    /// Counts a conflict, and tells whether a restart is due.
    pub fn is_due(&mut self) -> bool {
        if self.left > 1 {
            self.left -= 1;
            return false;
        }
        self.next();
        self.left = self.length.saturating_mul(UNIT);
        true
    }

    // The next number of the sequence.
    fn next(&mut self) {
        if self.round & self.round.wrapping_neg() == self.length {
            self.round = self.round.saturating_add(1);
            self.length = 1;
        } else {
            self.length = self.length.saturating_mul(2);
        }
    }
}
