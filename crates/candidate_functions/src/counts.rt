//! How well a test parts examples by their bits.

// Measures are sums of quotients, which this factor keeps apart.
const SCALE: u64 = 1024;

// How many examples there are at each branch of a test, by their bits.
#[derive(Drop)]
pub(crate) struct BranchCounts {
    yes_ones: u64,
    yes_zeros: u64,
    no_ones: u64,
    no_zeros: u64,
}

impl BranchCounts {
    pub(crate) fn none() -> BranchCounts {
        BranchCounts {
            yes_ones: 0,
            yes_zeros: 0,
            no_ones: 0,
            no_zeros: 0,
        }
    }

    pub(crate) fn add(&mut self, is_yes: bool, bit: bool) {
        let count = match (is_yes, bit) {
            (true, true) => &mut self.yes_ones,
            (true, false) => &mut self.yes_zeros,
            (false, true) => &mut self.no_ones,
            (false, false) => &mut self.no_zeros,
        };
        *count = count.saturating_add(1);
    }

    // How mixed the bits of examples are at both branches of a test: of each the product of the ones
    // and the zeros, over how many there are (the Gini impurity, L. Breiman et al., "Classification
    // and regression trees", 1984).
    pub(crate) fn impurity(&self) -> u64 {
        mixed(self.yes_ones, self.yes_zeros).saturating_add(mixed(self.no_ones, self.no_zeros))
    }
}

fn mixed(ones: u64, zeros: u64) -> u64 {
    let all = ones.saturating_add(zeros);
    if all == 0 {
        return 0;
    }
    ones.saturating_mul(zeros).saturating_mul(SCALE) / all
}
