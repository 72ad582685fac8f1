//! What a run prints, and in what detail.

use std::alloc::Global;

/// What is written of a model.
#[derive(Clone, Copy)]
pub enum Detail {
    /// Whether it is one.
    Checks,
    /// Its bits, and the candidates' values, too.
    Bits,
    /// How many leaves the existentials' trees have, and whether they have its bits, too.
    Leaves,
}

/// What a run printed so far.
#[derive(Drop)]
pub struct Report {
    pub text: String,
    pub detail: Detail,
}

impl Report {
    pub fn new(alloc: Global, detail: Detail) -> Report {
        Report {
            text: String::new(alloc),
            detail,
        }
    }
}
