//! Calls that are counted, of which some are to fail.

ghost use Rattle.std.specs.Prelude.{◌≡◌, ◌≤◌, IfOk};
ghost use Rattle.dq_io.specs.Failures.{fails_next, called, faulted};

use crate::errors::Failed;
use dq_lits::Memory;
use std::alloc::Global;
use std::marker::Model;

/// Counts calls and faults, and knows which calls are to fail. Both counts stay at their last
/// value.
#[derive(Drop)]
pub struct Failures {
    failing: Vec<u64>,
    calls: u64,
    faults: u64,
}

impl Model for Failures {
    ghost use Rattle.dq_io.specs.Failures.{CallFailures};

    ghost Value = { CallFailures };

    ghost view = { λ f. record { failing = f.failing.items; calls = f.calls; faults = f.faults } };
}

impl Failures {
    /// The calls of these numbers are to fail; the first call has the number 1.
    pub fn new(alloc: Global, failing: &[u64]) -> Result<Failures, Memory>
        ensures { IfOk result (λ f. f ≡ record { failing = failing.now; calls = 0; faults = 0 }) }
    {
        Ok(Failures {
            failing: failing.to_vec(alloc)?,
            calls: 0,
            faults: 0,
        })
    }

    /// Counts a call, and says whether it is to fail.
    pub fn call(&mut self) -> bool
        ensures fails { result ≡ fails_next self.old }
        ensures counted { self.new ≡ called self.old }
    {
        self.calls = self.calls.saturating_add(1);
        self.failing.contains(&self.calls)
    }

    /// Counts a fault.
    pub fn fault(&mut self) -> Failed
        ensures counted { self.new ≡ faulted self.old }
        ensures later { self.old.faults ≤ self.new.faults }
    {
        self.faults = self.faults.saturating_add(1);
        Failed
    }
}
