//! Numbers that are still to be looked at, the greatest first.
//!
//! What an answer rests on is found from its newest id downwards, as a hint is an earlier id. The
//! export looks at gates in the same way.

ghost use Rattle.std.specs.Prelude.{◌≡◌, ◌==◌, ℕ, if◌then◌else◌, ◌<◌, ◌⊎◌, ◌↔◌, true, false, IfSome, IfNone, OnErr, OnOk, Contains};
ghost use Rattle.hint_log.specs.Pending.{is_pending, Takes};

use dq_lits::Memory;
use std::alloc::Global;
use std::collections::BTreeSet;

/// A set of numbers that are still to be looked at: ids, or places of names.
#[derive(Drop)]
pub struct Pending {
    /// The numbers.
    pub numbers: BTreeSet<u64>,
}

impl Pending {
    /// No numbers. It takes no memory.
    pub fn new(alloc: Global) -> Pending
        ensures { (n : ℕ) → is_pending result n ≡ false }
    {
        Pending {
            numbers: BTreeSet::new(alloc),
        }
    }

    /// Takes the greatest number out.
    pub fn pop(&mut self) -> Option<u64>
        ensures some { IfSome result (λ n. Takes self.old self.new n) }
        ensures none { IfNone result ((n : ℕ) → is_pending self.old n ≡ false) }
    {
        self.numbers.pop_last()
    }

    /// Adds a number. The only error is want of memory, and leaves the set as it was.
    pub fn insert(&mut self, number: u64) -> Result<(), Memory>
        ensures ok { OnOk result
            ((n : ℕ)
            → is_pending self.new n ≡ (if number == n then true else is_pending self.old n)) }
        ensures err { OnErr result ((n : ℕ) → is_pending self.new n ≡ is_pending self.old n) }
    {
        self.numbers.insert(number)?;
        Ok(())
    }

    /// Adds these numbers. The only error is want of memory; it may leave some of them added, and
    /// takes none away.
    pub fn insert_all(&mut self, numbers: &[u64]) -> Result<(), Memory>
        ensures kept { (n : ℕ) → is_pending self.old n ≡ true → is_pending self.new n ≡ true }
        ensures added { OnOk result
            ((n : ℕ) → Contains numbers.now n → is_pending self.new n ≡ true) }
        ensures only { (n : ℕ) → is_pending self.new n ≡ true
            → (is_pending self.old n ≡ true) ⊎ Contains numbers.now n }
    {
        for number in numbers {
            self.insert(*number)?;
        }
        Ok(())
    }
}
