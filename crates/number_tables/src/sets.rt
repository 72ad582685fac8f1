//! A set of numbers, each found by its value.

ghost use Rattle.std.specs.Prelude.{◌≡◌, ◌<◌, ◌^◌, ◌==◌, ◌||◌, ◌++◌, ◌∷◌, ℕ, [], Contains, length, is_some, not, IfOk, OnOk, OnErr, IfSome};
ghost use Rattle.number_tables.specs.Numbers.{has_number, place_of, with_number};

use crate::places::Places;
use dq_lits::Memory;
use std::alloc::Global;
use std::marker::Model;

/// Numbers in the order in which they were added, each once.
#[derive(Drop)]
pub struct NumberSet {
    numbers: Vec<u64>,
    places: Places,
}

impl Model for NumberSet {
    ghost use Rattle.std.specs.Prelude.{ℕ, List};
    ghost use Rattle.number_tables.specs.Inside.{numbers_in, IsIndexed};

    ghost Value = { List ℕ };

    ghost view = { numbers_in };

    ghost invariant = { IsIndexed };
}

impl NumberSet {
    /// No number. It takes no memory.
    pub fn new(alloc: Global) -> NumberSet
        ensures { result ≡ [] }
    {
        NumberSet {
            numbers: Vec::new(alloc),
            places: Places::new(alloc),
        }
    }

    /// How many numbers there are.
    pub fn len(&self) -> usize
        ensures value { result ≡ length self.now }
        ensures small { result < 2 ^ 63 }
    {
        self.numbers.len()
    }

    /// The numbers in order.
    pub fn items(&self) -> &[u64]
        ensures { result.now ≡ self.now }
    {
        &self.numbers
    }

    /// The place of a number, counted from 0, if it is there.
    pub fn place(&self, number: u64) -> Option<usize>
        ensures place { result ≡ place_of self.now number }
        ensures found { is_some result ≡ has_number self.now number }
        ensures within { IfSome result (λ place. place < length self.now) }
    {
        self.places.get(number)
    }

    /// Whether a number is there.
    pub fn contains(&self, number: u64) -> bool
        ensures { result ≡ has_number self.now number }
    {
        self.place(number).is_some()
    }

    /// Adds a number behind the others, unless it is there already, and says whether it wasn't. The
    /// only error is want of memory, and then nothing changed.
    #[inline(always)]
    pub fn insert(&mut self, number: u64) -> Result<bool, Memory>
        ensures added { IfOk result (λ is_new. is_new ≡ not (has_number self.old number)) }
        ensures numbers { OnOk result (self.new ≡ with_number self.old number) }
        ensures there { OnOk result
            ((n : ℕ) → has_number self.new n ≡ (has_number self.old n || (number == n))) }
        ensures err { OnErr result (self.new ≡ self.old) }
    {
        if self.contains(number) {
            return Ok(false);
        }
        self.numbers.reserve(1)?;
        self.places.put(number, self.numbers.len())?;
        self.numbers.push_reserved(number);
        Ok(true)
    }

    /// Adds a number that isn't there, behind the others. The only error is want of memory, and
    /// then nothing changed.
    pub fn push(&mut self, number: u64) -> Result<(), Memory>
        requires { ¬ Contains self.old number }
        ensures ok { OnOk result (self.new ≡ self.old ++ number ∷ []) }
        ensures err { OnErr result (self.new ≡ self.old) }
    {
        self.insert(number)?;
        Ok(())
    }
}
