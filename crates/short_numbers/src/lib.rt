//! Numbers that take 4 bytes each, as long as they fit in 32 bits, and 8 from then on.
#![tactic(auto)]

ghost use Rattle.std.specs.Prelude.{◌≡◌, ◌≤◌, ◌<◌, ◌-◌, ◌^◌, ◌++◌, ◌∷◌, ◌⊎◌, [], length, set, slice_index_or, OnOk, OnErr};
ghost use Rattle.short_numbers.specs.Numbers.{widened, before};

use std::alloc::{AllocError, Global};
use std::marker::Model;

// The first number that doesn't fit in 32 bits.
const WIDE: u64 = 4294967296;

/// Numbers that take 4 bytes each, until room for a number is made that doesn't fit in 32 bits.
#[derive(Drop)]
pub struct ShortNumbers {
    // The lower half of each number.
    low: Vec<u32>,
    // The higher half of each, once they are wide; nothing before.
    high: Vec<u32>,
    is_wide: bool,
}

impl Model for ShortNumbers {
    ghost use Rattle.short_numbers.specs.Numbers.{Numbers, numbers_in, IsHalved};

    ghost Value = { Numbers };

    ghost view = { numbers_in };

    ghost invariant = { IsHalved };
}

impl ShortNumbers {
    /// No numbers. It takes no memory.
    pub fn new(alloc: Global) -> ShortNumbers
        ensures { result ≡ record { items = []; capacity = 0; most = 2 ^ 32 - 1 } }
    {
        ShortNumbers {
            low: Vec::new(alloc),
            high: Vec::new(alloc),
            is_wide: false,
        }
    }

    /// How many numbers there are.
    pub fn len(&self) -> usize
        ensures value { result ≡ length self.now.items }
        ensures small { result < 2 ^ 63 }
    {
        self.low.len()
    }

    /// The number at a place, from 0.
    pub fn get(&self, place: usize) -> u64
        requires { place < length self.now.items }
        ensures { result ≡ slice_index_or self.now.items place 0 }
    {
        if self.is_wide {
            return self.wide(place);
        }
        self.low[place] as u64
    }

    // The same of numbers with two halves, which are rare.
    #[cold]
    #[inline(never)]
    fn wide(&self, place: usize) -> u64
        requires within { place < length self.now.items }
        requires is_wide { self.now.most ≡ 2 ^ 64 - 1 }
        ensures { result ≡ slice_index_or self.now.items place 0 }
    {
        self.low[place] as u64 + self.high[place] as u64 * WIDE
    }

    /// Makes room for one number more. The only error is want of memory, where there was no room.
    pub fn reserve(&mut self) -> Result<(), AllocError>
        ensures items { self.new.items ≡ self.old.items }
        ensures most { self.new.most ≡ self.old.most }
        ensures capacity { self.old.capacity ≤ self.new.capacity }
        ensures room { OnOk result (length self.new.items < self.new.capacity) }
        ensures full { OnErr result (self.old.capacity ≤ length self.old.items) }
    {
        self.low.reserve(1)?;
        if self.is_wide {
            self.high.reserve(1)?;
        }
        Ok(())
    }

    /// Lets numbers up to one fit. The only error is want of memory, where that one didn't fit, and
    /// then nothing changed.
    pub fn fit(&mut self, most: u64) -> Result<(), AllocError>
        ensures items { self.new.items ≡ self.old.items }
        ensures capacity { self.new.capacity ≡ self.old.capacity }
        ensures fits { OnOk result (most ≤ self.new.most) }
        ensures most { OnOk result (self.new.most ≡ widened self.old.most most) }
        ensures more { self.old.most ≤ self.new.most }
        ensures err { OnErr result ((self.new ≡ self.old) × (self.old.most < most)) }
    {
        if self.is_wide {
            return Ok(());
        }
        if most >= WIDE {
            self.widen()?;
        }
        Ok(())
    }

    // Gives each number its higher half, and as much room to these as the others have.
    #[inline(never)]
    fn widen(&mut self) -> Result<(), AllocError>
        requires { self.old.most ≡ 2 ^ 32 - 1 }
        ensures items { self.new.items ≡ self.old.items }
        ensures capacity { self.new.capacity ≡ self.old.capacity }
        ensures most { OnOk result (self.new.most ≡ 2 ^ 64 - 1) }
        ensures err { OnErr result (self.new ≡ self.old) }
    {
        self.high.reserve(self.low.capacity())?;
        self.high.resize(self.low.len(), 0).unwrap();
        self.is_wide = true;
        Ok(())
    }

    /// Adds a number that there is room for, behind the others.
    pub fn push(&mut self, number: u64)
        requires room { length self.old.items < self.old.capacity }
        requires fits { number ≤ self.old.most }
        ensures { self.new ≡ record self.old { items = self.old.items ++ number ∷ [] } }
    {
        self.low.push_reserved((number % WIDE) as u32);
        if self.is_wide {
            self.high.push_reserved((number / WIDE) as u32);
        }
    }

    /// Puts a number that there is room for at a place, from 0.
    pub fn set(&mut self, place: usize, number: u64)
        requires within { place < length self.old.items }
        requires fits { number ≤ self.old.most }
        ensures { self.new ≡ record self.old { items = set self.old.items place number } }
    {
        self.low[place] = (number % WIDE) as u32;
        if self.is_wide {
            self.high[place] = (number / WIDE) as u32;
        }
    }

    /// The number before a place, 0 at the first one, and the number at it: so whether the numbers
    /// are short is asked once.
    pub fn span(&self, place: usize) -> (u64, u64)
        requires { place < length self.now.items }
        ensures start { result.0 ≡ before self.now.items place }
        ensures end { result.1 ≡ slice_index_or self.now.items place 0 }
    {
        if self.is_wide {
            return self.wide_span(place);
        }
        let start = if place == 0 { 0 } else { self.low[place - 1] };
        (start as u64, self.low[place] as u64)
    }

    // The same of numbers with two halves, which are rare.
    #[cold]
    #[inline(never)]
    fn wide_span(&self, place: usize) -> (u64, u64)
        requires { place < length self.now.items }
        ensures start { result.0 ≡ before self.now.items place }
        ensures end { result.1 ≡ slice_index_or self.now.items place 0 }
    {
        let start = if place == 0 { 0 } else { self.get(place - 1) };
        (start, self.get(place))
    }

    /// Puts a number that there is room for at a place, from 0, and answers what stood there.
    pub fn replace(&mut self, place: usize, number: u64) -> u64
        requires within { place < length self.old.items }
        requires fits { number ≤ self.old.most }
        ensures value { result ≡ slice_index_or self.old.items place 0 }
        ensures these { self.new ≡ record self.old { items = set self.old.items place number } }
    {
        if self.is_wide {
            return self.replace_wide(place, number);
        }
        let old = self.low[place];
        self.low[place] = (number % WIDE) as u32;
        old as u64
    }

    // The same of numbers with two halves, which are rare.
    #[cold]
    #[inline(never)]
    fn replace_wide(&mut self, place: usize, number: u64) -> u64
        requires within { place < length self.old.items }
        requires fits { number ≤ self.old.most }
        ensures value { result ≡ slice_index_or self.old.items place 0 }
        ensures these { self.new ≡ record self.old { items = set self.old.items place number } }
    {
        let old = self.get(place);
        self.set(place, number);
        old
    }

    /// Puts a number at a place of others, what stood there at a place of these, and answers what
    /// stood here: so an element goes from one linked list to another, and whether the numbers are
    /// short is asked once.
    pub fn rotate(&mut self, at: usize, others: &mut ShortNumbers, place: usize, number: u64) -> u64
        requires within { at < length self.old.items }
        requires others_within { place < length others.old.items }
        requires fits { slice_index_or others.old.items place 0 ≤ self.old.most }
        requires others_fit { number ≤ others.old.most }
        ensures value { result ≡ slice_index_or self.old.items at 0 }
        ensures these { self.new
            ≡ record self.old
            { items = set self.old.items at (slice_index_or others.old.items place 0) } }
        ensures others { others.new
            ≡ record others.old { items = set others.old.items place number } }
    {
        if self.is_wide || others.is_wide {
            return self.rotate_wide(at, others, place, number);
        }
        let old = self.low[at];
        self.low[at] = others.low[place];
        others.low[place] = (number % WIDE) as u32;
        old as u64
    }

    // The same where there are two halves, which is rare.
    #[cold]
    #[inline(never)]
    fn rotate_wide(
        &mut self,
        at: usize,
        others: &mut ShortNumbers,
        place: usize,
        number: u64,
    ) -> u64
        requires within { at < length self.old.items }
        requires others_within { place < length others.old.items }
        requires fits { slice_index_or others.old.items place 0 ≤ self.old.most }
        requires others_fit { number ≤ others.old.most }
        ensures value { result ≡ slice_index_or self.old.items at 0 }
        ensures these { self.new
            ≡ record self.old
            { items = set self.old.items at (slice_index_or others.old.items place 0) } }
        ensures others { others.new
            ≡ record others.old { items = set others.old.items place number } }
    {
        let old = self.get(at);
        self.set(at, others.get(place));
        others.set(place, number);
        old
    }
}
