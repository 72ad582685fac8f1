//! Differences of literals.
//!
//! A difference is read by a recursion of at most five calls, one a byte, which is its definition.

ghost use Rattle.std.specs.Prelude.{◌≡◌, ◌<◌, ◌≤◌, ◌^◌, length, Ok, Err, IfOk, MatchResult};
ghost use Rattle.aig_binary.specs.Deltas.{most_groups, read_delta};
ghost use Rattle.aig_binary.specs.Steps.{end_of};

use aiger_text::AagFault;
use std::marker::Model;

/// The most bytes of a difference.
pub(crate) const MOST_GROUPS: u32 = 5;

/// Bytes that are read difference by difference.
#[derive(Drop)]
pub struct Deltas<'a> {
    rest: &'a [u8],
}

impl<'a> Model for Deltas<'a> {
    ghost use Rattle.std.specs.Prelude.{ℕ, List};

    ghost Value = { List ℕ };

    ghost view = { λ d. d.rest.now };
}

impl<'a> Deltas<'a> {
    /// The differences of these bytes.
    pub fn new(bytes: &'a [u8]) -> Deltas<'a>
        ensures { result ≡ bytes.now }
    {
        Deltas { rest: bytes }
    }

    /// The bytes behind the differences that were read.
    pub fn rest(&self) -> &'a [u8]
        ensures { result.now ≡ self.now }
    {
        self.rest
    }

    /// The next difference.
    pub fn next(&mut self) -> Result<u64, AagFault>
        ensures read { MatchResult result
            (λ n. read_delta most_groups self.old ≡ Ok (n, self.new))
            (λ name. read_delta most_groups self.old ≡ Err name) }
        ensures small { IfOk result (λ n. n < 2 ^ 35) }
        ensures shorter { length self.new ≤ length self.old }
    {
        self.groups(MOST_GROUPS)
    }

    // A difference in at most so many bytes.
    fn groups(&mut self, most: u32) -> Result<u64, AagFault>
        requires { most ≤ 5 }
        ensures read { MatchResult result (λ n. read_delta most self.old ≡ Ok (n, self.new))
            (λ name. read_delta most self.old ≡ Err name) }
        ensures small { IfOk result (λ n. n < end_of most) }
        ensures shorter { length self.new ≤ length self.old }
    {
        if most == 0 {
            return Err(AagFault::BadDelta);
        }
        let Some((byte, rest)) = self.rest.split_first() else {
            return Err(AagFault::Truncated);
        };
        self.rest = rest;
        if *byte < 128 {
            return Ok(u64::from(*byte));
        }
        match self.groups(most - 1) {
            Ok(high) => Ok(u64::from(*byte) - 128 + 128 * high),
            Err(name) => Err(name),
        }
    }
}
