//! The variables of an expansion refutation.

ghost use Rattle.std.specs.Prelude.{◌≡◌, ◌≤◌, ◌/◌, ◌%◌, IsTrue};
ghost use Rattle.cert_text.specs.Pairs.{is_pair_number};

use dq_formula::Formula;

/// Pairs of an existential and a row: under row k the existential y is the variable (k - 1) * V +
/// y, where V is the number of the formula's variables.
#[derive(Clone, Copy)]
pub struct Pairs<'a> {
    pub formula: &'a Formula,
    pub rows: u64,
}

impl<'a> Pairs<'a> {
    /// Whether a number is that of a pair.
    pub fn has(self, number: u64) -> bool
        ensures pair { result ≡ is_pair_number self.entry.formula.now self.entry.rows number }
        ensures some { IsTrue result → 1 ≤ number }
    {
        let variables = self.formula.vars();
        if variables == 0 || number == 0 {
            return false;
        }
        let (row, place) = row_and_place(number - 1, variables);
        row < self.rows && self.formula.is_existential(place + 1)
    }
}

// The row of a pair and its existential, both from 0, by the pair's number from 0. Pairs of the
// first row cost no division, which takes as long as the reading of a literal.
#[inline(always)]
#[tactic(auto, using(crate::proofs::PairNumbers::first_row, crate::proofs::PairNumbers::first_place))]
fn row_and_place(place: u64, variables: u64) -> (u64, u64)
    requires { 1 ≤ variables }
    ensures row { result.0 ≡ place / variables }
    ensures place { result.1 ≡ place % variables }
{
    if place < variables {
        return (0, place);
    }
    (place / variables, place % variables)
}
