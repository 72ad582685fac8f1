//! Four lanes of 64 bits, bit by bit.

ghost use Rattle.std.specs.Prelude.{◌≡◌, ◌+◌, ◌<◌, ◌%◌, ◌==◌, ◌&&◌, ◌||◌, ℕ, length};
ghost use Rattle.std.specs.Int.{bit_at};
ghost use Rattle.circuit_plain.specs.Blocks.{lane_bit, row_number};
ghost use Rattle.circuit_plain.specs.Netlist.{signed_bit};

use std::simd::u64x4;

/// The conjunction.
pub fn both(x: u64x4, y: u64x4) -> u64x4
    requires x_four { length x ≡ 4 }
    requires y_four { length y ≡ 4 }
    ensures four { length result ≡ 4 }
    ensures bits { (l b : ℕ) → l < 4 → lane_bit result l b ≡ (lane_bit x l b && lane_bit y l b) }
{
    x & y
}

/// The disjunction.
pub fn either(x: u64x4, y: u64x4) -> u64x4
    requires x_four { length x ≡ 4 }
    requires y_four { length y ≡ 4 }
    ensures four { length result ≡ 4 }
    ensures bits { (l b : ℕ) → l < 4 → lane_bit result l b ≡ (lane_bit x l b || lane_bit y l b) }
{
    x | y
}

/// The lanes of a literal whose variable has these.
pub fn signed(x: u64x4, literal: u64) -> u64x4
    requires { length x ≡ 4 }
    ensures four { length result ≡ 4 }
    ensures bits { (l b : ℕ) → l < 4 → b < 64
        → lane_bit result l b ≡ signed_bit literal (lane_bit x l b) }
{
    x ^ u64x4::splat(literal % 2 * u64::MAX)
}

// Of the numbers below 64 the bits at the places 0 to 5: bit b of a word is that of b.
const WORDS: [u64; 6] = [
    0xAAAA_AAAA_AAAA_AAAA,
    0xCCCC_CCCC_CCCC_CCCC,
    0xF0F0_F0F0_F0F0_F0F0,
    0xFF00_FF00_FF00_FF00,
    0xFFFF_0000_FFFF_0000,
    0xFFFF_FFFF_0000_0000,
];

/// The bits at a place of the 256 numbers from `first` on.
pub(crate) fn pattern(place: usize, first: u64) -> u64x4
    requires few { place < 64 }
    requires whole { first % 256 ≡ 0 }
    ensures four { length result ≡ 4 }
    ensures bits { (l b : ℕ) → l < 4 → b < 64
        → lane_bit result l b ≡ (bit_at (row_number first l b) place == 1) }
{
    if place < 6 {
        return u64x4::splat(WORDS[place]);
    }
    if place == 6 {
        return u64x4::from_array([0, u64::MAX, 0, u64::MAX]);
    }
    if place == 7 {
        return u64x4::from_array([0, 0, u64::MAX, u64::MAX]);
    }
    u64x4::splat((first >> place) % 2 * u64::MAX)
}
