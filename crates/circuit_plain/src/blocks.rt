//! The bits of a circuit's variables under 256 rows.
//!
//! Four words of 64 are two registers on any x86-64. The words of the six lowest bits of a row's
//! number are fixed.

ghost use Rattle.std.specs.Prelude.{◌≡◌, ◌+◌, ◌^◌, ◌<◌, ℕ, [], length, replicate, slice_index_or, slice_set, IfOk};
ghost use Rattle.circuit_plain.specs.Blocks.{lane_bit, block_bits};
ghost use Rattle.circuit_plain.specs.Netlist.{literal_variable, literal_bit};

use crate::lanes::signed;
use dq_lits::Memory;
use std::alloc::Global;
use std::marker::Model;
use std::simd::u64x4;

/// By variable, a bit for each of 256 rows: four lanes of 64. The constant has variable 0.
#[derive(Drop)]
pub struct Block {
    by_variable: Vec<u64x4>,
}

impl Model for Block {
    ghost use Rattle.std.specs.Prelude.{◌≡◌, ℕ, List, All, length};

    ghost Value = { List (List ℕ) };

    ghost view = { λ b. b.by_variable.items };

    ghost invariant = { λ b. All (λ lanes. length lanes ≡ 4) b.by_variable.items };
}

impl Block {
    /// All false, for the variables up to `vars`.
    pub fn new(alloc: Global, vars: u64) -> Result<Block, Memory>
        requires { vars < 2 ^ 62 }
        ensures { IfOk result (λ block. block ≡ replicate (vars + 1) (replicate 4 0)) }
    {
        let by_variable = vec![in alloc; u64x4::splat(0); vars as usize + 1]?;
        Ok(Block { by_variable })
    }

    /// The lanes of a variable.
    pub fn lanes(&self, variable: u64) -> u64x4
        requires { variable < length self.now }
        ensures value { result ≡ slice_index_or self.now variable [] }
        ensures four { length result ≡ 4 }
    {
        self.by_variable[variable as usize]
    }

    /// Writes the lanes of a variable.
    pub(crate) fn set(&mut self, variable: u64, lanes: u64x4)
        requires in_range { variable < length self.old }
        requires four { length lanes ≡ 4 }
        ensures { self.new ≡ slice_set self.old variable lanes }
    {
        self.by_variable[variable as usize] = lanes;
    }
}

/// The lanes of a literal.
pub fn literal_lanes(values: &Block, lit: u64) -> u64x4
    requires { literal_variable lit < length values.now }
    ensures four { length result ≡ 4 }
    ensures bits { (l b : ℕ) → l < 4 → b < 64
        → lane_bit result l b ≡ literal_bit (block_bits values.now l b) lit }
{
    signed(values.lanes(lit / 2), lit)
}
