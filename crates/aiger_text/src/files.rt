//! A circuit file as a value: netlist, symbols, comment.

ghost use Rattle.std.specs.Prelude.{◌≡◌, IfOk};

use crate::symbols::Symbols;
use circuit_plain::Circuit;
use dq_lits::Memory;
use std::alloc::Global;
use std::marker::Model;

/// Free text, byte for byte.
#[derive(Drop)]
pub struct Text {
    bytes: Vec<u8>,
}

impl Model for Text {
    ghost use Rattle.std.specs.Prelude.{ℕ, List};

    ghost Value = { List ℕ };

    ghost view = { λ t. t.bytes.items };
}

impl Text {
    /// A copy of these bytes.
    pub fn from_bytes(alloc: Global, bytes: &[u8]) -> Result<Text, Memory>
        ensures { IfOk result (λ text. text ≡ bytes.now) }
    {
        Ok(Text {
            bytes: Vec::from_slice(alloc, bytes)?,
        })
    }

    /// The bytes in order.
    pub fn items(&self) -> &[u8]
        ensures { result.now ≡ self.now }
    {
        &self.bytes
    }
}

/// A circuit file: the netlist, the symbols of its inputs and outputs, and the comment behind its
/// line `c`.
#[derive(Drop)]
pub struct AagFile {
    pub circuit: Circuit,
    pub symbols: Symbols,
    pub comment: Option<Text>,
}

/// A circuit file that was read, and the number of its comment's first line, if it has a comment.
#[derive(Drop)]
pub struct ReadCircuit {
    pub file: AagFile,
    pub comment_line: Option<u64>,
}
