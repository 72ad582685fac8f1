//! A black box of a design.

ghost use Rattle.std.specs.Prelude.{◌≡◌};

use std::marker::Model;

/// A black box, by circuit literals as in AIGER.
#[derive(Drop)]
pub struct BlackBox {
    ins: Vec<u64>,
    outs: Vec<u64>,
}

impl Model for BlackBox {
    ghost use Rattle.pec_front.specs.Boxes.{BlackBox};

    ghost Value = { BlackBox };

    ghost view = { λ b. record { ins = b.ins.items; outs = b.outs.items } };
}

impl BlackBox {
    pub(crate) fn new(ins: Vec<u64>, outs: Vec<u64>) -> BlackBox
        ensures { result ≡ record { ins = ins.items; outs = outs.items } }
    {
        BlackBox { ins, outs }
    }

    /// The literals that it reads, in order.
    pub fn ins(&self) -> &[u64]
        ensures { result.now ≡ self.now.ins }
    {
        &self.ins
    }

    /// The literals of the inputs that it drives, in order.
    pub fn outs(&self) -> &[u64]
        ensures { result.now ≡ self.now.outs }
    {
        &self.outs
    }
}
