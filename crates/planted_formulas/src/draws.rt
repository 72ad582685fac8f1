//! A linear congruential generator.

ghost use Rattle.std.specs.Prelude.{◌≡◌, ◌<◌, ◌^◌};
ghost use Rattle.planted_formulas.specs.Planted.{next_state, drawn};

/// The state of the generator.
#[derive(Drop)]
pub(crate) struct Draws {
    pub state: u64,
}

impl Draws {
    /// The next number, below a bound.
    pub fn below(&mut self, bound: u64) -> u64
        requires state { self.old.state < 2 ^ 31 }
        requires bound { 0 < bound }
        ensures state { self.new.state ≡ next_state self.old.state }
        ensures fits { self.new.state < 2 ^ 31 }
        ensures number { result ≡ drawn self.new.state bound }
        ensures within { result < bound }
    {
        self.state = (self.state * 1_103_515_245 + 12_345) % 2_147_483_648;
        (self.state / 65_536) % bound
    }
}
