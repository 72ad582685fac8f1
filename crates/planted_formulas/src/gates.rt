//! Gates over two universals.

ghost use Rattle.std.specs.Prelude.{◌≡◌, ◌+◌, ◌<◌, ◌≤◌, ◌^◌};
ghost use Rattle.planted_formulas.specs.Planted.{next_state, next_gate};

use crate::draws::Draws;

/// The function of an existential: the conjunction of two universals, or their exclusive or.
#[derive(Clone, Copy)]
pub struct PlantedGate {
    pub output: u64,
    pub left: u64,
    pub right: u64,
    pub is_xor: bool,
}

/// The gate of a variable over two of the universals from 1 to `n`, by the next three draws.
pub(crate) fn draw_gate(draws: &mut Draws, n: u64, output: u64) -> PlantedGate
    requires state { draws.old.state < 2 ^ 31 }
    requires two { 2 ≤ n }
    requires few { n < 2 ^ 31 }
    ensures state { draws.new.state ≡ next_state (next_state (next_state draws.old.state)) }
    ensures fits { draws.new.state < 2 ^ 31 }
    ensures gate { result ≡ next_gate n output draws.old.state }
    ensures left { (1 ≤ result.left) × (result.left ≤ n) }
    ensures right { (1 ≤ result.right) × (result.right ≤ n) }
{
    let left = 1 + draws.below(n);
    let drawn = 1 + draws.below(n);
    let right = if drawn == left { left % n + 1 } else { drawn };
    let is_xor = draws.below(2) == 1;
    PlantedGate {
        output,
        left,
        right,
        is_xor,
    }
}
