//! Rules: a bit that an existential is forced to where a cube is true.

use dq_lits::Clause;

/// What an existential is forced to: this bit, wherever the cube is true. The cube is a list of
/// literals on universals that the existential depends on, and is true where all of them are.
#[derive(Drop)]
pub struct Rule {
    pub y: u64,
    pub cube: Clause,
    pub bit: bool,
}
