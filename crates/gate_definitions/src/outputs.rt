//! Existentials whose gates are looked for.

ghost use Rattle.std.specs.Prelude.{◌≤◌, ◌<◌, ◌^◌, length, IsSome};
ghost use Rattle.dq_lits.specs.Formula.{existential_of};

use crate::index::Index;
use dq_formula::Formula;

/// An existential of a formula, which is to be a gate's output, with the numbers of clauses on it,
/// and the ranks by which its inputs come before it.
#[derive(Drop)]
pub(crate) struct Output<'f, 'r, 'n> {
    pub f: &'f Formula,
    pub ranks: &'r [usize],
    pub y: u64,
    pub numbers: &'n [u32],
    ghost existential: { IsSome (existential_of f.now y) },
    ghost from_one: { 1 ≤ y },
    ghost in_range: { y < 2 ^ 62 },
}

/// The existential at a place.
pub(crate) fn output_at<'f, 'r, 'n>(
    f: &'f Formula,
    ranks: &'r [usize],
    index: &'n Index,
    place: usize,
) -> Output<'f, 'r, 'n>
    requires { place < length f.now.existentials }
{
    f.every_formula_is_lawful();
    let y = f.existentials()[place];
    Output {
        f,
        ranks,
        y,
        numbers: index.on(f, y),
    }
}
