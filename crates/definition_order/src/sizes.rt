//! How much existentials see.

ghost use Rattle.std.specs.Prelude.{◌≡◌, ◌<◌, length, map, IfOk, slice_index_or};
ghost use Rattle.std.specs.List.{range_with_len};
ghost use Rattle.definition_order.specs.Sizes.{nobody, sized_place};

use crate::shared::rank_at;
use dq_formula::Formula;
use dq_lits::Memory;
use std::alloc::Global;

// The places of all existentials, each behind the number of universals that the existential sees
// and its rank.
pub(crate) fn sized_places(
    alloc: Global,
    f: &Formula,
    ranks: &[usize],
) -> Result<Vec<((usize, usize), usize)>, Memory>
    ensures { IfOk result
        (λ sized. sized.items
        ≡ map (sized_place f.now ranks.now) (range_with_len 0 (length f.now.existentials))) }
{
    let mut sized = Vec::new(alloc);
    for place in 0..f.existentials().len() {
        sized.push(((size_at(f, place), rank_at(ranks, place)), place))?;
    }
    Ok(sized)
}

pub(crate) fn places_of(
    alloc: Global,
    sized: &[((usize, usize), usize)],
) -> Result<Vec<usize>, Memory>
    ensures { IfOk result (λ places. places.items ≡ map (λ s. s.1) sized.now) }
{
    Ok(sized.iter().map(|s| s.1).collect(alloc)?)
}

fn size_at(f: &Formula, place: usize) -> usize
    requires { place < length f.now.existentials }
    ensures { result ≡ length (slice_index_or f.now.existentials place nobody).sees }
{
    f.every_formula_is_lawful();
    f.seen(f.existentials()[place]).len()
}
