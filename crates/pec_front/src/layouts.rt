//! Where each kind of variable of a design's formula begins.

ghost use Rattle.std.specs.Prelude.{◌≡◌, IfOk};
ghost use Rattle.pec_front.specs.Boxes.{signals};
ghost use Rattle.pec_front.specs.Encoding.{signals_of};
ghost use Rattle.pec_front.specs.Layout.{IsLayoutOf};

use crate::boxes::BlackBox;
use crate::designs::Design;
use dq_formula::MAX_VARIABLES;
use dq_lits::Memory;
use std::alloc::Global;

/// The first variable of each kind, and one more than the last.
#[derive(Clone, Copy)]
pub(crate) struct Layout {
    pub first_copy: u64,
    pub first_driven: u64,
    pub first_specified: u64,
    pub first_implemented: u64,
    pub first_same: u64,
    pub first_agree: u64,
    pub end: u64,
}

/// The layout for a design whose boxes read so many signals; none where it needs more variables
/// than a formula may have.
pub(crate) fn layout_of(design: &Design, signals: usize) -> Option<Layout>
    requires { signals ≡ signals_of design.now }
    ensures { IsLayoutOf design.now result }
{
    design.every_design_is_lawful();
    let inputs = design.specification().inputs().len();
    let first_copy = 1 + inputs as u128;
    let first_driven = first_copy + signals as u128;
    let first_specified = first_driven + (design.implementation().inputs().len() - inputs) as u128;
    let first_implemented = first_specified + design.specification().gates() as u128;
    let first_same = first_implemented + design.implementation().gates() as u128;
    let first_agree = first_same + signals as u128;
    let end = first_agree + design.specification().outputs().len() as u128;
    if end > MAX_VARIABLES as u128 + 1 {
        return None;
    }
    Some(Layout {
        first_copy: first_copy as u64,
        first_driven: first_driven as u64,
        first_specified: first_specified as u64,
        first_implemented: first_implemented as u64,
        first_same: first_same as u64,
        first_agree: first_agree as u64,
        end: end as u64,
    })
}

/// What boxes read, end to end.
pub(crate) fn signals(alloc: Global, boxes: &[BlackBox]) -> Result<Vec<u64>, Memory>
    ensures { IfOk result (λ all. all.items ≡ signals boxes.now) }
{
    let mut all = Vec::new(alloc);
    for black_box in boxes {
        all.extend_from_slice(black_box.ins())?;
    }
    Ok(all)
}
