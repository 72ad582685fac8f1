//! The values of a trail, kept as a model.

ghost use Rattle.std.specs.Prelude.{◌≡◌, ◌≤◌, ◌<◌, ◌^◌, ℕ, true, false, length, slice_index_or, suc};
ghost use Rattle.dq_lits.specs.Literal.{positive};
ghost use Rattle.learning_trail.specs.Steps.{literals_of};
ghost use Rattle.dq_lits.specs.Truth.{literal_value};
ghost use Rattle.dq_lits.specs.declared.truth_values.TruthValue.TheVariants.{True};

use crate::trails::Trail;
use dq_lits::{Lit, TruthValue};

/// Keeps the values of the trail.
pub fn keep_values(model: &mut [bool], trail: &Trail)
    requires room { length model.old ≤ trail.now.room }
    requires few { length model.old < 2 ^ 62 }
    ensures len { length model.new ≡ length model.old }
    ensures values { (i : ℕ) → i < length model.old
        → (slice_index_or model.new i false ≡ true
        → literal_value (literals_of trail.now.steps) (positive (suc i)) ≡ True)
        × (literal_value (literals_of trail.now.steps) (positive (suc i)) ≡ True
        → slice_index_or model.new i false ≡ true) }
{
    for i in 0..model.len() {
        model[i] = is_true(trail.value(Lit::pos(i as u64 + 1)));
    }
}

fn is_true(value: TruthValue) -> bool
    ensures on { value ≡ True → result ≡ true }
    ensures off { result ≡ true → value ≡ True }
{
    match value {
        TruthValue::True => true,
        TruthValue::False => false,
        TruthValue::Unassigned => false,
    }
}
