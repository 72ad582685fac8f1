//! Rows that are added to a table.

ghost use Rattle.std.specs.Prelude.{◌≡◌, length};

use dq_formula::Formula;
use dq_lits::Row;

/// A row of a formula's universals that is to be added.
#[derive(Drop)]
pub(crate) struct NewRow<'f, 'r> {
    pub f: &'f Formula,
    pub row: &'r Row,
    ghost long: { length row.now ≡ length f.now.universals },
}

/// The same, with the variables of its pairs, in order of the existentials.
#[derive(Drop)]
pub(crate) struct PairedRow<'f, 'r, 'v> {
    pub f: &'f Formula,
    pub row: &'r Row,
    pub variables: &'v [u64],
}
