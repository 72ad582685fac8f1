//! An expansion refutation as a value.

use crate::items::ItemList;
use dq_lits::RowList;

/// An expansion refutation (`dqr`): rows of the universals, and a derivation from the instances of
/// the clauses under them.
#[derive(Drop)]
pub struct Dqr {
    pub rows: RowList,
    pub items: ItemList,
}
