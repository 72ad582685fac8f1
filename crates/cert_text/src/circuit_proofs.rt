//! A circuit's proof as a value.

use crate::items::ItemList;

/// A circuit's proof (`dqp`): a derivation from the negated matrix, the clauses which say that some
/// clause of the formula is false where the circuit's gates have their values.
#[derive(Drop)]
pub struct Dqp {
    pub items: ItemList,
}
