//! Answers whose given clauses fall into two sides.

use crate::node_maps::NodeMap;
use crate::sides::Side;
use hint_log::Log;

/// An answer of a log, by its id, with the ids that it reaches.
#[derive(Drop)]
pub(crate) struct Answer<'l, 'i> {
    pub log: &'l Log,
    pub id: u64,
    pub ids: &'i [u64],
}

/// An answer of a log, by its id, with the A side of what it reaches, and the nodes of the
/// variables that both sides share.
#[derive(Drop)]
pub(crate) struct Split<'l, 's, 'n> {
    pub log: &'l Log,
    pub id: u64,
    pub side: &'s Side,
    pub shared: &'n NodeMap,
}
