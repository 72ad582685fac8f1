//! What a search works on.

use crate::clauses::ClauseStore;
use learning_trail::{Activities, Notes, Restarts, Trail};
use std::alloc::Global;

/// What a search works on.
#[derive(Drop)]
pub(crate) struct Searcher {
    pub(crate) alloc: Global,
    pub(crate) variables: u64,
    pub(crate) clauses: ClauseStore,
    pub(crate) trail: Trail,
    pub(crate) notes: Notes,
    pub(crate) activities: Activities,
    pub(crate) restarts: Restarts,
}
