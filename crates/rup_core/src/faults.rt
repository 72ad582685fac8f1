//! What may be wrong with a proof: lines one after another, each derived from the clauses of a base
//! and the lines before it.

/// Why a proof proves nothing.
#[derive(Clone, Copy, PartialEq, Eq)]
pub enum ProofFault {
    /// The first line that isn't derived, by its id.
    Underived(u64),
    /// All lines are derived, and the last one isn't empty, or there is none.
    Unfinished,
}
