//! The versions of a proof's text.
//!
//! The version is the header's word and no field of what was read: a proof is written in version 2
//! exactly where it has a deletion.

/// The version that a header announces.
#[derive(Clone, Copy, PartialEq, Eq)]
pub enum Version {
    /// Each line is a step's.
    One,
    /// Between these, lines may delete clauses of earlier ones.
    Two,
}
