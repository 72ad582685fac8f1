//! Proofs of definitions: a node that is an existential's definition is proved to be one once more,
//! on the first copy of the matrix.
//!
//! The gates of the node's cone are named over first copies, and their clauses given once, whatever
//! definitions share them. Two clauses say that the copy of the existential differs from the node's
//! literal. The answer that these can't all be true rests on the first copy, on such gates and on
//! the two clauses alone, so that a checker can follow it without a second copy.
#![tactic(auto)]

pub use searching::Proved;
pub use terms::Terms;

mod differing;
mod leaves;
mod proving;
mod searching;
mod terms;
