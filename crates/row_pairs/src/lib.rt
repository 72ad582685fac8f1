//! Which rows of an expansion are one pair for existentials with one dependency set.
#![tactic(auto)]

pub use rounds::pair_rounds;

mod rounds;
