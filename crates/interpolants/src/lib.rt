//! Interpolants, read off the hinted derivation of an answer of the log.
//!
//! The given clauses that the answer reaches fall into two sides by their groups' selectors. A
//! line's hints are replayed as a chain of resolutions, and each clause gets a partial interpolant,
//! a node over the nodes of the variables that both sides share.
#![tactic(auto)]

pub use reading::from_log;

mod chains;
mod lines;
mod literal_sets;
mod node_maps;
mod parts;
mod reading;
mod replaying;
mod shared;
mod sides;
mod splits;
