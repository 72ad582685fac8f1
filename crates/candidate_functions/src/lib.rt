//! Candidates for the functions of a formula's existentials: circuits that agree with a model of
//! its expansion at the pairs of the table.
#![tactic(auto)]

pub use building::{Outputs, build};
pub use guesses::Trees;
pub use samples::{Sample, Samples};

mod building;
mod classes;
mod counts;
mod cubes;
mod definitions;
mod differing;
mod examples;
mod guesses;
pub mod laws;
mod outputs;
mod patches;
mod patching;
mod refutations;
mod rules;
mod samples;
mod trees;
mod twins;
mod values;
