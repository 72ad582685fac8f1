//! Definitions of existentials as nodes of a graph, which may read universals and other existentials
//! (A. Padoa, 1900; E. Beth, 1953).
//!
//! The crate is definitions and a law: those who look for definitions and those who use them share it.
#![tactic(auto)]

pub mod laws;
