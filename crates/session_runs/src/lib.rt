//! What a run writes that takes a script's commands over a formula: a block for each of its searches.
//!
//! A script's commands are taken on a database of clauses: `commands` says which number each clause has,
//! and which are in force.
#![tactic(auto)]

pub use files::{NoSession, session_files};

mod blocks;
mod commands;
mod fault_names;
mod files;
mod laws;
mod searches;
mod sessions;
