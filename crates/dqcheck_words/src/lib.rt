//! The words of the checker's command line, read with `clap`.
//!
//! `file_names` gives the names of the two files that `dqcheck FORMULA CERT` is to read, as
//! `spelled_command` says (`specs/Spelling.antt`). That this is clap's own meaning of a command with
//! two required arguments and no flag, at all words, is a law in `laws`.
#![tactic(auto)]

pub use files::{FileNames, file_names};

pub mod examples;
mod files;
pub mod laws;
