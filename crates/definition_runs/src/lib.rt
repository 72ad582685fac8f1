//! What a run writes that asks for the definitions of a formula's existentials.
#![tactic(auto)]

pub use files::define_file;

mod defining;
mod files;
