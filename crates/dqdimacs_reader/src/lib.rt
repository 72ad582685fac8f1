//! DQDIMACS: QDIMACS with `d` lines, read exactly.
#![tactic(auto)]

pub use distinct::DistinctLiterals;
pub use faults::{FormulaFault, ReadStop};
pub use reader::{Reader, read};
pub use writer::write;

mod checks;
mod distinct;
mod faults;
pub mod laws;
mod lexemes;
mod machine;
mod plain_steps;
mod reader;
mod steps;
mod token_reader;
mod writer;
