//! Scripts of a session, read exactly: a command a line, which opens a frame, adds a clause to the
//! newest one, closes it, or asks for a search (the assertion stack of C. Barrett, P. Fontaine, C.
//! Tinelli, "The SMT-LIB Standard: Version 2.6", 2017, section 4.1.4).
#![tactic(auto)]

pub use commands::{Command, Script};
pub use faults::{ScriptFault, ScriptStop};
pub use reader::read_script;

mod clauses;
mod commands;
pub mod examples;
mod faults;
pub mod laws;
mod reader;
