//! ASCII AIGER, the combinational part, read exactly and written.
//!
//! `AagLines` answers over the lines of a text as `read` answers over the text: what a line gives is
//! one step of the definition that says what that reads. It keeps the circuit and the symbols, and no
//! comment.
#![tactic(auto)]

pub use body::{
    CircuitReader, NextLine, part_of, start_reader, take_gate, take_input, take_output,
};
pub use circuits_by_line::AagLines;
pub use faults::{AagFault, AagStop, LineStop};
pub use files::{AagFile, ReadCircuit, Text};
pub use headers::{Header, read_header};
pub use reader::{Taken, at_end, at_line, check_file, finish_file, read, take_line};
pub use symbol_lines::is_comment_mark;
pub use symbol_steps::take_symbol;
pub use symbols::Symbols;
pub use writer::{write, write_counts, write_ending, write_outputs};

mod body;
mod circuits_by_line;
mod faults;
mod files;
mod headers;
pub mod laws;
mod name_tables;
mod numbers;
mod reader;
mod symbol_lines;
mod symbol_steps;
mod symbols;
mod undefined;
mod writer;
