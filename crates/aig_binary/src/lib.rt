//! AIGER's binary form, the combinational part, read exactly and written.
//!
//! A header of a few bytes may state a thousand million inputs, and in this form they aren't written:
//! `read_bare` reads a file without listing them, in time and memory by its text, and `list_inputs`
//! lists them. `read` takes either form, inputs listed. `write_binary` writes a circuit whose gates
//! stand in order.
#![tactic(auto)]

pub use bare::{BareCircuit, list_inputs};
pub use either::read;
pub use files_by_line::{AigLines, Place, begin_lines};
pub use reader::read_bare;
pub use writer::write_binary;

mod bare;
mod deltas;
mod either;
mod endings;
mod files_by_line;
mod gates;
mod headers;
pub mod laws;
mod more_gates;
mod outputs;
mod reader;
mod stops;
mod writer;
