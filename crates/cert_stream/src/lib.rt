//! Certificates that are judged as they come, so that no text is held.
//!
//! `RefutationStream` judges a refutation line by line: it holds the rows, which ids are live, and the
//! lines that are live. `ProofStream` judges a circuit's proof so, and holds the circuit.
//!
//! `DqrLines` and `DqpLines` read these texts: they answer over the lines of a text as
//! `cert_text::read_dqr` and `read_dqp` answer over the text, since what a line gives is one step of
//! the definitions that say what these read. They keep the rows and which ids are live, and of the
//! proof its last line alone.
#![tactic(auto)]

pub use proofs::ProofStream;
pub use proofs_by_line::DqpLines;
pub use refutations::RefutationStream;
pub use refutations_by_line::DqrLines;

mod bodies;
mod items_to_come;
pub mod laws;
mod proofs;
mod proofs_by_line;
mod refutations;
mod refutations_by_line;
