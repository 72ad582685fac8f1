//! What is written with a verdict on a formula: the line that names it, and its evidence, exported of
//! the log's answer.
//!
//! `true_text`, `false_text` and `unknown_text` write it, whoever searched. The laws in `laws` say
//! that the checker accepts what is written.
#![tactic(auto)]

pub use forms::Form;
pub use texts::{circuit_text, false_text, refutation_text, true_text, unknown_text, with_verdict};

mod forms;
pub mod laws;
mod texts;
