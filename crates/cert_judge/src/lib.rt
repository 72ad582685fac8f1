//! The judgement of a certificate: whether it proves a formula true or false, or shows which of its
//! existentials are defined, and what is wrong with it first where it doesn't.
//!
//! `judge` judges a text for a formula that was read. The laws in `laws` say that only one thing is
//! to be said of a certificate, and that what is accepted is right.
#![tactic(auto)]

pub use answers::{CertificateFault, Judgement};
pub use judging::judge;
pub use streams::Stream;

mod answers;
mod beginnings;
mod binary;
mod circuits;
mod comments;
mod definitions;
mod endings;
mod free_texts;
mod judging;
pub mod laws;
mod phases;
mod proof_starts;
mod streams;
