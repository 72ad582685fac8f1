//! The checker: whether a certificate proves a formula true or false, or shows which of its
//! existentials are defined.
//!
//! `dqcheck_run` is a whole run of the program `dqcheck`: its contract says which line is written
//! and with which status it ends.
#![tactic(auto)]

pub use cert_judge::Stream;
pub use run::dqcheck_run;
pub use statuses::CheckStatus;

mod fault_names;
mod reports;
mod run;
mod statuses;
