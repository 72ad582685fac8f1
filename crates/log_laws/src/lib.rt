//! What a log means: laws of its definitions, and logs that show them.
#![tactic(auto)]

pub mod examples;
pub mod laws;
