//! What ties the page on sessions to the definitions that the contracts cite.
#![tactic(auto)]

pub mod laws;
